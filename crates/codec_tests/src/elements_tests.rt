//! The longest element, written, and elements read one by one.

use elements::{Elements, write_element};
use mac_frame::Octets;
use std::test::Fail;

#[test]
fn the_longest_element_is_appended(rt: HostRuntime) -> Result<(), Fail> {
    let mut longest = [7; 258];
    longest[..3].copy_from_slice(&[0xff, 221, 255]);
    let mut out = Octets::from_slice(rt.alloc(), &[0xff])?;
    write_element(&mut out, 221, &[7; 255])?;
    assert_eq!(rt; out.as_slice(), longest.as_slice());
    Ok(())
}

#[test]
fn two_elements_are_read_in_order(rt: HostRuntime) -> Result<(), Fail> {
    let mut elements = Elements::new(&[0, 2, 97, 98, 3, 1, 6])?;
    for (id, body) in [(0, [97, 98].as_slice()), (3, &[6])] {
        let element = elements.next();
        assert!(rt;
            element.is_some_and(|it| it.id == id && it.body == body),
            "{id}"
        );
    }
    assert!(rt; elements.next().is_none());
    Ok(())
}
