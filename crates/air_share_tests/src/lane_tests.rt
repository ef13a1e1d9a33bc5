//! Lanes that a caller keeps.

use air_share::{Lane, choose, serve_chosen, told};
use std::process::Abort;

/// A lane on which something waits.
fn lane(debt: u64, scale: u32) -> Lane {
    Lane {
        debt,
        scale,
        waits: true,
    }
}

/// The place of the lane whose turn it is, which is served with a frame of this cost.
fn serve(lanes: &mut [Lane], cost: u32) -> Option<usize> {
    let place = choose(lanes)?;
    serve_chosen(lanes, place, cost);
    Some(place)
}

#[test]
fn the_lane_of_least_debt_is_served(rt: HostRuntime) {
    let mut lanes = [lane(30, 1), lane(10, 2), lane(10, 3)];
    assert_eq!(rt; serve(&mut lanes, 7), Some(1));
    assert!(rt; lanes == [lane(20, 1), lane(14, 2), lane(0, 3)]);
    assert_eq!(rt; choose(&lanes), Some(2));
    assert_eq!(rt; choose(&[]), None);
}

#[test]
fn a_debt_never_reaches_2_to_the_64(rt: HostRuntime) {
    let mut lanes = [lane(u64::MAX - 20, 10)];
    assert!(rt; !told(&mut lanes, 0, 3));
    assert!(rt; !told(&mut lanes, 1, 1));
    assert!(rt; told(&mut lanes, 0, 2));
    assert!(rt; lanes == [lane(u64::MAX, 10)]);
    assert_eq!(rt; serve(&mut lanes, u32::MAX), Some(0));
    assert!(rt; lanes == [lane(10 * u64::from(u32::MAX), 10)]);
}
