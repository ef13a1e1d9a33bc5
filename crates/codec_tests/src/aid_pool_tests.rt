//! Runs of a pool.

use aid_pool::AidPool;
use mac_frame::MAX_AID;
use std::process::Abort;
use std::test::Fail;

/// Takes a number, which must be this one.
fn takes(rt: &impl Abort, pool: &mut AidPool, aid: Option<u16>) {
    assert_eq!(rt; pool.take(), aid);
}

/// Gives a number back, which must be out.
fn gives(rt: &impl Abort, pool: &mut AidPool, aid: u16) {
    assert!(rt; pool.is_out(aid), "{aid}");
    pool.give(aid);
}

#[test]
fn the_least_number_is_taken_again(rt: HostRuntime) {
    let mut pool = AidPool::new(2);
    for aid in [Some(1), Some(2), None] {
        takes(&rt, &mut pool, aid);
    }
    gives(&rt, &mut pool, 1);
    assert_eq!(rt; pool.out_count(), 1);
    takes(&rt, &mut pool, Some(1));
}

/// Numbers are taken by name out of a pool of three: none of them twice, and no fourth.
#[test]
fn numbers_are_taken_by_name(rt: HostRuntime) {
    let mut pool = AidPool::new(3);
    for (aid, is_taken) in [
        (MAX_AID, true),
        (0, false),
        (2008, false),
        (2, true),
        (2, false),
    ] {
        assert!(rt; pool.take_this(aid) == is_taken, "{aid}");
    }
    takes(&rt, &mut pool, Some(1));
    assert!(rt; !pool.take_this(3) && pool.out_count() == 3);
    gives(&rt, &mut pool, 2);
    assert!(rt; pool.take_this(3));
}

/// Takes all numbers, which must come in their order, and then be out.
fn takes_all(rt: &impl Abort, pool: &mut AidPool) {
    for aid in 1..=MAX_AID {
        takes(rt, pool, Some(aid));
    }
    takes(rt, pool, None);
    assert_eq!(rt; pool.out_count(), MAX_AID);
    assert!(rt; pool.is_out(MAX_AID) && !pool.is_out(0) && !pool.is_out(2008));
}

/// Those at the edges of words of 64 numbers, and of the last word, which has the numbers from 1984 on, come again too.
#[test]
fn all_2007_numbers_are_taken_twice(rt: HostRuntime) {
    let mut pool = AidPool::new(MAX_AID);
    takes_all(&rt, &mut pool);
    for aid in 1..=MAX_AID {
        gives(&rt, &mut pool, aid);
    }
    assert_eq!(rt; pool.out_count(), 0);
    takes_all(&rt, &mut pool);
    let edges = [63, 64, 65, 127, 128, 1983, 1984, 1985, 2006, 2007];
    for aid in edges {
        gives(&rt, &mut pool, aid);
    }
    for aid in edges {
        takes(&rt, &mut pool, Some(aid));
    }
    takes(&rt, &mut pool, None);
}

/// A table with a truth value for each number, which is searched from the first on.
#[test]
fn a_plain_table_gives_the_same_numbers(rt: HostRuntime) {
    let mut pool = AidPool::new(MAX_AID);
    let mut plain = [false; 2008];
    plain[0] = true;
    for turn in 0..6000u32 {
        let aid = (turn.wrapping_mul(7919) % 2007 + 1) as u16;
        if turn % 3 == 0 && pool.is_out(aid) {
            pool.give(aid);
            plain[usize::from(aid)] = false;
        } else {
            let place = plain.iter().position(|is_out| !is_out);
            assert_eq!(rt; pool.take().map(usize::from), place);
            if let Some(place) = place {
                assert!(rt; place < plain.len());
                plain[place] = true;
            }
        }
    }
}
