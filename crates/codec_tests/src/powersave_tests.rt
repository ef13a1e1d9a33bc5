//! The units that are kept: many calls beside a plain list, those that leave by their clocks, and those for whom units
//! are kept.

ghost use Rattle.std.specs.Prelude.{◌≡◌, ◌∷◌, []};
ghost use Rattle.powersave.specs.declared.unit.Whom.TheVariants as whoms;

use mac_frame::{MacAddr, NoMemory, Octets};
use powersave::{Keep, Unit, Whom};
use std::alloc::Global;
use std::process::Abort;
use std::test::Fail;

/// The station with this last octet.
fn station(last: u8) -> Whom
    ensures { result ≡ whoms.One (2 ∷ 170 ∷ 0 ∷ 0 ∷ 0 ∷ last ∷ []) }
{
    Whom::One(MacAddr::new([0x02, 0xaa, 0, 0, 0, last]))
}

/// A unit without a body that came at a clock.
fn unit(alloc: Global, at: u32) -> Unit
    ensures { result.at ≡ at }
{
    Unit {
        to: MacAddr::new([0x02, 0xaa, 0, 0, 0, 1]),
        source: MacAddr::new([0x02, 0xbb, 0, 0, 0, 1]),
        body: Octets::new(alloc),
        at,
    }
}

/// Puts a unit that came at a clock into a list, which must not be full.
fn put(
    rt: &impl Abort,
    alloc: Global,
    keep: &mut Keep,
    whom: Whom,
    at: u32,
) -> Result<(), NoMemory> {
    assert!(rt; !keep.is_full() && keep.puts() < 1000);
    keep.put(whom, unit(alloc, at))
}

/// The clock of the unit for one that `n` others for it came before.
fn clock_at(keep: &Keep, whom: Whom, n: usize) -> Option<u32> {
    keep.nth(whom, n).map(|unit| unit.at)
}

#[test]
fn each_has_its_part_in_order_of_arrival(rt: HostRuntime) -> Result<(), Fail> {
    let mut keep = Keep::new(rt.alloc(), 3);
    assert!(rt; keep.is_empty() && keep.puts() == 0);
    for (whom, at) in [(station(1), 11), (Whom::Group, 12), (station(1), 13)] {
        put(&rt, rt.alloc(), &mut keep, whom, at)?;
    }
    assert!(rt; keep.is_full());
    assert_eq!(rt; keep.count_for(station(1)), 2);
    assert_eq!(rt; keep.oldest(station(1)).map(|unit| unit.at), Some(11));
    assert_eq!(rt; keep.count_for(station(1)), 1);
    assert_eq!(rt; clock_at(&keep, station(1), 0), Some(13));
    assert_eq!(rt; clock_at(&keep, Whom::Group, 0), Some(12));
    keep.drop_for(station(1));
    assert!(rt; keep.len() == 1 && keep.puts() == 3);
    Ok(())
}

/// Puts a unit that came at a clock back behind as many, into a list that must not be full.
fn put_back(
    rt: &impl Abort,
    alloc: Global,
    keep: &mut Keep,
    whom: Whom,
    before: u8,
    at: u32,
) -> Result<(), NoMemory> {
    assert!(rt; !keep.is_full() && keep.in_front() < 1000);
    keep.put_back(whom, usize::from(before), unit(alloc, at))
}

/// For station 1 come units at clocks 3 and 5, and one for the group between. Then units come back that came at 1, 4
/// and 6, and one for the group.
fn returned(rt: &impl Abort, alloc: Global) -> Result<Keep, NoMemory> {
    let mut keep = Keep::new(alloc, 9);
    for (whom, at) in [(station(1), 3), (Whom::Group, 2), (station(1), 5)] {
        put(rt, alloc, &mut keep, whom, at)?;
    }
    put_back(rt, alloc, &mut keep, station(1), 1, 4)?;
    put_back(rt, alloc, &mut keep, station(1), 0, 1)?;
    put_back(rt, alloc, &mut keep, station(1), 200, 6)?;
    put_back(rt, alloc, &mut keep, Whom::Group, 1, 7)?;
    put(rt, alloc, &mut keep, station(1), 8)?;
    Ok(keep)
}

#[test]
fn a_unit_comes_back_to_its_place(rt: HostRuntime) -> Result<(), Fail> {
    let keep = returned(&rt, rt.alloc())?;
    for (n, at) in [1, 3, 4, 5, 6, 8].iter().enumerate() {
        assert_eq!(rt; clock_at(&keep, station(1), n), Some(*at));
    }
    assert_eq!(rt; clock_at(&keep, Whom::Group, 0), Some(2));
    assert_eq!(rt; clock_at(&keep, Whom::Group, 1), Some(7));
    assert!(rt; keep.len() == 8 && keep.puts() == 4 && keep.in_front() == 206);
    Ok(())
}

#[test]
fn the_units_of_one_are_handed_over(rt: HostRuntime) -> Result<(), Fail> {
    let mut keep = returned(&rt, rt.alloc())?;
    let mut units = keep.take_for(station(1));
    assert!(rt; units.len() == 6 && keep.len() == 2);
    for at in [1, 3, 4, 5, 6, 8] {
        assert_eq!(rt; units.pop().map(|unit| unit.at), Some(at));
    }
    assert!(rt; units.is_empty() && keep.take_for(station(2)).is_empty());
    assert_eq!(rt; clock_at(&keep, Whom::Group, 1), Some(7));
    Ok(())
}

/// For whom a number stands: the group, or the station with this last octet.
fn whom_of(number: u8) -> Whom {
    match number {
        0 => Whom::Group,
        last => station(last),
    }
}

/// The place in a plain list of the unit for one that `n` others for it came before.
fn place_of(list: &[(u8, u32)], whom: u8, n: usize) -> Option<usize> {
    let mut others = n;
    for (place, (other, _)) in list.iter().enumerate() {
        if *other == whom {
            if others == 0 {
                return Some(place);
            }
            others -= 1;
        }
    }
    None
}

/// What the readers say must be what a plain list holds, and for whom room is reserved.
fn compare(rt: &impl Abort, keep: &Keep, list: &[(u8, u32)], room: Option<u8>) {
    assert_eq!(rt; keep.len(), list.len());
    assert_eq!(rt; keep.is_empty(), list.is_empty());
    assert_eq!(rt; keep.is_full(), list.len() >= 8);
    for whom in 0..4u8 {
        assert_eq!(rt; keep.has_room(whom_of(whom)), room == Some(whom));
        let mut count = 0;
        for n in 0..9usize {
            let place = place_of(list, whom, n);
            let at = match place {
                Some(place) => list.get(place).map(|it| it.1),
                None => None,
            };
            assert_eq!(rt; clock_at(keep, whom_of(whom), n), at);
            if place.is_some() {
                count = n + 1;
            }
        }
        assert_eq!(rt; keep.count_for(whom_of(whom)), count);
    }
}

/// Takes the oldest unit for one out of a plain list.
fn take_from(list: &mut Vec<(u8, u32)>, whom: u8) -> Option<u32> {
    let place = list.iter().position(|it| it.0 == whom)?;
    Some(list.remove(place).1)
}

/// The plain list has units for one of three stations or the group, each told by its clock. Room is for the one that it
/// was made for, until a unit is put or a call takes out units of that one.
#[test]
fn it_answers_what_a_plain_list_does(rt: HostRuntime) -> Result<(), Fail> {
    let mut keep = Keep::new(rt.alloc(), 8);
    let mut list = Vec::new(rt.alloc());
    let mut puts = 0u64;
    let mut room = None;
    let mut drawn = 1u64;
    for _ in 0..600u32 {
        drawn = drawn
            .wrapping_mul(6_364_136_223_846_793_005)
            .wrapping_add(1_442_695_040_888_963_407);
        let whom = (drawn >> 40 & 3) as u8;
        match drawn >> 60 {
            0..=8 => {
                if list.len() < 8 {
                    let at = (drawn >> 48 & 0xff) as u32;
                    put(&rt, rt.alloc(), &mut keep, whom_of(whom), at)?;
                    list.push((whom, at))?;
                    puts = puts.wrapping_add(1);
                    room = None;
                }
            }
            9..=10 => {
                keep.reserve(whom_of(whom))?;
                room = Some(whom);
            }
            call => {
                if call < 15 {
                    let at = take_from(&mut list, whom);
                    assert_eq!(rt; keep.oldest(whom_of(whom)).map(|unit| unit.at), at);
                } else {
                    keep.drop_for(whom_of(whom));
                    list.retain(|it| it.0 != whom);
                }
                if room == Some(whom) {
                    room = None;
                }
            }
        }
        assert_eq!(rt; keep.puts(), puts);
        compare(&rt, &keep, list.as_slice(), room);
    }
    Ok(())
}

/// What is told of one: the clock at which the oldest unit for it came; it is told once at most.
fn told(rt: &impl Abort, keep: &Keep, whom: Whom) -> Result<Option<u32>, Fail> {
    let mut at = None;
    for oldest in keep.oldest_of_each()? {
        if oldest.whom == whom {
            assert_eq!(rt; at, None);
            at = Some(oldest.at);
        }
    }
    Ok(at)
}

/// This many must be told, and of the group and the stations 1 to 3 the clocks at which their oldest units came.
fn tells(rt: &impl Abort, keep: &Keep, count: usize, oldest: [Option<u32>; 4]) -> Result<(), Fail> {
    let [group, one, two, three] = oldest;
    assert_eq!(rt; keep.oldest_of_each()?.len(), count);
    assert_eq!(rt; told(rt, keep, Whom::Group)?, group);
    assert_eq!(rt; told(rt, keep, station(1))?, one);
    assert_eq!(rt; told(rt, keep, station(2))?, two);
    assert_eq!(rt; told(rt, keep, station(3))?, three);
    Ok(())
}

/// Puts units for the group, for station 2, for station 1, and once more for station 2.
fn put_in_turn(rt: &impl Abort, alloc: Global, keep: &mut Keep) -> Result<(), NoMemory> {
    put(rt, alloc, keep, Whom::Group, 2)?;
    put(rt, alloc, keep, station(2), 3)?;
    put(rt, alloc, keep, station(1), 4)?;
    put(rt, alloc, keep, station(2), 5)
}

#[test]
fn each_for_whom_units_are_kept_is_told_with_its_oldest(rt: HostRuntime) -> Result<(), Fail> {
    let mut keep = Keep::new(rt.alloc(), 9);
    tells(&rt, &keep, 0, [None; 4])?;
    put_in_turn(&rt, rt.alloc(), &mut keep)?;
    tells(&rt, &keep, 3, [Some(2), Some(4), Some(3), None])?;
    keep.oldest(station(2));
    keep.oldest(station(1));
    tells(&rt, &keep, 2, [Some(2), None, Some(5), None])
}

/// These counts of units must be kept for the stations 1 and 2 and for the group, and the first for station 1 must have
/// come at this clock.
fn holds(rt: &impl Abort, keep: &Keep, counts: [usize; 3], first: Option<u32>) {
    let [one, other, group] = counts;
    assert_eq!(rt; keep.count_for(station(1)), one);
    assert_eq!(rt; keep.count_for(station(2)), other);
    assert_eq!(rt; keep.count_for(Whom::Group), group);
    assert_eq!(rt; clock_at(keep, station(1), 0), first);
}

/// At first no unit of a station is older than the clock, then the first is, and the unit at the clock itself stays,
/// then all are, and then none is kept. Those of the group leave when they are asked for. Room for another is left.
#[test]
fn those_that_came_before_a_clock_leave(rt: HostRuntime) -> Result<(), Fail> {
    let mut keep = Keep::new(rt.alloc(), 9);
    keep.put(station(1), unit(rt.alloc(), 0))?;
    keep.put(station(2), unit(rt.alloc(), 0))?;
    keep.put(Whom::Group, unit(rt.alloc(), 0))?;
    keep.put(station(1), unit(rt.alloc(), 1))?;
    keep.put(station(1), unit(rt.alloc(), 2))?;
    keep.reserve(station(2))?;
    assert!(rt; keep.drop_older(station(1), 0) == 0);
    holds(&rt, &keep, [3, 1, 1], Some(0));
    assert!(rt; keep.drop_older(station(1), 1) == 1);
    holds(&rt, &keep, [2, 1, 1], Some(1));
    assert!(rt; keep.has_room(station(2)));
    keep.reserve(station(1))?;
    assert!(rt; keep.drop_older(station(1), u32::MAX) == 2);
    holds(&rt, &keep, [0, 1, 1], None);
    assert!(rt; !keep.has_room(station(1)));
    assert!(rt; keep.drop_older(station(1), u32::MAX) == 0);
    assert!(rt; keep.drop_older(Whom::Group, 1) == 1);
    holds(&rt, &keep, [0, 1, 0], None);
    Ok(())
}
