//! A probe request that is read once for the networks that hear it.

ghost use Rattle.std.specs.Prelude.{◌≡◌, None};
ghost use Rattle.ap_config.specs.Configuration.{network_fault};

use ap_config::{NetConfig, Setting};
use events::LentEvent;
use fixtures::{PROBE_REQUEST, guest, lab, octets};
use network::{Network, ReceivedEvent, Spare};
use std::alloc::Global;
use std::test::Fail;

/// Whether a network that took no event sends one frame for an event, the one that a text spells.
fn is_answered(
    alloc: Global,
    network: NetConfig,
    event: &ReceivedEvent<'_>,
    text: &str,
) -> Result<bool, Fail>
    requires { network_fault network ≡ None }
{
    let setting = Setting {
        channel: 6,
        interval: 100,
        network,
    };
    let mut network = Network::new(alloc, setting);
    let sent = network.take_received(event, &mut Spare::new(alloc))?;
    let (first, others) = sent.air.parts();
    let expected = octets(alloc, text)?;
    Ok(others.is_empty() && first.is_some_and(|frame| frame.as_slice() == expected.as_slice()))
}

/// Whether `lab` and `guest` answer a probe request that was read once for both.
fn answers(alloc: Global) -> Result<[bool; 2], Fail> {
    let probe = octets(alloc, PROBE_REQUEST)?;
    let event = ReceivedEvent::for_all(LentEvent::Air(probe.as_slice()));
    let by_lab = is_answered(alloc, lab::config(alloc, 3)?, &event, lab::PROBE_RESPONSE)?;
    let by_guest = is_answered(
        alloc,
        guest::config(alloc, 3)?,
        &event,
        guest::PROBE_RESPONSE,
    )?;
    Ok([by_lab, by_guest])
}

#[test]
fn each_network_answers_a_probe_that_was_read_once(rt: HostRuntime) -> Result<(), Fail> {
    assert_eq!(rt; answers(rt.alloc())?, [true, true]);
    Ok(())
}
