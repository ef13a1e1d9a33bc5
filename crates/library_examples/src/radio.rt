//! A radio of several networks: event by event, or a whole list of steps.

ghost use Rattle.std.specs.Prelude.{◌≡◌, ◌<◌, IfOk, length};
ghost use Rattle.bss_core.specs.Radio.{sections_after};
ghost use Rattle.library_examples.specs.Others.{OthersStay};

use ap_config::{OpenFault, RadioConfig};
use bss_core::{Radio, RunResult, Step, run};
use events::{AirItem, Event, Section};
use mac_frame::{List, NoMemory};
use network::Refusal;
use std::alloc::Global;

/// Lets the network at a place take an event, and its frames leave through the air queue. Answers what left. It refuses
/// as [`Radio::take`] does; after `NoMemory` frames that left may be lost.
pub fn serve(
    alloc: Global,
    radio: &mut Radio,
    place: usize,
    event: Event,
) -> Result<Vec<AirItem>, Refusal>
    requires { place < length radio.old.config.networks }
    ensures config { radio.new.config ≡ radio.old.config }
    ensures others { OthersStay place radio.old radio.new }
{
    radio.take(place, event)?;
    Ok(send_waiting(alloc, radio, place)?)
}

/// Hands each frame of a network that waits to the air queue, and lets one leave.
fn send_waiting(alloc: Global, radio: &mut Radio, place: usize) -> Result<Vec<AirItem>, NoMemory>
    requires { place < length radio.old.config.networks }
    ensures config { radio.new.config ≡ radio.old.config }
    ensures others { OthersStay place radio.old radio.new }
{
    let mut left = Vec::new(alloc);
    for _ in 0..radio.bss(place).waiting_len() {
        if let Some(item) = send_first(radio, place) {
            left.push(item)?;
        }
    }
    Ok(left)
}

/// The same of the first of them alone.
fn send_first(radio: &mut Radio, place: usize) -> Option<AirItem>
    requires { place < length radio.old.config.networks }
    ensures config { radio.new.config ≡ radio.old.config }
    ensures others { OthersStay place radio.old radio.new }
{
    let _ = radio.hand(place);
    radio.leave()
}

/// The section of each network of a radio after steps of theirs, in whatever order these come: each is that of the
/// network alone, with its own events. It refuses as [`run`] does.
pub fn sections(
    alloc: Global,
    config: RadioConfig,
    steps: &[Step],
) -> Result<List<Section>, OpenFault>
    ensures { IfOk result (λ sections. sections ≡ sections_after config steps.now) }
{
    let RunResult { sections, .. } = run(alloc, config, steps)?;
    Ok(sections)
}
