//! Runs of a radio: what a list of steps makes of it.

ghost use Rattle.std.specs.Prelude.{◌≡◌, ◌≢◌, ◌↔◌, ◌++◌, ◌∷◌, [], ◌<◌, ℕ, List, Some, Err, IfOk, OnOk, length};
ghost use Rattle.ap_config.specs.Configuration.{fault_of};
ghost use Rattle.network.specs.Network.{alone};
ghost use Rattle.bss_core.specs.Radio.{after_steps, waiting_at, part_of, sections_after};
ghost use Rattle.ap_config.specs.Places.{setting_at};
ghost use Rattle.events.specs.Items.{items_of};
ghost use Rattle.bss_core.specs.Running.{IsAt, frames_of, sections_with};
ghost use Rattle.network.specs.BssView.{section_with};
ghost use Rattle.ap_config.specs.declared.config.ConfigFault.{ConfigFault};
ghost use Rattle.bss_core.specs.declared.radio.step.Step.{Step};
ghost use Rattle.bss_core.specs.declared.radio.step.Step.TheVariants as steps;

use crate::radio::{Radio, Step};
use ap_config::{OpenFault, RadioConfig};
use events::{AirItem, Event, Section, own_frames};
use mac_frame::{List, NoMemory, Octets};
use network::{Bss, Refusal, sent_frames};
use std::alloc::Global;

/// What a run ends with.
#[derive(Debug, Drop)]
pub struct RunResult {
    /// The section of each network, in order of place. Its air frames are all that the network sent: those that left,
    /// those that are queued and those that wait, in this order.
    pub sections: List<Section>,
    /// The frames that left, the first of them first.
    pub left: List<AirItem>,
    /// The frames that are queued, the first of them first.
    pub queued: List<AirItem>,
}

/// Opens the radio of a configuration and makes the steps in their order. A step that names no network does nothing,
/// nor does an event for a network whose history is full. `Config` with the first fault exactly if the
/// configuration has one, which is tested first; `NoMemory` if memory ran out, and nothing is handed out then.
pub fn run(alloc: Global, config: RadioConfig, steps: &[Step]) -> Result<RunResult, OpenFault>
    ensures fault { (fault : ConfigFault) → (result ≡ Err (OpenFault.Config fault)) ↔ (fault_of config ≡ Some fault) }
    ensures callers { result ≢ Err OpenFault.Callers }

    // What left and what is queued is what the steps make of the radio.
    ensures left { IfOk result (λ run. run.left ≡ (after_steps config steps.now).left) }
    ensures queued { IfOk result (λ run. run.queued ≡ (after_steps config steps.now).queue) }

    // The section of each network is that of the network alone, with its own events.
    ensures sections { IfOk result (λ run. run.sections ≡ sections_after config steps.now) }

    // Of each network, the frames that left, those that are queued and those that wait are all that it sends alone.
    ensures frames { IfOk result (λ run. (place : ℕ) → place < length config.networks →
        items_of place run.left ++ items_of place run.queued ++ waiting_at config (after_steps config steps.now) place
        ≡ (alone (setting_at config place) (part_of config place steps.now)).air) }
{
    // the frames of one network among those of several, and those that it sends
    own_frames();
    sent_frames();
    let mut radio = Radio::new(alloc, config)?;
    let mut left = Vec::new(alloc);
    for step in steps {
        make_step(alloc, &mut radio, &mut left, step)?;
    }
    let (networks, queued) = radio.into_parts();
    let sections = sections(alloc, networks, left.as_slice(), queued.as_slice())?;
    Ok(RunResult {
        sections,
        left: List::from_vec(left),
        queued,
    })
}

/// Makes one step of a radio, with the frames that left it so far.
fn make_step(
    alloc: Global,
    radio: &mut Radio,
    left: &mut Vec<AirItem>,
    step: &Step,
) -> Result<(), NoMemory>
    ensures config { radio.new.config ≡ radio.old.config }
    ensures made { OnOk result ((before : List Step) →
        IsAt (after_steps radio.old.config before) radio.old left.old.items →
        IsAt (after_steps radio.old.config (before ++ step.now ∷ [])) radio.new left.new.items) }
{
    match step {
        Step::Take { place, event } => take(alloc, radio, *place, event),
        Step::Hand { place } => {
            if *place < radio.networks() {
                let _ = radio.hand(*place);
            }
            Ok(())
        }
        Step::Leave => {
            if let Some(item) = radio.leave() {
                left.push(item)?;
            }
            Ok(())
        }
    }
}

/// Lets the network at a place, if there is one, take a copy of an event, if its history is not full.
fn take(alloc: Global, radio: &mut Radio, place: usize, event: &Event) -> Result<(), NoMemory>
    ensures config { radio.new.config ≡ radio.old.config }
    ensures made { OnOk result ((before : List Step) (left : List AirItem) →
        IsAt (after_steps radio.old.config before) radio.old left →
        IsAt (after_steps radio.old.config (before ++ steps.Take place event.now ∷ [])) radio.new left) }
{
    // the frames of one network among those of several, and those that it sends
    own_frames();
    sent_frames();
    if place >= radio.networks() {
        return Ok(());
    }
    match radio.take(place, event.lend().copy(alloc)?) {
        Ok(_) => Ok(()),
        Err(Refusal::HistoryFull) => Ok(()),
        Err(Refusal::NoMemory) => Err(NoMemory),
    }
}

/// The section of each network, in order of place, with its frames among those that left and those that are queued.
fn sections(
    alloc: Global,
    networks: List<Bss>,
    left: &[AirItem],
    queued: &[AirItem],
) -> Result<List<Section>, NoMemory>
    ensures { IfOk result (λ sections. sections ≡ sections_with left.now queued.now networks) }
{
    let mut sections = Vec::new(alloc);
    for network in networks.into_vec() {
        let place = sections.len();
        sections.push(section(alloc, place, network, left, queued)?)?;
    }
    Ok(List::from_vec(sections))
}

/// The section of the network at a place.
fn section(
    alloc: Global,
    place: usize,
    mut network: Bss,
    left: &[AirItem],
    queued: &[AirItem],
) -> Result<Section, NoMemory>
    ensures { IfOk result (λ section. section ≡ section_with (frames_of left.now queued.now place network) network) }
{
    let mut air = Vec::new(alloc);
    copy_items(alloc, &mut air, place, left)?;
    copy_items(alloc, &mut air, place, queued)?;
    while let Some(octets) = network.take_front() {
        air.push(octets)?;
    }
    network.into_section(List::from_vec(air))
}

/// Puts copies of the frames of the network at a place after those in `air`.
fn copy_items(
    alloc: Global,
    air: &mut Vec<Octets>,
    place: usize,
    items: &[AirItem],
) -> Result<(), NoMemory>
    ensures { OnOk result (air.new.items ≡ air.old.items ++ items_of place items.now) }
{
    for item in items {
        if item.place == place {
            air.push(item.octets.copy(alloc)?)?;
        }
    }
    Ok(())
}
