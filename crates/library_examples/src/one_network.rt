//! A network alone.

ghost use Rattle.std.specs.Prelude.{◌≡◌, ◌<◌, ◌^◌, ◌++◌, [], ◌∷◌, None, IfOk, OnOk, flat_map};
ghost use Rattle.ap_config.specs.Configuration.{setting_fault, network_fault};
ghost use Rattle.events.specs.declared.event.Event.TheVariants as events;
ghost use Rattle.network.specs.BssView.{network_of};
ghost use Rattle.network.specs.Network.{step};
ghost use Rattle.network.specs.NetworkView.{took_event};
ghost use Rattle.network.specs.Section.{section_of};
ghost use Rattle.library_examples.specs.Settings.{setting};

use ap_config::NetConfig;
use events::{Event, LentEvent, Section};
use mac_frame::{List, NoMemory, Octets};
use network::{Bss, Frames, Network, NetworkRefusal, ReceivedEvent, Refusal, Spare, one_step};
use std::alloc::Global;

/// What a network alone makes of events, on a channel and with a beacon interval in time units: what it keeps of them,
/// and all that it sends. `HistoryFull` if there are more than it may take, `NoMemory` if memory ran out.
pub fn take_all(
    alloc: Global,
    channel: u8,
    interval: u16,
    config: NetConfig,
    events: Vec<Event>,
) -> Result<Section, Refusal>
    requires setting { setting_fault channel interval ≡ None }
    requires network { network_fault config ≡ None }
    ensures { IfOk result (λ section. section ≡ section_of (setting channel interval config) events.items) }
{
    one_step();
    let mut network = Bss::new(alloc, channel, interval, config)?;
    let mut sent = Vec::new(alloc);
    for event in events {
        take_one(&mut network, &mut sent, event)?;
    }
    Ok(network.into_section(List::from_vec(sent))?)
}

/// The network takes an event, and all that it sends is taken out.
fn take_one(network: &mut Bss, sent: &mut Vec<Octets>, event: Event) -> Result<(), Refusal>
    requires waiting { network.old.waiting ≡ [] }
    requires sent { sent.old.items ≡ (network_of network.old).air }
    ensures history { OnOk result (network.new.history ≡ network.old.history ++ event ∷ []) }
    ensures setting { network.new.setting ≡ network.old.setting }
    ensures waiting { OnOk result (network.new.waiting ≡ []) }
    ensures sent { OnOk result (sent.new.items ≡ (network_of network.new).air) }
{
    network.take(event)?;
    send_waiting(network, sent)?;
    Ok(())
}

/// Takes out the frames that wait, the first of them first. A program gives each to its radio here.
fn send_waiting(network: &mut Bss, sent: &mut Vec<Octets>) -> Result<(), NoMemory>
    ensures sent { OnOk result (sent.new.items ≡ sent.old.items ++ network.old.waiting) }
    ensures none { OnOk result (network.new.waiting ≡ []) }
    ensures setting { network.new.setting ≡ network.old.setting }
    ensures history { network.new.history ≡ network.old.history }
{
    while let Some(frame) = network.take_front() {
        sent.push(frame)?;
    }
    Ok(())
}

/// Lets a network that keeps no history, and took fewer than 2^62 events, take a string that was heard on the air, and
/// appends the frames that it sends there to `out`. The string stays where it lies, and a frame is built in the memory
/// of an earlier one. After `NoMemory` the network may have taken the string, and `out` may have some of the frames.
pub fn answer(
    network: &mut Network,
    heard: &[u8],
    spare: &mut Spare,
    out: &mut Octets,
) -> Result<(), NetworkRefusal>
    requires countable { network.old.events < 2 ^ 62 }
    ensures after { OnOk result (network.new ≡ took_event (events.Air heard.now) network.old) }
    ensures air { OnOk result (out.new ≡ out.old ++ flat_map (λ frame. frame)
        (step network.old.setting network.old.network (events.Air heard.now)).air) }
{
    let event = ReceivedEvent::for_one(LentEvent::Air(heard));
    let sent = network.take_received(&event, spare)?;
    append_all(out, &sent.air)?;
    spare.keep(sent);
    Ok(())
}

/// Appends frames, the first of them first. A program gives each to its radio here.
fn append_all(out: &mut Octets, frames: &Frames) -> Result<(), NoMemory>
    ensures { OnOk result (out.new ≡ out.old ++ flat_map (λ frame. frame) frames.now) }
{
    let (first, others) = frames.parts();
    if let Some(first) = first {
        out.append(first.as_slice())?;
    }
    for frame in others {
        out.append(frame.as_slice())?;
    }
    Ok(())
}
