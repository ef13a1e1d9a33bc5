//! What a play is answered by, of its networks and what is kept of them.

ghost use Rattle.std.specs.Prelude.{◌≡◌, ◌≤◌, List, IfOk, length, map, true};
ghost use Rattle.ap_config.specs.declared.setting.Setting.{Setting};
ghost use Rattle.events.specs.declared.event.Event.{Event};
ghost use Rattle.networks.specs.WithFrames.{after_events};
ghost use Rattle.network.specs.Network.{counts_of, table_of};
ghost use Rattle.play.specs.Played.{IsPlayOf};
ghost use Rattle.play.specs.Kept.{IsCounted, IsEnd, event_given, log_with, section_told};
ghost use Rattle.play.specs.Plays.{IsPlayWithFrames};
ghost use Rattle.play.specs.Sources.{lists_of};

use crate::Finished;
use crate::kept::{Given, PlayedNetwork};
use crate::name::PlayName;
use crate::outlet::Left;
use crate::sources::Sources;
use ap_config::{NetConfig, checked_numbers};
use events::{Counts, Event, Section, StationRow};
use mac_frame::{List, NoMemory, Octets};
use network::{Network, reachable};
use networks::{NetworkWithFrames, SentFrames};
use std::alloc::Global;

/// The networks with the frames that they sent, and nothing else that is kept of them.
pub(crate) fn networks_after<N: PlayName>(
    alloc: Global,
    networks: Vec<PlayedNetwork>,
    left: Left,
) -> Result<Vec<NetworkWithFrames>, NoMemory>
    requires { IsEnd N.play networks.items left.logs.items left.items.items }
    ensures { IfOk result (λ logs. IsPlayWithFrames N.play.config N.play.sources logs.items) }
{
    let mut logs = Vec::with_capacity(alloc, networks.len())?;
    for (played, air) in networks.into_iter().zip(left.logs) {
        let PlayedNetwork {
            network,
            wire,
            given: _,
        } = played;
        logs.push(NetworkWithFrames { network, air, wire })?;
    }
    Ok(logs)
}

/// What an access point ends with of which this was kept: the sections, what left, and who gave each event.
pub(crate) fn finish<N: PlayName>(
    alloc: Global,
    sources: Sources<'_>,
    networks: Vec<PlayedNetwork>,
    left: Left,
) -> Result<Finished, NoMemory>
    requires sources { lists_of sources ≡ N.play.sources }
    requires keeps { N.play.keeps ≡ true }
    requires end { IsEnd N.play networks.items left.logs.items left.items.items }
    ensures { IfOk result (IsPlayOf N.play.config N.play.sources) }
{
    let mut sections = Vec::with_capacity(alloc, networks.len())?;
    let mut givers = Vec::with_capacity(alloc, networks.len())?;
    for place in 0..networks.len() {
        let played = &networks[place];
        let told = played.given.as_slice();
        let by = givers_of(alloc, told)?;
        let events = events_of(alloc, sources, told)?;
        counted(&played.network);
        let air = &left.logs[place];
        let section = section_of(alloc, played, air, events)?;
        givers.push(List::from_vec(by))?;
        sections.push(section)?;
    }
    Ok(Finished {
        sections: List::from_vec(sections),
        left: List::from_vec(left.items),
        givers: List::from_vec(givers),
    })
}

/// The number of the source that gave each event.
fn givers_of(alloc: Global, given: &[Given]) -> Result<Vec<usize>, NoMemory>
    ensures { IfOk result (λ givers. givers.items ≡ map (λ g. g.source) given.now) }
{
    let mut givers = Vec::with_capacity(alloc, given.len())?;
    for by in given {
        givers.push(by.source)?;
    }
    Ok(givers)
}

/// Copies of the events that were given, of the lines of these sources.
fn events_of(alloc: Global, sources: Sources<'_>, given: &[Given]) -> Result<Vec<Event>, NoMemory>
    ensures { IfOk result (λ events. events.items ≡ map (event_given (lists_of sources.entry)) given.now) }
{
    let mut events = Vec::with_capacity(alloc, given.len())?;
    for by in given {
        events.push(sources.line(by.source, by.line).event().copy(alloc)?)?;
    }
    Ok(events)
}

/// The section of a network that took these events, and whose frames stand in this log.
fn section_of(
    alloc: Global,
    played: &PlayedNetwork,
    air: &SentFrames,
    events: Vec<Event>,
) -> Result<Section, NoMemory>
    requires { IsCounted played.now.network }
    ensures { IfOk result (λ section. section ≡ section_told (log_with air.now played.now) events.items) }
{
    let config = config_of(alloc, &played.network.setting().network)?;
    let table = rows_of(alloc, &played.network)?;
    let counts = counts_of(&played.network);
    Ok(Section {
        config,
        events: List::from_vec(events),
        table: List::from_vec(table),
        counts,
        air: List::from_vec(frames_of(alloc, air)?),
        wire: List::from_vec(frames_of(alloc, &played.wire)?),
    })
}

/// A copy of a network's configuration.
fn config_of(alloc: Global, config: &NetConfig) -> Result<NetConfig, NoMemory>
    ensures { IfOk result (λ copy. copy ≡ config.now) }
{
    Ok(NetConfig {
        bssid: config.bssid,
        ssid: config.ssid.copy(alloc)?,
        rates: config.rates.copy(alloc)?,
        dtim: config.dtim,
        max_stations: config.max_stations,
        max_known: config.max_known,
        quota: config.quota,
        max_events: config.max_events,
        relay: config.relay,
        aging: config.aging,
    })
}

/// A network that took no more events than its history may have has counts of 32 bits.
fn counted(network: &Network)
    ensures { (s : Setting) (es : List Event) → network.now ≡ (after_events s es).network
        → length es ≤ s.network.max_events → IsCounted network.now }
{
    // a history is as long as 32 bits can count
    checked_numbers();
    // and counts no more than its events
    reachable();
    let _ = network.setting();
}

/// The counts of a network.
fn counts_of(network: &Network) -> Counts
    requires { IsCounted network.now }
    ensures { result ≡ counts_of network.now.events network.now.network }
{
    Counts {
        events: network.events() as u32,
        clock: network.clock(),
        unread: network.unread() as u32,
        lost: network.lost() as u32,
        kept: network.kept_len(),
    }
}

/// A row for each station of a network, in their order.
fn rows_of(alloc: Global, network: &Network) -> Result<Vec<StationRow>, NoMemory>
    ensures { IfOk result (λ rows. rows.items ≡ table_of network.now.network) }
{
    let mut rows = Vec::with_capacity(alloc, network.table_len())?;
    for place in 0..network.table_len() {
        rows.push(network.row(place))?;
    }
    Ok(rows)
}

/// Copies of frames.
fn frames_of(alloc: Global, log: &SentFrames) -> Result<Vec<Octets>, NoMemory>
    ensures { IfOk result (λ frames. frames.items ≡ log.now) }
{
    let (lengths, octets) = log.parts();
    let mut frames = Vec::with_capacity(alloc, lengths.len())?;
    let mut rest = octets;
    for len in lengths {
        let (frame, others) = rest.split_at(*len);
        frames.push(Octets::from_slice(alloc, frame)?)?;
        rest = others;
    }
    Ok(frames)
}
