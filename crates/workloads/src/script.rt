//! What happens in a workload, drawn act by act, as lines or records.

use crate::draw::Draw;
use crate::drawn_networks::{Network, Station, networks_of};
use crate::job::{Act, Job};
use crate::piece::{Out, Piece, Style};
use live::Face;
use mac_frame::NoMemory;
use std::alloc::Global;

/// How many octets the bodies of units are taken of.
const POOL: usize = 8192;

/// The most octets of a unit.
const LONG: usize = 1400;

/// Octets that stand in frames of each kind, put together so that a frame takes few of them.
#[derive(Drop)]
struct Common {
    authentication: Piece,
    authentication_end: Piece,
    association: Piece,
    deauthentication: Piece,
    deauthentication_end: Piece,
    active: Piece,
    dozing: Piece,
    data_of_active: Piece,
    data_of_dozing: Piece,
    probe: Piece,
    probe_end: Piece,
    sequence: Piece,
    fragment: Piece,
    everybody: Piece,
    host: Piece,
    host_with_type: Piece,
    sequence_and_type: Piece,
    odd: Piece,
    scanner: Piece,
    pool: Piece,
}

impl Common {
    /// These octets; those of bodies are drawn.
    fn new(alloc: Global, draw: &mut Draw) -> Result<Common, NoMemory> {
        let mut pool = Vec::with_capacity(alloc, POOL)?;
        for _ in 0..POOL {
            pool.push((draw.below(256) % 256) as u8)?;
        }
        let piece = |octets: &[u8]| Piece::new(alloc, octets);
        Ok(Common {
            authentication: piece(b"\xb0\0\x3a\x01")?,
            authentication_end: piece(b"\0\0\0\0\x01\0\0\0")?,
            association: piece(b"\0\0\x3a\x01")?,
            deauthentication: piece(b"\xc0\0\x3a\x01")?,
            deauthentication_end: piece(b"\0\0\x03\0")?,
            active: piece(b"\x48\x01\0\0")?,
            dozing: piece(b"\x48\x11\0\0")?,
            data_of_active: piece(b"\x08\x01\0\0")?,
            data_of_dozing: piece(b"\x08\x11\0\0")?,
            probe: piece(b"\x40\0\0\0")?,
            probe_end: piece(b"\0\0\x01\x04\x02\x04\x0b\x16\x32\x04\x0c\x12\x18\x24")?,
            sequence: piece(b"\x10\0")?,
            fragment: piece(b"\x10")?,
            everybody: piece(b"\xff\xff\xff\xff\xff\xff")?,
            host: piece(b"\x02\xbb\0\0\0\x01")?,
            host_with_type: piece(b"\x02\xbb\0\0\0\x01\x08\0")?,
            sequence_and_type: piece(b"\x10\0\xaa\xaa\x03\0\0\0\x08\0")?,
            odd: piece(b"\x88\x01\0\0")?,
            scanner: piece(b"\x02\xcc\0\0\0\x01")?,
            pool: piece(pool.as_slice())?,
        })
    }
}

/// A part of the pool: the body of a unit.
#[derive(Clone, Copy)]
struct Body {
    from: usize,
    len: usize,
}

/// What happens in the networks of some places, as lines or records that are put together a few at a time.
#[derive(Drop)]
pub(crate) struct Script<'a> {
    job: &'a Job,
    networks: Vec<Network>,
    common: Common,
    draw: Draw,
    out: Out,
    // how many stations joined
    joined: usize,
    // how many acts came since the last beacon interval
    passed: u32,
}

impl<'a> Script<'a> {
    /// What is drawn from a seed for some networks of a job.
    pub(crate) fn new(
        alloc: Global,
        job: &'a Job,
        (from, count): (u8, u8),
        face: Face,
        seed: u32,
    ) -> Result<Script<'a>, NoMemory> {
        let mut draw = Draw::new(seed);
        Ok(Script {
            job,
            networks: networks_of(alloc, job, from, count)?,
            common: Common::new(alloc, &mut draw)?,
            draw,
            out: Out::new(alloc, face),
            joined: 0,
            passed: 0,
        })
    }

    /// What was put together last.
    pub(crate) fn as_slice(&self) -> &[u8] {
        self.out.as_slice()
    }

    /// All acts, as many as are asked for, in one text.
    pub(crate) fn whole(mut self, acts: u32) -> Result<Vec<u8>, NoMemory> {
        for _ in 0..acts {
            self.add()?;
        }
        Ok(self.out.into_octets())
    }

    /// Puts the next acts together, at most as many as these.
    pub(crate) fn refill(&mut self, acts: u32) -> Result<(), NoMemory> {
        self.out.clear();
        for _ in 0..acts {
            self.add()?;
        }
        Ok(())
    }

    /// Adds one act: first each station joins, and then they are drawn.
    fn add(&mut self) -> Result<(), NoMemory> {
        let networks = self.networks.len().max(1);
        let station = self.joined / networks;
        if station < usize::from(self.job.stations) {
            let place = self.joined % networks;
            self.joined = self.joined.saturating_add(1);
            return self.join(place, station);
        }
        self.passed = self.passed.saturating_add(1);
        if self.job.interval > 0 && self.passed > self.job.interval {
            self.passed = 0;
            return self.out.put_tick();
        }
        if self.job.styled {
            self.out.set_style(match self.draw.below(10) {
                0 => Style::Upper,
                1 => Style::Spaced,
                _ => Style::Plain,
            });
        }
        let lot = self.draw.below(1000);
        match self.job.acts.iter().find(|entry| lot < entry.0) {
            Some((_, act)) => self.act(*act),
            None => Ok(()),
        }
    }

    /// Has a station join at first.
    fn join(&mut self, place: usize, number: usize) -> Result<(), NoMemory> {
        let Some(network) = self.networks.as_mut_slice().get_mut(place) else {
            return Ok(());
        };
        let Some(station) = network.stations.as_mut_slice().get_mut(number) else {
            return Ok(());
        };
        station.dozes = self.job.dozes;
        let Some(network) = self.networks.get(place) else {
            return Ok(());
        };
        let Some(station) = network.stations.get(number) else {
            return Ok(());
        };
        put_coming(&mut self.out, &self.common, network, station)?;
        if self.job.dozes {
            put_mode(&mut self.out, &self.common, network, station)?;
        }
        Ok(())
    }

    /// Adds an act of a drawn station.
    fn act(&mut self, act: Act) -> Result<(), NoMemory> {
        if let Act::Scan = act {
            let from = self.draw.below(POOL);
            return put_scan(&mut self.out, &self.common, from);
        }
        let place = self.draw.below(self.networks.len());
        let number = self.draw.below(usize::from(self.job.stations));
        let other = self.draw.below(usize::from(self.job.stations));
        let len = if self.draw.below(100) < self.job.long {
            LONG
        } else {
            self.draw.below(96).saturating_add(32)
        };
        let from = self.draw.below(POOL - LONG);
        if let Act::Nap = act {
            self.turn(place, number);
        }
        let Some(network) = self.networks.get(place) else {
            return Ok(());
        };
        let (Some(station), Some(other)) = (
            network.stations.get(number),
            network.stations.get(other),
        ) else {
            return Ok(());
        };
        let (out, common) = (&mut self.out, &self.common);
        put_act(
            out,
            common,
            act,
            network,
            (station, other),
            Body { from, len },
        )
    }

    /// Has a station change its mode.
    fn turn(&mut self, place: usize, number: usize) {
        if let Some(network) = self.networks.as_mut_slice().get_mut(place) {
            if let Some(station) = network.stations.as_mut_slice().get_mut(number) {
                station.dozes = !station.dozes;
            }
        }
    }
}

/// Puts what an act says.
fn put_act(
    out: &mut Out,
    common: &Common,
    act: Act,
    network: &Network,
    (station, other): (&Station, &Station),
    body: Body,
) -> Result<(), NoMemory> {
    match act {
        Act::Into => put_wired(out, common, network, &station.address, body),
        Act::IntoGroup => put_wired(out, common, network, &common.everybody, body),
        Act::Outward => put_data(out, common, (station, &common.host), body),
        Act::Across => put_data(out, common, (station, &other.address), body),
        Act::Group => put_data(out, common, (station, &common.everybody), body),
        Act::Poll => put_poll(out, station),
        Act::Nap => put_mode(out, common, network, station),
        Act::Roam => {
            put_leaving(out, common, network, station)?;
            put_coming(out, common, network, station)?;
            put_mode(out, common, network, station)
        }
        Act::Leave => put_leaving(out, common, network, station),
        Act::Come => put_coming(out, common, network, station),
        Act::Probe => put_probe(out, common, &station.address, body.from),
        Act::Scan => put_scan(out, common, body.from),
        Act::Odd => put_odd(out, common, network, station, body),
    }
}

/// Puts the three addresses of a frame of a station.
fn put_addresses(out: &mut Out, station: &Station, third: &Piece) -> Result<(), NoMemory> {
    out.put(&station.pair)?;
    out.put(third)
}

/// Puts a frame of the wire, to a destination.
fn put_wired(
    out: &mut Out,
    common: &Common,
    network: &Network,
    to: &Piece,
    body: Body,
) -> Result<(), NoMemory> {
    out.begin_wire(&network.bssid, network.spelled.as_str())?;
    out.put(to)?;
    out.put(&common.host_with_type)?;
    out.put_part(&common.pool, body.from, body.len)?;
    out.end()
}

/// Puts a Data frame of a station, to a destination.
fn put_data(
    out: &mut Out,
    common: &Common,
    (station, to): (&Station, &Piece),
    body: Body,
) -> Result<(), NoMemory> {
    out.begin_air()?;
    out.put(if station.dozes {
        &common.data_of_dozing
    } else {
        &common.data_of_active
    })?;
    put_addresses(out, station, to)?;
    out.put(&common.sequence_and_type)?;
    out.put_part(&common.pool, body.from, body.len)?;
    out.end()
}

/// Puts a poll.
fn put_poll(out: &mut Out, station: &Station) -> Result<(), NoMemory> {
    out.begin_air()?;
    out.put(&station.poll)?;
    out.end()
}

/// Puts a Null with the mode of a station.
fn put_mode(
    out: &mut Out,
    common: &Common,
    network: &Network,
    station: &Station,
) -> Result<(), NoMemory> {
    out.begin_air()?;
    out.put(if station.dozes {
        &common.dozing
    } else {
        &common.active
    })?;
    put_addresses(out, station, &network.bssid)?;
    out.put(&common.sequence)?;
    out.end()
}

/// Puts an authentication and an association request.
fn put_coming(
    out: &mut Out,
    common: &Common,
    network: &Network,
    station: &Station,
) -> Result<(), NoMemory> {
    out.begin_air()?;
    out.put(&common.authentication)?;
    put_addresses(out, station, &network.bssid)?;
    out.put(&common.authentication_end)?;
    out.end()?;
    out.begin_air()?;
    out.put(&common.association)?;
    put_addresses(out, station, &network.bssid)?;
    out.put(&common.sequence)?;
    out.put(&network.asks)?;
    out.end()
}

/// Puts a deauthentication.
fn put_leaving(
    out: &mut Out,
    common: &Common,
    network: &Network,
    station: &Station,
) -> Result<(), NoMemory> {
    out.begin_air()?;
    out.put(&common.deauthentication)?;
    put_addresses(out, station, &network.bssid)?;
    out.put(&common.deauthentication_end)?;
    out.end()
}

/// Puts a probe request for any network, whose sequence number is drawn.
fn put_probe(out: &mut Out, common: &Common, address: &Piece, from: usize) -> Result<(), NoMemory> {
    out.begin_air()?;
    out.put(&common.probe)?;
    out.put(&common.everybody)?;
    out.put(address)?;
    out.put(&common.everybody)?;
    out.put(&common.fragment)?;
    out.put_part(&common.pool, from.min(POOL - 1), 1)?;
    out.put(&common.probe_end)?;
    out.end()
}

/// Puts a probe request of the station that is in no network.
fn put_scan(out: &mut Out, common: &Common, from: usize) -> Result<(), NoMemory> {
    put_probe(out, common, &common.scanner, from)
}

/// Puts a comment, and a QoS Data frame, which no network reads, or one that is cut.
fn put_odd(
    out: &mut Out,
    common: &Common,
    network: &Network,
    station: &Station,
    body: Body,
) -> Result<(), NoMemory> {
    out.put_text(b"# what follows is not read\n\n")?;
    out.begin_air()?;
    if body.from % 2 == 0 {
        out.put(&common.odd)?;
        put_addresses(out, station, &common.host)?;
        out.put_part(&common.pool, body.from, 64)?;
    } else {
        out.put(&common.data_of_active)?;
        out.put(&network.bssid)?;
    }
    out.end()
}
