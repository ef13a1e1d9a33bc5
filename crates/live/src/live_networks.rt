//! The networks of a configuration, which answer one line or record after another.

ghost use Rattle.std.specs.Prelude.{◌≡◌, ◌+◌, ◌<◌, ◌^◌, ◌∷◌, [], None, IfOk, option_map};
ghost use Rattle.std.specs.List.{AllByRecursion};
ghost use Rattle.ap_config.specs.Configuration.{fault_of};
ghost use Rattle.text_io.specs.Buffers.{CanWrite, Puts, watch};
ghost use Rattle.live_rules.specs.Asked.{Asked, asked_in};
ghost use Rattle.live_rules.specs.Moments.{bssids_at, first_moment};
ghost use Rattle.live.specs.Output.{AreAnswered, through};
ghost use Rattle.live.specs.PartialLine.{line_in};
ghost use Rattle.live.specs.Readings.{IsReading};
ghost use Rattle.live_rules.specs.Records.{IsRecord, records_ask};
ghost use Rattle.live.specs.Written.{written_tables};
ghost use Rattle.live.specs.declared.face.Face.TheVariants as faces;

use crate::face::Face;
use crate::output::{put_fault, put_tables};
use crate::reading::{Reading, read_line, read_record};
use crate::reply::reply_all;
use ap_config::RadioConfig;
use mac_frame::NoMemory;
use network::Network;
use networks::Networks;
use std::alloc::Global;
use std::marker::Model;
use text_io::{Buffered, Sink};
use trace::LineBuffer;

/// The networks of a configuration, between two lines. Contracts see the moment.
#[derive(Drop)]
pub struct LiveNetworks {
    networks: Networks<Network>,
    buffer: LineBuffer,
    lines: u64,
}

impl Model for LiveNetworks {
    ghost use Rattle.live_rules.specs.Moments.{Moment};
    ghost use Rattle.live.specs.LiveNetworks.{IsMoment};

    ghost Value = { Moment };

    ghost view = { λ n. record { lines = n.lines; networks = n.networks } };

    ghost invariant = { λ n. IsMoment (record { lines = n.lines; networks = n.networks }) };
}

impl LiveNetworks {
    /// The networks of a configuration without a fault, before the first line. `NoMemory` if memory ran out.
    pub fn new(alloc: Global, config: RadioConfig) -> Result<LiveNetworks, NoMemory>
        requires { fault_of config ≡ None }
        ensures { IfOk result (λ networks. networks ≡ first_moment config) }
    {
        Ok(LiveNetworks {
            networks: Networks::open(alloc, config)?,
            buffer: LineBuffer::new(alloc)?,
            lines: 0,
        })
    }

    /// How many lines have ended.
    pub fn lines(&self) -> u64
        ensures { result ≡ self.now.lines }
    {
        self.lines
    }

    /// Answers the next line, taken without what ends it; `None` if it is too long. Fewer than 2^62 lines ended
    /// before it.
    pub fn answer_line<W: Sink>(&mut self, line: Option<&[u8]>, out: &mut Buffered<'_, W>)
        requires countable { self.old.lines < 2 ^ 62 }
        requires can_write { CanWrite W.failed out.old }
        ensures { AreAnswered (through faces.Lines (watch W.taken W.failed) out.old out.new)
            self.old self.new (asked_in self.old (line_in (option_map (λ octets. octets.now) line.entry) ∷ [])) }
    {
        let reading = read_line(&mut self.buffer, self.networks.bssids(), line);
        answer_reading(
            Face::Lines,
            &mut self.networks,
            &mut self.lines,
            reading,
            out,
        );
    }

    /// Answers the next record. Fewer than 2^62 ended before it.
    pub fn answer_record<W: Sink>(&mut self, octets: &[u8], out: &mut Buffered<'_, W>)
        requires record { IsRecord octets.now }
        requires countable { self.old.lines < 2 ^ 62 }
        requires can_write { CanWrite W.failed out.old }
        ensures { AreAnswered (through faces.Records (watch W.taken W.failed) out.old out.new)
            self.old self.new (records_ask (bssids_at self.old) (octets.now ∷ [])) }
    {
        let reading = read_record(self.networks.bssids(), octets);
        self.answer(Face::Records, reading, out);
    }

    /// Answers what was read of the next line or record, in its face. Fewer than 2^62 ended before it.
    pub fn answer<W: Sink>(&mut self, face: Face, reading: Reading<'_>, out: &mut Buffered<'_, W>)
        requires countable { self.old.lines < 2 ^ 62 }
        requires can_write { CanWrite W.failed out.old }
        ensures { (said : Asked) → IsReading reading.entry said
            → AreAnswered (through face (watch W.taken W.failed) out.old out.new) self.old self.new (said ∷ []) }
    {
        answer_reading(face, &mut self.networks, &mut self.lines, reading, out);
    }

    /// Puts the table of each network, in order of place.
    pub fn put_tables<W: Sink>(&self, face: Face, out: &mut Buffered<'_, W>)
        requires { CanWrite W.failed out.old }
        ensures { Puts (watch W.taken W.failed) out.old out.new (written_tables face self.now.networks) }
    {
        put_tables(face, out, self.networks.networks());
    }
}

/// Answers what was read of the line or record after so many.
#[inline(always)]
fn answer_reading<W: Sink>(
    face: Face,
    networks: &mut Networks<Network>,
    lines: &mut u64,
    reading: Reading<'_>,
    out: &mut Buffered<'_, W>,
)
    requires countable { AllByRecursion (λ n. n.events < 2 ^ 62) networks.old }
    requires fits { lines.old < 2 ^ 62 }
    requires can_write { CanWrite W.failed out.old }
    ensures { (said : Asked) → IsReading reading.entry said
        → AreAnswered (through face (watch W.taken W.failed) out.old out.new)
        (record { lines = lines.old; networks = networks.old })
        (record { lines = lines.new; networks = networks.new })
        (said ∷ []) }
{
    *lines += 1;
    let number = *lines;
    match reading {
        Reading::Nothing => {}
        Reading::Line(line) => reply_all(face, networks, line, number, out),
        Reading::Tables => put_tables(face, out, networks.networks()),
        Reading::Fault(fault) => put_fault(face, out, fault, number),
    }
}
