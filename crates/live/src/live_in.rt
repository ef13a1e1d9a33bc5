//! The access point as it runs, in either face.

ghost use Rattle.std.specs.Prelude.{◌≡◌, ◌<◌, ◌≤◌, ◌+◌, ◌^◌, None, IfOk, length};
ghost use Rattle.ap_config.specs.Configuration.{fault_of};
ghost use Rattle.text_io.specs.Endings.{failures_of};
ghost use Rattle.text_io.specs.Sinks.{MayFail, write_ending};
ghost use Rattle.live.specs.Inputs.{empty_partial, face_of};
ghost use Rattle.live.specs.LiveView.{Finishes, Takes, reached, running};
ghost use Rattle.live_rules.specs.Moments.{first_moment};

use crate::face::{InFace, InLines, InRecords};
use crate::live_networks::LiveNetworks;
use crate::partial_input::PartialInput;
use ap_config::RadioConfig;
use mac_frame::NoMemory;
use std::alloc::Global;
use std::marker::{Model, PhantomData};
use text_io::{Buffered, Failed, Sink};

/// How many octets of answers are collected before they go to the sink, so that a device is not asked for each answer.
const HELD: usize = 65_536;

/// The access point as it runs, in a face: lines or records come in pieces, which may be cut anywhere, and each is
/// answered by the call that it ends in. No history is kept.
///
/// Contracts see the moment after the lines or records that have ended, and the partial one after them.
#[derive(Drop)]
pub struct LiveIn<F: InFace> {
    networks: LiveNetworks,
    partial: PartialInput,
    held: Vec<u8>,
    of: PhantomData<F>,
}

/// The access point as it runs, in the face of lines.
pub type Live = LiveIn<InLines>;

/// The access point as it runs, in the face of records: answers are records too.
pub type LiveRecords = LiveIn<InRecords>;

impl<F: InFace> Model for LiveIn<F> {
    ghost use Rattle.live.specs.Inputs.{IsPartialIn};
    ghost use Rattle.live.specs.LiveView.{Reached, reached};

    ghost Value = { Reached };

    ghost view = { λ l. reached l.networks l.partial };

    ghost invariant = { λ l. IsPartialIn F.face l.partial };
}

impl<F: InFace> LiveIn<F> {
    /// The access point of a configuration without a fault, before anything came, with all the memory that lines or
    /// records and answers wait in. `NoMemory` if memory ran out.
    pub fn new(alloc: Global, config: RadioConfig) -> Result<LiveIn<F>, NoMemory>
        requires { fault_of config ≡ None }
        ensures { IfOk result (λ live. live ≡ reached (first_moment config) (empty_partial F.face)) }
    {
        let networks = LiveNetworks::new(alloc, config)?;
        let partial = PartialInput::new(alloc, F::face())?;
        Ok(LiveIn {
            networks,
            partial,
            held: vec![in alloc; 0; HELD]?,
            of: PhantomData,
        })
    }

    /// How many lines or records have ended. Lines that are skipped, and what has a fault, count too.
    pub fn ended(&self) -> u64
        ensures { result ≡ self.now.moment.lines }
    {
        self.networks.lines()
    }

    /// Takes the next piece of the input and writes the answers to all lines or records that end in it. The first of
    /// these may have begun before it. The piece has to be so short that fewer than 2^62 lines or records can have
    /// ended. Nothing is held back for a later call. It takes memory for what the networks keep; if memory ran out, the
    /// answer says so, of each network that refused its event. `Failed` comes exactly if a write of the sink failed,
    /// which has then taken a prefix of the answers; the networks hear all of the piece even so.
    pub fn feed<W: Sink>(&mut self, piece: &[u8], out: &mut W) -> Result<(), Failed>
        requires countable { self.old.moment.lines + length piece.now < 2 ^ 62 }
        requires few { MayFail (W.failed out.old) }
        ensures takes { Takes result piece.now (running self.old (W.taken out.old))
            (running self.new (W.taken out.new)) }
        ensures face { face_of self.old.partial ≡ F.face }
        ensures lines { self.new.moment.lines ≤ self.old.moment.lines + length piece.now }
        ensures failures { W.failed out.new ≡ W.failed out.old + failures_of write_ending result }
    {
        let mut buffered = Buffered::new(out, self.held.as_mut_slice());
        self.partial
            .answer_piece(&mut self.networks, piece, &mut buffered);
        buffered.flush()
    }

    /// Ends the input, if fewer than 2^62 lines or records ended. It writes the answer to a partial line, of which
    /// no CR is dropped. Of a partial record it takes nothing, and writes its fault. Then it writes the table of each
    /// network in order of place. `Failed` comes exactly if a write of the sink failed, which has then
    /// taken a prefix of them.
    pub fn end<W: Sink>(mut self, out: &mut W) -> Result<(), Failed>
        requires countable { self.moment.lines < 2 ^ 62 }
        requires few { MayFail (W.failed out.old) }
        ensures finishes { Finishes result (running self (W.taken out.old)) (W.taken out.new) }
        ensures face { face_of self.partial ≡ F.face }
        ensures failures { W.failed out.new ≡ W.failed out.old + failures_of write_ending result }
    {
        let mut buffered = Buffered::new(out, self.held.as_mut_slice());
        self.partial.answer_last(&mut self.networks, &mut buffered);
        self.networks.put_tables(F::face(), &mut buffered);
        buffered.flush()
    }
}
