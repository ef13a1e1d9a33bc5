//! What the networks reply to a line, written at once.

ghost use Rattle.std.specs.Prelude.{◌<◌, ◌^◌, false};
ghost use Rattle.std.specs.List.{AllByRecursion};
ghost use Rattle.text_io.specs.Buffers.{CanWrite, watch};
ghost use Rattle.events.specs.LentEvents.{line_of};
ghost use Rattle.networks.specs.Takes.{change};
ghost use Rattle.live.specs.Output.{HasReplied, HaveReplied, through};

use crate::face::Face;
use crate::output::{put_refusal, put_sent};
use events::LentLine;
use mac_frame::NoMemory;
use network::{Network, ReceivedEvent, Spare};
use networks::{Deliver, Networks};
use text_io::{Buffered, Sink};

/// Puts what each network replies to the line or record of a number. A network that refuses it doesn't keep the next
/// from it.
#[derive(Clone, Copy, Debug)]
struct Replying {
    face: Face,
    number: u64,
}

impl<W: Sink> Deliver<Network, Buffered<'_, W>> for Replying {
    ghost may_take = { λ n. n.events < 2 ^ 62 };

    ghost is_ready = { λ out. CanWrite W.failed out };

    ghost may_stop = { false };

    ghost delivers = { λ how e n out.
        HasReplied (through how.face (watch W.taken W.failed) out.old out.new) how.number e n };

    #[inline(always)]
    fn deliver(
        &self,
        network: &mut Network,
        event: &ReceivedEvent<'_>,
        spare: &mut Spare,
        out: &mut Buffered<'_, W>,
    ) -> Result<(), NoMemory> {
        let bssid = network.setting().network.bssid;
        match network.take_received(event, spare) {
            Ok(sent) => {
                put_sent(self.face, out, bssid, &sent);
                spare.keep(sent);
            }
            Err(why) => put_refusal(self.face, out, why, bssid, self.number),
        }
        Ok(())
    }
}

/// Has each network, in order of place, take the line of a number if it is an event to it, and puts its reply before
/// the next is asked. Each took fewer than 2^62 events before.
pub fn reply_all<W: Sink>(
    face: Face,
    networks: &mut Networks<Network>,
    line: LentLine<'_>,
    number: u64,
    out: &mut Buffered<'_, W>,
)
    requires countable { AllByRecursion (λ n. n.events < 2 ^ 62) networks.old }
    requires can_write { CanWrite W.failed out.old }
    ensures { HaveReplied (through face (watch W.taken W.failed) out.old out.new) number (line_of line.entry)
        (change networks.old networks.new) }
{
    match networks.take(&Replying { face, number }, line, out) {
        Ok(()) => {}
        Err(NoMemory) => {}
    }
}
