//! Lines that come in pieces, and their answers.

ghost use Rattle.std.specs.Prelude.{◌≡◌, ◌<◌, ◌^◌, ◌∷◌, []};
ghost use Rattle.text_io.specs.Buffers.{CanWrite, watch};
ghost use Rattle.text_io.specs.Texts.{LacksLineFeed};
ghost use Rattle.live_rules.specs.Asked.{asked_in};
ghost use Rattle.live.specs.Output.{AnswersLines, AreAnswered, LinesRemain, through};
ghost use Rattle.live.specs.PartialLine.{IsUnended, ended_with};
ghost use Rattle.live_rules.specs.TextLines.{Octets, last_line};
ghost use Rattle.live.specs.declared.face.Face.TheVariants as faces;

use crate::live_networks::LiveNetworks;
use crate::partial::{PartialLine, ended_line};
use live_rules::answers_to_more;
use std::convert::Infallible;
use text_io::{Buffered, Sink};
use trace::TakeText;

impl<W: Sink> TakeText<LiveNetworks, Buffered<'_, W>> for PartialLine {
    type Fault = Infallible;

    ghost remains = { λ first was held piece partial networks out rest.
        LinesRemain W.taken W.failed was networks held out first partial piece rest };

    ghost ends = { λ first was held piece _ partial networks out.
        AnswersLines W.taken W.failed was networks held out first partial piece };

    #[inline(always)]
    fn end_line(
        &mut self,
        octets: &[u8],
        networks: &mut LiveNetworks,
        out: &mut Buffered<'_, W>,
    ) -> Result<(), Infallible> {
        answers_to_more();
        answer_ended(networks, self, octets, out);
        Ok(())
    }

    #[inline(always)]
    fn hold_on(&mut self, octets: &[u8]) -> Result<(), Infallible> {
        self.add(octets);
        Ok(())
    }
}

/// Answers the line that these octets and an LF end; if nothing came of it before them, without a copy.
fn answer_ended<W: Sink>(
    networks: &mut LiveNetworks,
    partial: &mut PartialLine,
    octets: &[u8],
    out: &mut Buffered<'_, W>,
)
    requires lacks { LacksLineFeed octets.now }
    requires countable { networks.old.lines < 2 ^ 62 }
    requires can_write { CanWrite W.failed out.old }
    ensures answered { AreAnswered (through faces.Lines (watch W.taken W.failed) out.old out.new)
        networks.old networks.new (asked_in networks.old (ended_with partial.old octets.now ∷ [])) }
    ensures unended { IsUnended partial.old }
    ensures partial { partial.new ≡ Octets [] }
{
    if partial.is_empty() {
        networks.answer_line(ended_line(octets), out);
        return;
    }
    partial.add(octets);
    networks.answer_line(partial.ended(), out);
    partial.begin();
}

/// Answers a partial line as the last one, unless it is empty.
pub fn answer_last_line<W: Sink>(
    networks: &mut LiveNetworks,
    partial: &PartialLine,
    out: &mut Buffered<'_, W>,
)
    requires countable { networks.old.lines < 2 ^ 62 }
    requires can_write { CanWrite W.failed out.old }
    ensures { AreAnswered (through faces.Lines (watch W.taken W.failed) out.old out.new)
        networks.old networks.new (asked_in networks.old (last_line partial.now)) }
{
    if partial.is_empty() {
        return;
    }
    networks.answer_line(partial.whole(), out);
}
