//! What follows from the definitions, for whoever stands on them.

ghost use Rattle.std.specs.Prelude.{◌≡◌, ◌++◌, List, Result};
ghost use Rattle.live_rules.specs.Answers.{Answer, Answers, Begins, in_two};
ghost use Rattle.live_rules.specs.Asked.{Asked};
ghost use Rattle.live_rules.specs.Moments.{Moment};
ghost use Rattle.live.specs.BeforeReads.{FailsAtRead, HasAnswered, RunStreams};
ghost use Rattle.live.specs.Run.{Setup};
ghost use Rattle.live.specs.Written.{written_after};
ghost use Rattle.live.specs.declared.face.Face.{Face};
ghost use Rattle.live.specs.declared.fault.LiveFault.{LiveFault};

use live_rules::answers_to_more;

/// The answers to more that is said begin with the answers to the first of it. So what holds of all answers holds after
/// each line and each record. The same is true of what is written of them, in either face.
pub fn more_lines()
    ensures begin { (m : Moment) (said more : List Asked) (answers : List Answer) (next : Moment)
        → Answers m (said ++ more) answers next → Begins m (in_two said more) answers next }
    ensures join { (m : Moment) (said more : List Asked) (answers : List Answer) (next : Moment)
        → Begins m (in_two said more) answers next → Answers m (said ++ more) answers next }
    ensures written { (face : Face) (m between : Moment) (said : List Asked) (some others : List Answer)
        → Answers m said some between
        → written_after face m (some ++ others) ≡ written_after face m some ++ written_after face between others }
{
    answers_to_more();
}

/// Whatever runs an access point by the clauses of [`LiveIn::run`](crate::LiveIn::run) holds no answer back. When it
/// asks the source for more, the sink has taken the number of networks and the answers to all that ended in what was
/// read before.
///
/// For that read may fail, and so may each write after it. A run that met a failed read answers `Read`: all that ended
/// is answered then, and no write failed. Had an answer not been there, it could neither be left out nor be written,
/// and no result would be left.
pub fn answers_come_before_reads()
    ensures { (setup : Setup) (result : Result Unit LiveFault) (run : RunStreams)
        → FailsAtRead setup result run → HasAnswered setup run.old run.asked }
{}
