//! What a network made of an event.

ghost use Rattle.std.specs.Prelude.{◌≡◌};

use network::Refusal;

/// What a network made of an event that a caller gave (*profile*).
#[derive(Clone, Copy, Debug, PartialEq, Eq)]
pub enum Outcome {
    /// Nothing: there is no network at this place, or it does not hear the event.
    NotHeard,
    /// It took the event, which has this number in its history, from 0.
    Took(u32),
    /// It refused the event: it has taken as many as it may.
    Full,
    /// It refused the event, since memory ran out.
    NoMemory,
}

impl From<Result<u32, Refusal>> for Outcome {
    ghost use Rattle.std.specs.Prelude.{◌≡◌};
    ghost use Rattle.workers.specs.Outcomes.{outcome_of};

    ghost from_gives = { λ answer outcome. outcome ≡ outcome_of answer };

    fn from(answer: Result<u32, Refusal>) -> Outcome {
        match answer {
            Ok(number) => Outcome::Took(number),
            Err(Refusal::HistoryFull) => Outcome::Full,
            Err(Refusal::NoMemory) => Outcome::NoMemory,
        }
    }
}
