//! The networks of a configuration, line by line.

ghost use Rattle.std.specs.Prelude.{◌≡◌, None, Some, IfOk, OnOk, OnErr, IsSomeAnd};
ghost use Rattle.ap_config.specs.Configuration.{fault_of};
ghost use Rattle.bss_core.specs.RadioView.{fresh_radio};
ghost use Rattle.events.specs.LentEvents.{line_of};
ghost use Rattle.replay.specs.Replay.{HasTaken, TakesLine, sections_at};

use crate::model::drained_radio::DrainedRadio;
use ap_config::RadioConfig;
use events::{LentLine, Section};
use mac_frame::NoMemory;
use std::alloc::Global;
use std::marker::Model;
use trace::TakeLines;

/// The networks of a configuration, which take one line after another. Between two lines no frame waits: of each
/// network all that it sent has left.
///
/// Contracts see the radio; or none, once memory ran out while a line was taken, after which each call answers
/// `NoMemory`.
#[derive(Drop)]
pub struct Replay {
    radio: Option<DrainedRadio>,
}

impl Model for Replay {
    ghost use Rattle.std.specs.Prelude.{Option, IfSome};
    ghost use Rattle.std.specs.Option.{option_map};
    ghost use Rattle.bss_core.specs.RadioView.{RadioView};
    ghost use Rattle.replay.specs.Replay.{IsDrained};

    ghost Value = { Option RadioView };

    ghost view = { λ r. option_map (λ drained. drained.radio) r.radio };

    ghost invariant = { λ r. IfSome r.radio (λ drained. IsDrained drained.radio drained.sent) };
}

impl TakeLines for Replay {
    ghost has_taken = { λ c said replay. IsSomeAnd replay (HasTaken c said) };

    fn take_line(&mut self, line: LentLine<'_>) -> Result<(), NoMemory> {
        self.take(line)
    }
}

impl Replay {
    /// The networks of a configuration without a fault, none of which took an event. `NoMemory` if memory
    /// ran out.
    pub fn new(alloc: Global, config: RadioConfig) -> Result<Replay, NoMemory>
        requires { fault_of config ≡ None }
        ensures { IfOk result (λ replay. replay ≡ Some (fresh_radio config)) }
    {
        let radio = DrainedRadio::new(alloc, config)?;
        Ok(Replay { radio: Some(radio) })
    }

    /// Lets each network take what it hears of a line, in order of place, and their frames leave. A network whose
    /// history is full takes no more. `NoMemory` if memory ran out, now or for an earlier line; what the networks
    /// took is given up then.
    pub fn take(&mut self, line: LentLine<'_>) -> Result<(), NoMemory>
        ensures taken { OnOk result (IsSomeAnd self.old (λ old. IsSomeAnd self.new (λ new. TakesLine (line_of line.entry) old new))) }
        ensures err { OnErr result (self.new ≡ None) }
    {
        let taken = match &mut self.radio {
            Some(radio) => radio.take_line(line),
            None => Err(NoMemory),
        };
        if taken.is_err() {
            self.radio = None;
        }
        taken
    }

    /// The section of each network, in order of place, with what it took and the frames that left. `NoMemory` if
    /// memory ran out, now or for a line.
    pub fn into_sections(self) -> Result<Vec<Section>, NoMemory>
        ensures { IfOk result (λ sections. IsSomeAnd self (λ radio. sections.items ≡ sections_at radio)) }
    {
        let radio = self.radio.ok_or(NoMemory)?;
        radio.into_sections()
    }
}
