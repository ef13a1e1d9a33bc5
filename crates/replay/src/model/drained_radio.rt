//! A radio whose frames all leave before the next line.

ghost use Rattle.std.specs.Prelude.{◌≡◌, ◌<◌, [], None, IfOk, OnOk, length, option_map};
ghost use Rattle.ap_config.specs.Configuration.{fault_of};
ghost use Rattle.bss_core.specs.RadioView.{fresh_radio, view_at};
ghost use Rattle.events.specs.LentEvents.{event_of, line_of};
ghost use Rattle.replay.specs.Frames.{sends_more};
ghost use Rattle.replay.specs.Replay.{IsDrained, TakesAt, TakesOf, TakesLine, sections_at, event_at};
ghost use Rattle.replay.specs.Replay.{SendsFirst, emptied};

use crate::model::frames_left::FramesLeft;
use ap_config::RadioConfig;
use bss_core::Radio;
use events::{Event, Handed, LentEvent, LentLine, Section};
use mac_frame::{List, NoMemory};
use network::{Refusal, sent_frames};
use std::alloc::Global;

/// A radio, and the frames that left it. It is drained: nothing waits and nothing is queued, but while it takes a line.
#[derive(Drop)]
pub struct DrainedRadio {
    alloc: Global,
    radio: Radio,
    sent: FramesLeft,
}

impl DrainedRadio {
    /// The radio of a configuration without a fault, of which no network took an event. `NoMemory` if memory ran
    /// out.
    pub fn new(alloc: Global, config: RadioConfig) -> Result<DrainedRadio, NoMemory>
        requires { fault_of config ≡ None }
        ensures { IfOk result (λ drained. (drained.radio ≡ fresh_radio config) × IsDrained drained.radio drained.sent) }
    {
        let radio = Radio::of_checked(alloc, config)?;
        let sent = FramesLeft::new(alloc, radio.networks())?;
        Ok(DrainedRadio { alloc, radio, sent })
    }

    /// Takes a line in each network that hears it, in order of place, and lets their frames leave. Its octets are
    /// copied for each of them.
    pub fn take_line(&mut self, line: LentLine<'_>) -> Result<(), NoMemory>
        requires { IsDrained self.old.radio self.old.sent }
        ensures { OnOk result (IsDrained self.new.radio self.new.sent
            × TakesLine (line_of line.entry) self.old.radio self.new.radio) }
    {
        for place in 0..self.radio.networks() {
            self.take_copy(place, line)?;
        }
        Ok(())
    }

    /// Takes a copy of a line in the network at a place, if that network hears it, and lets its frames leave.
    fn take_copy(&mut self, place: usize, line: LentLine<'_>) -> Result<(), NoMemory>
        requires there { place < length self.old.radio.config.networks }
        requires drained { IsDrained self.old.radio self.old.sent }
        ensures { OnOk result (IsDrained self.new.radio self.new.sent
            × TakesOf place (line_of line.entry) self.old.radio self.new.radio) }
    {
        let Some(event) = self.event_at(place, line) else {
            return Ok(());
        };
        let copy = event.copy(self.alloc)?;
        self.take_event(place, copy)
    }

    /// The event that a line is to the network at a place, if it is one to it.
    fn event_at<'a>(&self, place: usize, line: LentLine<'a>) -> Option<LentEvent<'a>>
        requires { place < length self.now.radio.config.networks }
        ensures { option_map event_of result ≡ event_at self.now.radio place (line_of line.entry) }
    {
        line.event_for(place, self.radio.bss(place).config().bssid)
    }

    /// Lets the network at a place take an event, and its frames leave. A full history takes no more.
    fn take_event(&mut self, place: usize, event: Event) -> Result<(), NoMemory>
        requires there { place < length self.old.radio.config.networks }
        requires drained { IsDrained self.old.radio self.old.sent }
        ensures { OnOk result (IsDrained self.new.radio self.new.sent
            × TakesAt place event self.old.radio self.new.radio) }
    {
        sent_frames();
        match self.radio.take(place, event) {
            Ok(_) => self.drain(place),
            Err(Refusal::HistoryFull) => Ok(()),
            Err(Refusal::NoMemory) => Err(NoMemory),
        }
    }

    /// Hands the frames that wait at a place to the air queue, one at a time, and lets each leave.
    fn drain(&mut self, place: usize) -> Result<(), NoMemory>
        requires sound { fault_of self.old.radio.config ≡ None }
        requires there { place < length self.old.radio.config.networks }
        requires whole { length self.old.sent ≡ length self.old.radio.config.networks }
        requires queue { self.old.radio.queue ≡ [] }
        ensures radio { OnOk result (self.new.radio ≡ emptied place self.old.radio) }
        ensures sent { OnOk result (self.new.sent
            ≡ sends_more self.old.sent place (view_at self.old.radio place).waiting) }
    {
        while self.send_first(place)? {}
        Ok(())
    }

    /// Lets the first frame that waits at a place leave through the air queue, which is empty. Answers whether there
    /// was one.
    fn send_first(&mut self, place: usize) -> Result<bool, NoMemory>
        requires sound { fault_of self.old.radio.config ≡ None }
        requires there { place < length self.old.radio.config.networks }
        requires whole { length self.old.sent ≡ length self.old.radio.config.networks }
        requires queue { self.old.radio.queue ≡ [] }
        ensures { IfOk result (λ sent. SendsFirst sent place self.old self.new) }
    {
        if self.radio.hand(place) != Handed::Moved {
            return Ok(false);
        }
        if let Some(item) = self.radio.leave() {
            self.sent.push(item)?;
        }
        Ok(true)
    }

    /// The section of each network, in order of place, with the frames that left.
    pub fn into_sections(self) -> Result<Vec<Section>, NoMemory>
        requires { IsDrained self.radio self.sent }
        ensures { IfOk result (λ sections. sections.items ≡ sections_at self.radio) }
    {
        let (networks, _) = self.radio.into_parts();
        let mut sections = Vec::new(self.alloc);
        for (network, air) in networks.into_vec().into_iter().zip(self.sent.into_vec()) {
            sections.push(network.into_section(List::from_vec(air))?)?;
        }
        Ok(sections)
    }
}
