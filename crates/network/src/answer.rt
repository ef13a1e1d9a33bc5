//! The answers of a network: what it does about an event, one file for each kind of event or request.

ghost use Rattle.std.specs.Prelude.{◌≡◌, ◌<◌, OnOk, IfSome};
ghost use Rattle.association.specs.Request.{request_of};
ghost use Rattle.network.specs.Network.{answer};
ghost use Rattle.network.specs.Replies.{no_reply, serves, outcome, reply_of, unit_taken, after_answer, IsFitting};

mod authentication;
mod data;
mod delivery;
mod joining;
mod leaving;
mod poll;
mod probing;
mod tick;
mod wired;

use crate::network::Network;
use crate::reply::Reply;
use association::{ReceivedFrame, Request, class, sender};
use mac_frame::NoMemory;
use station_state::fault;
use stations::standing_with;

impl Network {
    /// Fills in what it does about a string of octets that was heard on the air.
    pub(crate) fn answer(
        &self,
        reply: &mut Reply,
        frame: &ReceivedFrame<'_>,
    ) -> Result<(), NoMemory>
        requires nothing { reply.old ≡ no_reply self.now.network.sequence }
        requires sequence { reply.old.sequence < 4096 }
        ensures fitting { OnOk result (IsFitting self.now.setting
            (reply_of self.now.setting (outcome reply.new) self.now.network)
            (unit_taken (outcome reply.new) self.now.network)) }
        ensures answer { OnOk result (
            answer self.now.setting (request_of self.now.setting.network.bssid frame.now) self.now.network
            ≡ after_answer self.now.setting (outcome reply.new) self.now.network) }
        ensures alone { OnOk result (
            IfSome reply.new.served (λ from. reply.new ≡ serves from self.now.network.sequence)) }
    {
        let Ok(request) = frame.request_for(self.setting().network.bssid) else {
            reply.unread = 1;
            return Ok(());
        };
        let from = sender(&request);
        let state = self.stations().state_of(from);
        if let Some(notice) = fault(standing_with(state), class(&request)) {
            return self.notify(reply, from, notice);
        }
        match request {
            Request::Probe { from, ssid } => self.answer_probe(reply, from, ssid)?,
            Request::Auth {
                from,
                algorithm,
                step,
            } => self.answer_authentication(reply, from, state, algorithm, step)?,
            Request::Assoc {
                from,
                again,
                listen,
                elements,
            } => self.answer_association(reply, from, state, again, listen, &elements)?,
            Request::Disassoc { from } => self.answer_disassociation(reply, from),
            Request::Deauth { from } => self.answer_deauthentication(reply, from),
            Request::Msdu {
                from,
                doze,
                to,
                body,
            } => self.answer_unit(reply, from, state, doze, to, body)?,
            Request::Null { from, doze } => self.set_power_mode(reply, from, state, doze)?,
            Request::Poll { from, aid } => self.answer_poll(reply, from, state, aid),
        }
        Ok(())
    }

    /// A reply that does nothing yet, for an answer to begin with.
    pub(crate) fn no_reply(&self) -> Reply
        ensures nothing { result ≡ no_reply self.now.network.sequence }
        ensures sequence { result.sequence < 4096 }
    {
        Reply::new(self.alloc(), self.sequence())
    }
}
