//! Probe requests and their answers (IEEE Std 802.11-2016, 11.1.4.3).

ghost use Rattle.std.specs.Prelude.{◌≡◌, ◌<◌, OnOk, option_map};
ghost use Rattle.network.specs.Network.{asks_for, answer_probe};
ghost use Rattle.network.specs.Replies.{no_reply, after_reply, IsFitting};

use crate::network::Network;
use crate::reply::Reply;
use crate::shown::announcement;
use beacon::write_response_with;
use mac_frame::{MacAddr, NoMemory};

impl Network {
    /// The reply to a probe: a probe response, if the probe asks for this network.
    pub(crate) fn answer_probe(
        &self,
        reply: &mut Reply,
        from: MacAddr,
        ssid: Option<&[u8]>,
    ) -> Result<(), NoMemory>
        requires nothing { reply.old ≡ no_reply self.now.network.sequence }
        requires sequence { reply.old.sequence < 4096 }
        ensures fitting { OnOk result (IsFitting self.now.setting reply.new self.now.network) }
        ensures answer { OnOk result (
            answer_probe self.now.setting from (option_map (λ s. s.now) ssid.entry) self.now.network
            ≡ after_reply reply.new self.now.network) }
    {
        let setting = self.setting();
        if !asks_for(setting.network.ssid.as_slice(), ssid) {
            return Ok(());
        }
        let mut frame = reply.spare.blank(self.alloc());
        let advert = announcement(setting, self.clock(), reply.sequence);
        write_response_with(&mut frame, &advert, self.response_elements(), from)?;
        reply.send(frame)
    }
}

/// Whether a probe asks for the network with the SSID `own`: it names an SSID, the wildcard one of no octets or
/// this (11.1.4.3.4).
fn asks_for(own: &[u8], ssid: Option<&[u8]>) -> bool
    ensures { result ≡ asks_for own.now (option_map (λ s. s.now) ssid.entry) }
{
    match ssid {
        None => false,
        Some([]) => true,
        Some(name) => name == own,
    }
}
