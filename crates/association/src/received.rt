//! A frame as it was received, for each network that hears it (IEEE Std 802.11-2016, 9.3.3.10, 11.1.4.3): a broadcast
//! probe request is read once for all of them.

ghost use Rattle.std.specs.Prelude.{◌≡◌, ◌≢◌, List, ℕ, Option, Ok, Err, IfOk, IfSome, IsOkAnd, MatchResult};
ghost use Rattle.mac_frame.specs.Address.{broadcast};
ghost use Rattle.association.specs.Asked.{shown};
ghost use Rattle.mac_frame.specs.Rx.{shown as frame_shown};
ghost use Rattle.association.specs.Received.{IsReadOf, probe_shown};
ghost use Rattle.association.specs.Request.{Request as Asking, Probe, IsRequest, asked_by, request_in, request_of};

use crate::probe::read_probe;
use crate::request::{Request, one_request, read};
use mac_frame::{MacAddr, PROBE_REQUEST, Rx, Unread, addressed, decode_broadcast};
use std::marker::Model;

/// A probe request to all stations and for any network (9.3.3.10).
#[derive(Clone, Copy, Debug)]
struct BroadcastProbe<'a> {
    /// The station.
    from: MacAddr,
    /// The SSID that it names, if it names one (9.4.2.2).
    ssid: Option<&'a [u8]>,
}

/// A string of octets that was heard on the air, of which each network that hears it asks for its request. Contracts
/// see the octets.
#[derive(Debug, Drop)]
pub struct ReceivedFrame<'a> {
    octets: &'a [u8],
    probe: Option<BroadcastProbe<'a>>,
}

impl<'a> Model for ReceivedFrame<'a> {
    ghost use Rattle.std.specs.Prelude.{List, ℕ};
    ghost use Rattle.association.specs.Received.{IsReadOf};

    ghost Value = { List ℕ };

    ghost view = { λ f. f.octets.now };

    ghost invariant = { λ f. IsReadOf f.octets.now f.probe };
}

impl<'a> ReceivedFrame<'a> {
    /// For several networks: a broadcast probe request is read at once, and anything else by each of them. It takes no
    /// memory.
    pub fn for_all(octets: &'a [u8]) -> ReceivedFrame<'a>
        ensures { result ≡ octets.now }
    {
        ReceivedFrame {
            octets,
            probe: broadcast_probe(octets),
        }
    }

    /// For one network, which reads it. It takes no memory.
    #[inline]
    pub fn for_one(octets: &'a [u8]) -> ReceivedFrame<'a>
        ensures { result ≡ octets.now }
    {
        ReceivedFrame {
            octets,
            probe: None,
        }
    }

    /// The request that it is for the network `bss`, or its first fault, as [`read`] gives them (9.3). It takes no
    /// memory.
    #[inline]
    pub fn request_for(&self, bss: MacAddr) -> Result<Request<'a>, Unread>
        ensures request { IfOk result (λ request. IsRequest bss self.now (shown request)) }
        ensures only { (r : Asking) → IsRequest bss self.now r → IsOkAnd result (λ request. shown request ≡ r) }
        ensures fault { MatchResult result
            (λ request. request_of bss self.now ≡ Ok (shown request))
            (λ fault. request_of bss self.now ≡ Err fault) }
    {
        same_probe();
        one_request();
        match &self.probe {
            Some(probe) if probe.from != bss => Ok(Request::Probe {
                from: probe.from,
                ssid: probe.ssid,
            }),
            _ => read(bss, self.octets),
        }
    }
}

/// The broadcast probe request that a string of octets is, if it is one.
fn broadcast_probe(octets: &[u8]) -> Option<BroadcastProbe<'_>>
    ensures { IsReadOf octets.now result }
{
    one_request();
    if !addressed(octets)?.is_broadcast() {
        return None;
    }
    match decode_broadcast(octets) {
        Some(rx) => probe_in(rx),
        None => None,
    }
}

/// The probe request that a frame is, if it is one.
fn probe_in(rx: Rx<'_>) -> Option<BroadcastProbe<'_>>
    ensures { IfSome result (λ probe. request_in (frame_shown rx.entry) ≡ Ok (probe_shown probe)) }
{
    match rx {
        Rx::Mgmt {
            subtype,
            from,
            body,
            ..
        } => probe_with(subtype, from, body),
        _ => None,
    }
}

/// The same by its subtype, its station and its body.
fn probe_with(subtype: u8, from: MacAddr, body: &[u8]) -> Option<BroadcastProbe<'_>>
    ensures { IfSome result (λ probe. asked_by subtype from body.now ≡ Ok (probe_shown probe)) }
{
    if subtype != PROBE_REQUEST {
        return None;
    }
    let Ok(ssid) = read_probe(body) else {
        return None;
    };
    Some(BroadcastProbe { from, ssid })
}

/// A broadcast probe request is the same request for each network, but for one with the address of its sender (9.3.3.10,
/// 11.1.4.3).
pub fn same_probe()
    ensures { (bss x from : List ℕ) (ssid : Option (List ℕ)) → from ≢ bss
        → IsRequest broadcast x (Probe from ssid) → IsRequest bss x (Probe from ssid) }
{}
