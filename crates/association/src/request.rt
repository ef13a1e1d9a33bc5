//! The one request of a string of octets (IEEE Std 802.11-2016, 9.3): its type, and which one is read by the kind of
//! the frame. What the body of each kind says is read beside what is written of it.

ghost use Rattle.std.specs.Prelude.{◌≡◌, ◌<◌, List, ℕ, slice_index, Ok, Err, IfOk, IsOkAnd, MatchResult};
ghost use Rattle.mac_frame.specs.Hearing.{Hears};
ghost use Rattle.mac_frame.specs.Rx.{shown as frame_shown};
ghost use Rattle.association.specs.Asked.{shown, class_of};
ghost use Rattle.association.specs.Request.{Request as Asking, IsRequest, sender, asked_by, request_in, request_of};

use crate::authentication::read_auth;
use crate::joining::read_assoc;
use crate::leaving::read_reason;
use crate::probe::read_probe;
use elements::{Elements, one_list};
use mac_frame::{
    ASSOCIATION_REQUEST, AUTHENTICATION, DEAUTHENTICATION, DISASSOCIATION, MacAddr, PROBE_REQUEST,
    REASSOCIATION_REQUEST, Rx, Unread, body_has_octets, decode, frame_is_addressed, one_frame,
};
use station_state::Class;

/// What a station asks of a network. SSID, elements and body are parts of the string that it was read from.
#[derive(Debug, Drop)]
pub enum Request<'a> {
    /// A probe request (9.3.3.10): which networks are here.
    Probe {
        /// The station.
        from: MacAddr,
        /// The SSID that it names, if it names one (9.4.2.2): of any length, empty for the wildcard SSID.
        ssid: Option<&'a [u8]>,
    },
    /// An authentication (9.3.3.12, 11.3.4.3): the station asks to be authenticated.
    Auth {
        /// The station.
        from: MacAddr,
        /// The algorithm (9.4.1.1), any number.
        algorithm: u16,
        /// The transaction sequence number (9.4.1.2), any number.
        step: u16,
    },
    /// An association or reassociation request (9.3.3.6, 9.3.3.8, 11.3.5.3, 11.3.5.5): the station asks to be
    /// associated.
    Assoc {
        /// The station.
        from: MacAddr,
        /// Whether it is a reassociation request.
        again: bool,
        /// Its listen interval in beacon intervals (9.4.1.6).
        listen: u16,
        /// The elements of its body.
        elements: Elements<'a>,
    },
    /// A disassociation (9.3.3.5, 11.3.5.9): the station ends its association.
    Disassoc {
        /// The station.
        from: MacAddr,
    },
    /// A deauthentication (9.3.3.13, 11.3.4.5): the station ends its authentication.
    Deauth {
        /// The station.
        from: MacAddr,
    },
    /// A Data frame (9.3.2.1), with a unit that the network is to pass on.
    Msdu {
        /// The station.
        from: MacAddr,
        /// Whether it dozes from now on (9.2.4.1.7).
        doze: bool,
        /// For whom the unit is: any address.
        to: MacAddr,
        /// The body, of at most 2304 octets.
        body: &'a [u8],
    },
    /// A Null frame (9.3.2.1), which tells the mode of the station alone.
    Null {
        /// The station.
        from: MacAddr,
        /// Whether it dozes from now on (9.2.4.1.7).
        doze: bool,
    },
    /// A PS-Poll (9.3.1.5): the station asks for what is kept for it.
    Poll {
        /// The station.
        from: MacAddr,
        /// The identifier that it names, below 16384 (9.4.1.8).
        aid: u16,
    },
}

/// The class of the frame that a request came in (11.3.3).
pub fn class(request: &Request<'_>) -> Class
    ensures { result ≡ class_of (shown request.now) }
{
    match request {
        Request::Assoc { .. } | Request::Disassoc { .. } => Class::Two,
        Request::Probe { .. } | Request::Auth { .. } | Request::Deauth { .. } => Class::One,
        Request::Msdu { .. } | Request::Null { .. } | Request::Poll { .. } => Class::Three,
    }
}

/// The address of the station that a request came from (9.2.4.3).
pub fn sender(request: &Request<'_>) -> MacAddr
    ensures { result ≡ sender (shown request.now) }
{
    match request {
        Request::Probe { from, .. }
        | Request::Auth { from, .. }
        | Request::Assoc { from, .. }
        | Request::Disassoc { from }
        | Request::Deauth { from }
        | Request::Msdu { from, .. }
        | Request::Null { from, .. }
        | Request::Poll { from, .. } => *from,
    }
}

/// The request that a string of octets is for the network `bss` (9.3). If it is none, its first fault in the order
/// of [`Unread`] (*profile*). It takes no memory.
pub fn read(bss: MacAddr, frame: &[u8]) -> Result<Request<'_>, Unread>
    // What is read is this request; what is this request is read.
    ensures request { IfOk result (λ request. IsRequest bss frame.now (shown request)) }
    ensures only { (r : Asking) → IsRequest bss frame.now r → IsOkAnd result (λ request. shown request ≡ r) }
    // Which fault it is.
    ensures fault { MatchResult result
        (λ request. request_of bss frame.now ≡ Ok (shown request))
        (λ fault. request_of bss frame.now ≡ Err fault) }
{
    one_frame();
    body_has_octets();
    one_list();
    match decode(bss, frame) {
        Ok(rx) => request_in(rx),
        Err(fault) => Err(fault),
    }
}

/// The request of a frame: of a management frame by its body, of any other as it stands.
fn request_in(rx: Rx<'_>) -> Result<Request<'_>, Unread>
    ensures { MatchResult result
        (λ request. request_in (frame_shown rx.entry) ≡ Ok (shown request))
        (λ fault. request_in (frame_shown rx.entry) ≡ Err fault) }
{
    match rx {
        Rx::Mgmt {
            subtype,
            from,
            body,
            ..
        } => ask(subtype, from, body),
        Rx::Msdu {
            from,
            doze,
            to,
            body,
        } => Ok(Request::Msdu {
            from,
            doze,
            to,
            body,
        }),
        Rx::Null { from, doze } => Ok(Request::Null { from, doze }),
        Rx::Poll { from, aid } => Ok(Request::Poll { from, aid }),
    }
}

/// The request of a management frame, by its subtype, its station and its body (9.3.3).
fn ask(subtype: u8, from: MacAddr, body: &[u8]) -> Result<Request<'_>, Unread>
    ensures { MatchResult result
        (λ request. asked_by subtype from body.now ≡ Ok (shown request))
        (λ fault. asked_by subtype from body.now ≡ Err fault) }
{
    match subtype {
        ASSOCIATION_REQUEST | REASSOCIATION_REQUEST => {
            let again = subtype == REASSOCIATION_REQUEST;
            let (listen, elements) = read_assoc(again, body)?;
            Ok(Request::Assoc {
                from,
                again,
                listen,
                elements,
            })
        }
        PROBE_REQUEST => {
            let ssid = read_probe(body)?;
            Ok(Request::Probe { from, ssid })
        }
        DISASSOCIATION => {
            read_reason(body)?;
            Ok(Request::Disassoc { from })
        }
        AUTHENTICATION => {
            let (algorithm, step) = read_auth(body)?;
            Ok(Request::Auth {
                from,
                algorithm,
                step,
            })
        }
        DEAUTHENTICATION => {
            read_reason(body)?;
            Ok(Request::Deauth { from })
        }
        _ => Err(Unread::Kind),
    }
}

/// A string of octets is at most one request for a network, which is the one that reading gives; and the network
/// hears it (9.3).
pub fn one_request()
    ensures unique { (bss x : List ℕ) (r s : Asking) → IsRequest bss x r → IsRequest bss x s → r ≡ s }
    ensures read { (bss x : List ℕ) (r : Asking) → IsRequest bss x r → request_of bss x ≡ Ok r }
    ensures found { (bss x : List ℕ) (r : Asking) → ((place : ℕ) → slice_index x place < 256)
        → request_of bss x ≡ Ok r → IsRequest bss x r }
    ensures heard { (bss x : List ℕ) (r : Asking) → IsRequest bss x r → Hears bss x }
{
    one_frame();
    frame_is_addressed();
    body_has_octets();
    one_list();
}
