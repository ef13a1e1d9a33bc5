//! Open System authentication (IEEE Std 802.11-2016, 9.3.3.12, 11.3.4.3 and 12.3.3.2): what a request says, its status,
//! and its answer.

ghost use Rattle.std.specs.Prelude.{◌≡◌, ◌++◌, ◌<◌, OnOk, OnErr};
ghost use Rattle.association.specs.Authentication.{auth_of, auth_status, authentication_body, authentication};

use crate::management::{number_at, write_frame};
use crate::status::{REFUSED, SUCCESS, TRANSACTION_SEQUENCE_ERROR, UNSUPPORTED_AUTH_ALGORITHM};
use mac_frame::{AUTHENTICATION, MacAddr, NoMemory, Octets, Unread};

/// The octets of a body that count: Algorithm, Sequence Number, Status Code (9.3.3.12).
const AUTHENTICATION_LEN: usize = 6;

/// The algorithm number of Open System authentication (9.4.1.1).
const OPEN_SYSTEM: u16 = 0;

/// The transaction sequence number of a request (9.4.1.2).
const REQUEST: u16 = 1;

/// The transaction sequence number of an answer (9.4.1.2).
const ANSWER: u16 = 2;

/// What the body of an authentication says (9.3.3.12): the algorithm (9.4.1.1) and the transaction sequence number
/// (9.4.1.2), any numbers. The status code is ignored, and so is what follows it. [`Unread::Body`] below six octets.
pub fn read_auth(body: &[u8]) -> Result<(u16, u16), Unread>
    ensures { result ≡ auth_of body.now }
{
    if body.len() < AUTHENTICATION_LEN {
        return Err(Unread::Body);
    }
    Ok((number_at(body, 0), number_at(body, 2)))
}

/// The status (9.4.1.9) of a request to authenticate by this algorithm (9.4.1.1), at this step (9.4.1.2). `room` says
/// whether there is room for the station. The first of these that applies, in this order (*profile*):
/// [`UNSUPPORTED_AUTH_ALGORITHM`] if the algorithm isn't 0, Open System, [`TRANSACTION_SEQUENCE_ERROR`] if the
/// step isn't 1, [`REFUSED`] if there is no room, [`SUCCESS`].
pub fn auth_status(algorithm: u16, step: u16, room: bool) -> u16
    ensures { result ≡ auth_status algorithm step room }
{
    if algorithm != OPEN_SYSTEM {
        UNSUPPORTED_AUTH_ALGORITHM
    } else if step != REQUEST {
        TRANSACTION_SEQUENCE_ERROR
    } else if !room {
        REFUSED
    } else {
        SUCCESS
    }
}

/// Appends the whole answer to a request to authenticate by this algorithm, with this status, to the station `to`, from
/// the network `bss` (9.3.3.12). Its transaction sequence number is always 2 (*profile*). The sequence number `seq` is
/// below 4096. After `NoMemory` `out` is as it was.
pub fn write_auth(
    out: &mut Octets,
    to: MacAddr,
    bss: MacAddr,
    seq: u16,
    algorithm: u16,
    status: u16,
) -> Result<(), NoMemory>
    requires { seq < 4096 }
    ensures ok { OnOk result (out.new ≡ out.old ++ authentication to bss seq algorithm status) }
    ensures err { OnErr result (out.new ≡ out.old) }
{
    write_frame(out, AUTHENTICATION, to, bss, seq, &body(algorithm, status))
}

/// The body of an answer (9.3.3.12).
fn body(algorithm: u16, status: u16) -> [u8; 6]
    ensures { result ≡ authentication_body algorithm status }
{
    let [a, b] = algorithm.to_le_bytes();
    let [c, d] = ANSWER.to_le_bytes();
    let [e, f] = status.to_le_bytes();
    [a, b, c, d, e, f]
}
