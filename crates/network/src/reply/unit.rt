//! Units that arrive, and where they go (IEEE Std 802.11-2016, 4.5.2 and 11.2.3).

ghost use Rattle.std.specs.Prelude.{◌≡◌, ◌+◌, ◌++◌, ◌^◌, ◌<◌, ◌≤◌, length, IfOk, OnOk, OnErr};
ghost use Rattle.network.specs.Arrivals.{body_octets, unit_shown};

use encapsulation::{Ether, TYPED_HEADER_LEN, to_air};
use mac_frame::{MacAddr, NoMemory, Octets};
use powersave::{Unit, Whom};
use std::alloc::Global;

/// How a unit is delivered on the air (11.2.3.2).
#[derive(Clone, Copy, Debug)]
pub enum Delivery {
    /// It is sent at once.
    Now,
    /// It is kept for a station that dozes, or for the group.
    Kept(Whom),
    /// No station of this network is its destination.
    Nowhere,
}

/// The body of a unit, where it lies.
#[derive(Clone, Copy, Debug)]
pub enum Body<'a> {
    /// That by which a unit is carried on the air.
    Plain(&'a [u8]),
    /// That of a unit which an Ethernet frame carries.
    Wired(Ether<'a>),
}

/// A unit whose body lies elsewhere.
#[derive(Clone, Copy, Debug)]
pub struct Arrival<'a> {
    /// The destination address.
    pub to: MacAddr,
    /// The source address.
    pub source: MacAddr,
    /// Its body.
    pub body: Body<'a>,
    /// The clock at which it came.
    pub at: u32,
}

impl Arrival<'_> {
    /// The unit by itself, for which its body is copied. `NoMemory` if memory ran out.
    pub fn copy(&self, alloc: Global) -> Result<Unit, NoMemory>
        ensures { IfOk result (λ unit. unit ≡ unit_shown self.now) }
    {
        let mut body = Octets::new(alloc);
        self.body.append_to(&mut body)?;
        Ok(Unit {
            to: self.to,
            source: self.source,
            body,
            at: self.at,
        })
    }
}

impl Body<'_> {
    /// Room for its octets; the header of a wired frame's type takes eight.
    pub fn room(&self) -> usize
        ensures enough { length (body_octets self.now) ≤ result }
        ensures bounded { result < 2 ^ 63 + 8 }
    {
        match self {
            Body::Plain(octets) => octets.len(),
            Body::Wired(ether) => ether.payload.len() + TYPED_HEADER_LEN,
        }
    }

    /// Appends the body. After `NoMemory` `out` is as it was.
    pub fn append_to(&self, out: &mut Octets) -> Result<(), NoMemory>
        ensures ok { OnOk result (out.new ≡ out.old ++ body_octets self.now) }
        ensures err { OnErr result (out.new ≡ out.old) }
    {
        match self {
            Body::Plain(octets) => out.append(octets),
            Body::Wired(ether) => to_air(out, ether),
        }
    }
}
