//! What a network does about one event: built aside, and committed once.

ghost use Rattle.std.specs.Prelude.{◌≡◌, ◌<◌, ◌++◌, ◌∷◌, [], OnOk, OnErr};
ghost use Rattle.network.specs.Arrivals.{unit_shown};
ghost use Rattle.network.specs.Network.{next_sequence};
ghost use Rattle.network.specs.Replies.{no_reply};
ghost use Rattle.network.specs.Units.{unit_frame};
ghost use Rattle.powersave.specs.declared.unit.Whom.TheVariants as whoms;

mod frames;
mod spare;
mod unit;

pub use frames::Frames;
use mac_frame::{HEADER_LEN, MacAddr, NoMemory, Octets, write_msdu};
use powersave::{Unit, Whom};
use roster::{Keeping, Leaving};
pub use spare::Spare;
use stations::Change;
use std::alloc::Global;
pub use unit::{Arrival, Body, Delivery};

/// How many sequence numbers there are (IEEE Std 802.11-2016, 9.2.4.4.2).
pub const SEQUENCE_NUMBERS: u16 = 4096;

/// What a network does about one event. Each field is one effect.
#[derive(Debug, Drop)]
pub struct Reply {
    /// What becomes of one of its stations.
    pub change: Change,
    /// What becomes of the units that it keeps.
    pub keeping: Keeping,
    /// The frames that it sends on the air, the first of them first.
    pub frames: Frames,
    /// The sequence number of its next frame after these (9.2.4.4.2).
    pub sequence: u16,
    /// The frame that it sends on the wire.
    pub wired: Option<Octets>,
    /// What is added to its count of lost units.
    pub lost: u32,
    /// What is added to its count of unread events.
    pub unread: u32,
    /// How many beacon intervals begin.
    pub clock: u32,
    /// Whose poll is served, if one is: the unit that was kept first for this station is sent. Nothing else is done then.
    pub served: Option<MacAddr>,
    /// The memory in which its first frame is built.
    pub spare: Spare,
}

impl Reply {
    /// The reply of a network that does nothing, whose next frame has this sequence number.
    pub fn new(alloc: Global, sequence: u16) -> Reply
        ensures { result ≡ no_reply sequence }
    {
        Reply {
            change: Change::Nothing,
            keeping: Keeping::nothing(),
            frames: Frames::new(alloc),
            sequence,
            wired: None,
            lost: 0,
            unread: 0,
            clock: 0,
            served: None,
            spare: Spare::new(alloc),
        }
    }

    /// The state of a station changes too, and no unit is kept for it any more (*profile*).
    pub fn change_state(&mut self, addr: MacAddr, change: Change)
        ensures { self.new ≡ record self.old {
          change = change;
          keeping = record self.old.keeping { leaving = Leaving.All (whoms.One addr) };
        } }
    {
        self.change = change;
        self.keeping.leaving = Leaving::All(Whom::One(addr));
    }

    /// Sends a frame too, which carries the sequence number that the reply has now. After `NoMemory` the reply is as
    /// it was.
    #[inline(always)]
    pub fn send(&mut self, frame: Octets) -> Result<(), NoMemory>
        requires { self.old.sequence < 4096 }
        ensures ok { OnOk result (self.new ≡ record self.old {
          frames = self.old.frames ++ frame ∷ [];
          sequence = next_sequence self.old.sequence;
        }) }
        ensures err { OnErr result (self.new ≡ self.old) }
    {
        self.frames.push(frame)?;
        self.sequence = (self.sequence + 1) % SEQUENCE_NUMBERS;
        Ok(())
    }

    /// Sends a unit too, with More Data or without, in a frame from the network `bssid`. After `NoMemory` the reply
    /// is as it was.
    pub fn send_unit(
        &mut self,
        alloc: Global,
        bssid: MacAddr,
        more: bool,
        unit: &Arrival<'_>,
    ) -> Result<(), NoMemory>
        requires { self.old.sequence < 4096 }
        ensures ok { OnOk result (self.new ≡ record self.old {
          frames = self.old.frames ++ unit_frame bssid more (unit_shown unit.now) self.old.sequence ∷ [];
          sequence = next_sequence self.old.sequence;
        }) }
        ensures err { OnErr result (self.new ≡ self.old) }
    {
        let mut frame = self.spare.blank(alloc);
        frame.reserve(HEADER_LEN + unit.body.room())?;
        write_msdu(&mut frame, unit.to, bssid, unit.source, self.sequence, more)?;
        unit.body.append_to(&mut frame)?;
        self.send(frame)
    }

    /// Sends a unit that was kept too, as [`Reply::send_unit`] does.
    pub fn send_kept(
        &mut self,
        alloc: Global,
        bssid: MacAddr,
        more: bool,
        unit: &Unit,
    ) -> Result<(), NoMemory>
        requires { self.old.sequence < 4096 }
        ensures ok { OnOk result (self.new ≡ record self.old {
          frames = self.old.frames ++ unit_frame bssid more unit.now self.old.sequence ∷ [];
          sequence = next_sequence self.old.sequence;
        }) }
        ensures err { OnErr result (self.new ≡ self.old) }
    {
        let unit = Arrival {
            to: unit.to,
            source: unit.source,
            body: Body::Plain(unit.body.as_slice()),
            at: unit.at,
        };
        self.send_unit(alloc, bssid, more, &unit)
    }
}
