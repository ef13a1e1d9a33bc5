//! Octets of frames, and how lines and records are put together of them.

use live::Face;
use mac_frame::NoMemory;
use std::alloc::Global;

/// How many octets stand before those of a record: its kind, a BSSID, and how many follow.
const HEADER_LEN: usize = 9;

/// Octets that stand in many frames, with their digits in either case.
#[derive(Drop)]
pub(crate) struct Piece {
    octets: Vec<u8>,
    lower: String,
    upper: String,
}

impl Piece {
    /// The piece of these octets.
    pub(crate) fn new(alloc: Global, octets: &[u8]) -> Result<Piece, NoMemory> {
        Ok(Piece {
            octets: Vec::from_slice(alloc, octets)?,
            lower: hex::encode(alloc, octets)?,
            upper: hex::encode_upper(alloc, octets)?,
        })
    }
}

/// How the digits of a line are written.
#[derive(Clone, Copy, PartialEq, Eq)]
pub(crate) enum Style {
    /// In lower case, without spaces.
    Plain,
    /// In upper case, with a CR at the end.
    Upper,
    /// In lower case, with spaces among them and at the end.
    Spaced,
}

/// Lines or records, one after the other.
#[derive(Drop)]
pub(crate) struct Out {
    face: Face,
    style: Style,
    octets: Vec<u8>,
    // where the last record begins
    begun: usize,
}

impl Out {
    /// No line and no record.
    pub(crate) fn new(alloc: Global, face: Face) -> Out {
        Out {
            face,
            style: Style::Plain,
            octets: Vec::new(alloc),
            begun: 0,
        }
    }

    /// All that was put since it was cleared.
    pub(crate) fn as_slice(&self) -> &[u8] {
        self.octets.as_slice()
    }

    /// All that was put, as a vector.
    pub(crate) fn into_octets(self) -> Vec<u8> {
        self.octets
    }

    /// Forgets what was put.
    pub(crate) fn clear(&mut self) {
        self.octets.clear();
    }

    /// Has the digits of the lines to come written so.
    pub(crate) fn set_style(&mut self, style: Style) {
        self.style = style;
    }

    /// Puts a text as it stands, if lines are put.
    pub(crate) fn put_text(&mut self, text: &[u8]) -> Result<(), NoMemory> {
        if self.face == Face::Lines {
            self.octets.extend_from_slice(text)?;
        }
        Ok(())
    }

    /// Begins a beacon interval.
    pub(crate) fn put_tick(&mut self) -> Result<(), NoMemory> {
        match self.face {
            Face::Lines => self.octets.extend_from_slice(b"T\n")?,
            Face::Records => self.octets.extend_from_slice(b"T\0\0\0\0\0\0\0\0")?,
        }
        Ok(())
    }

    /// Begins a frame that is heard on the air.
    pub(crate) fn begin_air(&mut self) -> Result<(), NoMemory> {
        self.begun = self.octets.len();
        match self.face {
            Face::Lines => self.octets.extend_from_slice(b"A ")?,
            Face::Records => self.octets.extend_from_slice(b"A\0\0\0\0\0\0\0\0")?,
        }
        Ok(())
    }

    /// Begins a frame that comes over the wire to a network, whose address is spelled so.
    pub(crate) fn begin_wire(&mut self, bssid: &Piece, spelled: &str) -> Result<(), NoMemory> {
        self.begun = self.octets.len();
        match self.face {
            Face::Lines => {
                self.octets.extend_from_slice(b"W ")?;
                self.octets.extend_from_slice(spelled.as_bytes())?;
                self.octets.extend_from_slice(b" ")?;
            }
            Face::Records => {
                self.octets.extend_from_slice(b"W")?;
                self.octets.extend_from_slice(bssid.octets.as_slice())?;
                self.octets.extend_from_slice(b"\0\0")?;
            }
        }
        Ok(())
    }

    /// Puts the octets of a piece.
    pub(crate) fn put(&mut self, piece: &Piece) -> Result<(), NoMemory> {
        self.put_part(piece, 0, piece.octets.len())
    }

    /// Puts octets of a piece, as many as are there, from a place on.
    pub(crate) fn put_part(
        &mut self,
        piece: &Piece,
        from: usize,
        len: usize,
    ) -> Result<(), NoMemory> {
        let to = from.saturating_add(len);
        let (first, last) = (from.saturating_mul(2), to.saturating_mul(2));
        let part = match (self.face, self.style) {
            (Face::Records, _) => piece.octets.as_slice().get(from..to),
            (Face::Lines, Style::Upper) => piece.upper.as_bytes().get(first..last),
            (Face::Lines, _) => piece.lower.as_bytes().get(first..last),
        };
        self.octets.extend_from_slice(part.unwrap_or(b""))?;
        if self.style == Style::Spaced {
            self.put_text(b" ")?;
        }
        Ok(())
    }

    /// Ends a frame.
    pub(crate) fn end(&mut self) -> Result<(), NoMemory> {
        match (self.face, self.style) {
            (Face::Records, _) => self.end_record(),
            (Face::Lines, Style::Upper) => self.octets.extend_from_slice(b"\r\n")?,
            (Face::Lines, _) => self.octets.extend_from_slice(b"\n")?,
        }
        Ok(())
    }

    /// Writes into a record how many octets it has.
    fn end_record(&mut self) {
        let whole = self.octets.len().saturating_sub(self.begun);
        let len = u16::try_from(whole.saturating_sub(HEADER_LEN)).unwrap_or(u16::MAX);
        let [low, high] = len.to_le_bytes();
        let place = self.begun.saturating_add(HEADER_LEN);
        let octets = self.octets.as_mut_slice();
        if let Some(octet) = octets.get_mut(place.saturating_sub(2)) {
            *octet = low;
        }
        if let Some(octet) = octets.get_mut(place.saturating_sub(1)) {
            *octet = high;
        }
    }
}
