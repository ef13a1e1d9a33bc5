//! Frame Control (IEEE Std 802.11-2016, 9.2.4.1), the first field of every frame, read and written by one table of
//! its bits.

ghost use Rattle.std.specs.Prelude.{◌≡◌, ◌^◌, ◌<◌};
ghost use Rattle.mac_frame.specs.FrameControl.{type_number, type_of, bits, has_bit, control_of, has_refused_flags};
ghost use Rattle.mac_frame.specs.FrameControl.{has_direction, is_to_ds, octets_of, plain};

// Where each field stands in the number of the two octets, the first of which is the low one (9.2.4.1.1).

const PROTOCOL_VERSION: u32 = 0;

const TYPE: u32 = 2;

const SUBTYPE: u32 = 4;

const TO_DS: u32 = 8;

const FROM_DS: u32 = 9;

const MORE_FRAGMENTS: u32 = 10;

const RETRY: u32 = 11;

const POWER_MANAGEMENT: u32 = 12;

const MORE_DATA: u32 = 13;

const PROTECTED_FRAME: u32 = 14;

const ORDER: u32 = 15;

/// The type of a frame (9.2.4.1.3).
#[derive(Clone, Copy, PartialEq, Eq)]
pub enum FrameType {
    /// Management frames (9.3.3).
    Management,
    /// Control frames (9.3.1).
    Control,
    /// Data frames (9.3.2).
    Data,
    /// Extension frames (9.3.4), of which none is read.
    Extension,
}

impl FrameType {
    /// The type that two bits say; any greater number is taken for an extension.
    fn from_bits(number: u16) -> FrameType
        ensures { result ≡ type_of number }
    {
        match number {
            0 => FrameType::Management,
            1 => FrameType::Control,
            2 => FrameType::Data,
            _ => FrameType::Extension,
        }
    }

    /// Its two bits.
    fn to_bits(self) -> u16
        ensures value { result ≡ type_number self }
        ensures small { result < 4 }
    {
        match self {
            FrameType::Management => 0,
            FrameType::Control => 1,
            FrameType::Data => 2,
            FrameType::Extension => 3,
        }
    }
}

/// A Frame Control field.
#[derive(Clone, Copy)]
pub struct FrameControl {
    /// Protocol Version, 0 in every frame that is read or sent (9.2.4.1.2).
    pub version: u8,
    /// Type (9.2.4.1.3).
    pub kind: FrameType,
    /// Subtype (9.2.4.1.3).
    pub subtype: u8,
    /// To DS (9.2.4.1.4).
    pub to_ds: bool,
    /// From DS (9.2.4.1.4).
    pub from_ds: bool,
    /// More Fragments (9.2.4.1.5).
    pub more_fragments: bool,
    /// Retry (9.2.4.1.6).
    pub retry: bool,
    /// Power Management (9.2.4.1.7).
    pub power_management: bool,
    /// More Data (9.2.4.1.8).
    pub more_data: bool,
    /// Protected Frame (9.2.4.1.9).
    pub protected: bool,
    /// +HTC/Order (9.2.4.1.10).
    pub order: bool,
}

impl FrameControl {
    /// Version 0, this type and subtype, and every bit after them 0.
    pub fn plain(kind: FrameType, subtype: u8) -> FrameControl
        ensures { result ≡ plain kind subtype }
    {
        FrameControl {
            version: 0,
            kind,
            subtype,
            to_ds: false,
            from_ds: false,
            more_fragments: false,
            retry: false,
            power_management: false,
            more_data: false,
            protected: false,
            order: false,
        }
    }

    /// The field of these two octets, the first of them sent first.
    pub fn from_octets(octets: [u8; 2]) -> FrameControl
        ensures { result ≡ control_of octets }
    {
        let number = u16::from_le_bytes(octets);
        FrameControl {
            version: bits(number, PROTOCOL_VERSION, 2) as u8,
            kind: FrameType::from_bits(bits(number, TYPE, 2)),
            subtype: bits(number, SUBTYPE, 4) as u8,
            to_ds: has_bit(number, TO_DS),
            from_ds: has_bit(number, FROM_DS),
            more_fragments: has_bit(number, MORE_FRAGMENTS),
            retry: has_bit(number, RETRY),
            power_management: has_bit(number, POWER_MANAGEMENT),
            more_data: has_bit(number, MORE_DATA),
            protected: has_bit(number, PROTECTED_FRAME),
            order: has_bit(number, ORDER),
        }
    }

    /// The two octets of the field, the first of them sent first.
    pub fn to_octets(self) -> [u8; 2]
        requires version { self.version < 4 }
        requires subtype { self.subtype < 16 }
        ensures octets { result ≡ octets_of self }
        // What was written is read again.
        ensures read { control_of result ≡ self }
    {
        let number = (u16::from(self.version) << PROTOCOL_VERSION)
            + (self.kind.to_bits() << TYPE)
            + (u16::from(self.subtype) << SUBTYPE)
            + (u16::from(self.to_ds) << TO_DS)
            + (u16::from(self.from_ds) << FROM_DS)
            + (u16::from(self.more_fragments) << MORE_FRAGMENTS)
            + (u16::from(self.retry) << RETRY)
            + (u16::from(self.power_management) << POWER_MANAGEMENT)
            + (u16::from(self.more_data) << MORE_DATA)
            + (u16::from(self.protected) << PROTECTED_FRAME)
            + (u16::from(self.order) << ORDER);
        number.to_le_bytes()
    }

    /// Whether it says that others of its fragments follow, that it is protected, or that it has an HT Control field
    /// (9.2.4.1.5, 9.2.4.1.9, 9.2.4.1.10).
    pub fn has_refused_flags(self) -> bool
        ensures { result ≡ has_refused_flags self }
    {
        self.more_fragments || self.protected || self.order
    }

    /// Whether it goes to the distribution system or comes from it, as no management or control frame does (9.2.4.1.4).
    pub fn has_direction(self) -> bool
        ensures { result ≡ has_direction self }
    {
        self.to_ds || self.from_ds
    }

    /// Whether it goes to the distribution system, and doesn't come from it (9.2.4.1.4).
    pub fn is_to_ds(self) -> bool
        ensures { result ≡ is_to_ds self }
    {
        self.to_ds && !self.from_ds
    }
}

/// The bits of a number from `low` on, as many as `count`.
pub fn bits(number: u16, low: u32, count: u32) -> u16
    requires low { low < 16 }
    requires count { count < 16 }
    ensures value { result ≡ bits number low count }
    ensures small { result < 2 ^ count }
{
    (number >> low) & ((1 << count) - 1)
}

/// Whether a bit of a number is 1.
fn has_bit(number: u16, place: u32) -> bool
    requires { place < 16 }
    ensures { result ≡ has_bit number place }
{
    bits(number, place, 1) == 1
}
