//! The two faces of the access point.

ghost use Rattle.std.specs.Prelude.{◌≡◌};

/// How what comes is read, and how what is answered is written.
#[derive(Clone, Copy, Debug, PartialEq, Eq)]
pub enum Face {
    /// Lines of text, with frames in hexadecimal digits.
    Lines,
    /// Records, with frames as octets.
    Records,
}

/// A face, as a type.
pub trait InFace {
    ghost use Rattle.live.specs.declared.face.Face.{Face};

    // Which one.
    ghost face: { Face };

    /// Which one.
    fn face() -> Face
        ensures { result ≡ face };
}

/// The face of lines.
pub struct InLines;

impl InFace for InLines {
    ghost use Rattle.live.specs.declared.face.Face.TheVariants.{Lines};

    ghost face = { Lines };

    fn face() -> Face {
        Face::Lines
    }
}

/// The face of records.
pub struct InRecords;

impl InFace for InRecords {
    ghost use Rattle.live.specs.declared.face.Face.TheVariants.{Records};

    ghost face = { Records };

    fn face() -> Face {
        Face::Records
    }
}
