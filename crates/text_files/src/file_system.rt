//! What opens files by their names, and those of the system that the program runs on.

ghost use Rattle.std.specs.Prelude.{ℕ, List, Option, None, Some, MatchResult};
ghost use Rattle.text_files.specs.Files.{IsUnlessMemory};

use crate::input::read_to_end;
use mac_frame::Octets;
use std::alloc::Global;
use std::fs::File;
use std::io::{Error, ErrorKind, Read};

/// Why nothing was read of a file.
#[derive(Clone, Copy, Debug)]
pub enum Unread {
    /// It can't be opened or read.
    Failed,
    /// Memory ran out.
    NoMemory,
}

impl Unread {
    /// Why nothing was read that failed with this error.
    pub fn by(error: &Error) -> Unread {
        if error.kind() == ErrorKind::OutOfMemory {
            Unread::NoMemory
        } else {
            Unread::Failed
        }
    }
}

/// A file that was opened. Contracts see in it what reading it may give.
pub trait OpenedFile: Read + Send + Drop {
    // Reading it may give this: octets, or none if it can't be read.
    ghost gives: { Self → Option (List ℕ) → Type 0 };

    /// Whether it stands on a disk, so that it may be read at any time.
    fn is_regular(&self) -> bool;

    /// All that it holds. `Failed` if it can't be read, and `NoMemory` if memory ran out.
    fn read_whole(self, alloc: Global) -> Result<Octets, Unread>
        ensures { MatchResult result (λ octets. gives self (Some octets)) (IsUnlessMemory (gives self None)) };
}

/// What opens files by their names. Contracts see in it what the next file may give.
pub trait FileSystem {
    /// A file that was opened.
    type File: OpenedFile;

    // Opening a file of this name and reading it may give this, octets, or none if it can't be opened or read; and
    // leave the file system so.
    ghost opens: { Self → List ℕ → Option (List ℕ) → Self → Type 0 };

    // Opening a file of this name may give this one, and leave the file system so.
    ghost opened: { Self → List ℕ → Self.File → Self → Type 0 };

    /// Opens the file of this name, the word as it stands. `Failed` if it can't be opened, and `NoMemory` if
    /// memory ran out.
    fn open(&mut self, name: &str) -> Result<Self::File, Unread>
        ensures { MatchResult result
            (λ file. opened self.old name.now file self.new
            × ((given : Option (List ℕ)) → Self.File.gives file given → opens self.old name.now given self.new))
            (IsUnlessMemory (opens self.old name.now None self.new)) };
}

/// The files of the system that the program runs on. Contracts see nothing of them.
#[derive(Drop)]
pub struct HostFiles<'a> {
    rt: &'a HostRuntime,
}

impl<'a> HostFiles<'a> {
    /// The files of this system.
    pub fn new(rt: &'a HostRuntime) -> HostFiles<'a> {
        HostFiles { rt }
    }
}

impl<'a> FileSystem for HostFiles<'a> {
    type File = File;

    ghost opens = { λ _ _ _ _. Unit {0} };

    ghost opened = { λ _ _ _ _. Unit {0} };

    fn open(&mut self, name: &str) -> Result<File, Unread> {
        match File::open(self.rt, name) {
            Ok(file) => Ok(file),
            Err(error) => Err(Unread::by(&error)),
        }
    }
}

impl OpenedFile for File {
    ghost gives = { λ _ _. Unit {0} };

    fn is_regular(&self) -> bool {
        match self.metadata() {
            Ok(about) => about.is_file(),
            Err(_) => false,
        }
    }

    fn read_whole(mut self, alloc: Global) -> Result<Octets, Unread> {
        let octets = read_to_end(alloc, &mut self)?;
        Ok(Octets::from_vec(octets))
    }
}
