//! A file system of the tests: a list of names, and of what becomes of each file.

ghost use Rattle.std.specs.Prelude.{◌≡◌, ◌++◌, List, None, Some, MatchOption, MatchResult, map};
ghost use Rattle.text_files.specs.declared.file_system.Unread.TheVariants as unread;
ghost use Rattle.text_files_tests.specs.ListedFiles.{Listed, MayGive, Opens, WasOpened};
ghost use Rattle.text_files_tests.specs.ListedFiles.{held_of, left_of, listed, named};

use mac_frame::Octets;
use std::alloc::Global;
use std::io::{self, Error, ErrorKind, Read};
use std::marker::Model;
use text_files::{FileSystem, OpenedFile, Unread};

/// How reading a file ends.
#[derive(Clone, Copy, Debug)]
pub enum Reading {
    /// It gives all that it holds.
    Gives,
    /// It can't be read, as a folder.
    Fails,
    /// Memory runs out.
    TakesTooMuch,
}

/// What becomes of a file that can be opened. It is the file, opened, too: reading it takes away what was read.
#[derive(Clone, Copy, Debug)]
pub struct Content<'a> {
    /// Whether it stands on a disk. A pipe doesn't, and its length is 0.
    pub on_disk: bool,
    /// What it holds when it is opened.
    pub held: &'a [u8],
    /// What it has grown by before it is read to its end.
    pub grown: &'a [u8],
    /// How reading it ends.
    pub reading: Reading,
}

/// A file of the tests. One that can't be opened has no place in a list.
#[derive(Clone, Copy, Debug)]
pub struct NamedFile<'a> {
    /// Its name.
    pub name: &'a str,
    /// What becomes of it.
    pub content: Content<'a>,
}

/// A file system of these files alone: of two of one name the first. It stays as it is.
#[derive(Drop)]
pub struct ListedFiles<'a> {
    files: &'a [NamedFile<'a>],
}

impl<'a> Model for ListedFiles<'a> {
    ghost Value = { List Listed };

    ghost view = { λ system. map listed system.files.now };
}

impl<'a> ListedFiles<'a> {
    /// The file system of these files.
    pub fn new(files: &'a [NamedFile<'a>]) -> ListedFiles<'a>
        ensures { result ≡ map listed files.now }
    {
        ListedFiles { files }
    }
}

/// What becomes of the first file of this name.
fn content_of<'a>(files: &[NamedFile<'a>], name: &str) -> Option<Content<'a>>
    ensures { MatchOption result
        (named (map listed files.now) name.now ≡ None)
        (λ content. named (map listed files.now) name.now ≡ Some (held_of content)) }
{
    for file in files {
        if file.name == name {
            return Some(file.content);
        }
    }
    None
}

impl<'a> FileSystem for ListedFiles<'a> {
    type File = Content<'a>;

    ghost opens = { λ files name given new. Opens files name given new };

    ghost opened = { λ files name file new. WasOpened files name (held_of file) new };

    fn open(&mut self, name: &str) -> Result<Content<'a>, Unread> {
        match content_of(self.files, name) {
            Some(content) => Ok(content),
            None => Err(Unread::Failed),
        }
    }
}

impl Read for Content<'_> {
    ghost remaining = { λ file. left_of (held_of file) };

    fn read(&mut self, buf: &mut [u8]) -> io::Result<usize> {
        match self.reading {
            Reading::Gives if self.held.is_empty() => self.grown.read(buf),
            Reading::Gives => self.held.read(buf),
            Reading::Fails => Err(Error::from(ErrorKind::Other)),
            Reading::TakesTooMuch => Err(Error::from(ErrorKind::OutOfMemory)),
        }
    }
}

impl OpenedFile for Content<'_> {
    ghost gives = { λ file given. MayGive (held_of file) given };

    fn is_regular(&self) -> bool {
        self.on_disk
    }

    fn read_whole(self, alloc: Global) -> Result<Octets, Unread> {
        match self.reading {
            Reading::Gives => joined(alloc, self.held, self.grown),
            Reading::Fails => Err(Unread::Failed),
            Reading::TakesTooMuch => Err(Unread::NoMemory),
        }
    }
}

/// Two parts, one after the other; `NoMemory` if memory ran out.
fn joined(alloc: Global, first: &[u8], then: &[u8]) -> Result<Octets, Unread>
    ensures { MatchResult result (λ octets. octets ≡ first.now ++ then.now) (λ why. why ≡ unread.NoMemory) }
{
    let mut octets = Octets::new(alloc);
    match octets.append_both(first, then) {
        Ok(()) => Ok(octets),
        Err(_) => Err(Unread::NoMemory),
    }
}
