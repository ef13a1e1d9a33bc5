//! Files that are read by their names, one or several in order.

ghost use Rattle.std.specs.Prelude.{◌≡◌, ◌++◌, ◌∷◌, ◌⊎◌, ℕ, List, Option, None, Some, Ok, Err, MatchResult, map};
ghost use Rattle.text_files.specs.Faults.{IsOfFile};
ghost use Rattle.text_files.specs.Files.{AreOpenedSoFar, AreRead, IsOfFirstUnread, IsOfUnread, IsOpened, IsReadOf, IsTold};
ghost use Rattle.text_files.specs.Files.{names_of};
ghost use Rattle.text_files.specs.declared.fault.Fault.TheVariants as faults;

use crate::fault::Fault;
use crate::file_system::{FileSystem, OpenedFile, Unread};
use mac_frame::Octets;
use std::alloc::Global;
use std::thread;
use std::thread::Threads;

/// The file of this name, opened. `File` with its name if it can't be; `Memory` if memory ran out.
pub fn open_file<S: FileSystem>(system: &mut S, alloc: Global, name: &str) -> Result<S::File, Fault>
    ensures { MatchResult result
        (λ file. S.opened system.old name.now file system.new
        × ((given : Option (List ℕ)) → S.File.gives file given → S.opens system.old name.now given system.new))
        (IsOfUnread name.now (S.opens system.old name.now None system.new)) }
{
    match system.open(name) {
        Ok(file) => Ok(file),
        Err(why) => Err(fault_of(alloc, why, name)),
    }
}

/// All that the file of this name holds. `File` with its name if it can't be opened or read; `Memory` if memory
/// ran out.
pub fn read_file<S: FileSystem>(system: &mut S, alloc: Global, name: &str) -> Result<Octets, Fault>
    ensures { MatchResult result
        (λ octets. S.opens system.old name.now (Some octets) system.new)
        (IsOfUnread name.now (S.opens system.old name.now None system.new)) }
{
    let file = open_file(system, alloc, name)?;
    read_named(alloc, file, name)
}

/// All that the files of these names hold, in their order. `File` with the name of the first that can't be opened or
/// read; `Memory` if memory ran out.
///
/// They are opened in their order. What comes as it is read, as of a pipe, is read before the next is opened. Then
/// threads read the files that stand on a disk, as far as there are any threads.
pub fn read_traces<S: FileSystem, T: Threads + Sync>(
    system: &mut S,
    threads: &T,
    alloc: Global,
    names: &[&str],
) -> Result<Vec<Octets>, Fault>
    ensures { MatchResult result
        (λ texts. AreRead S.opens system.old (names_of names.now) texts.items system.new)
        (IsOfFirstUnread S.opens system.old (names_of names.now)) }
{
    let (opened, missing) = open_each(system, alloc, names)?;
    let read = thread::map_vec(
        threads,
        opened,
        &|file: Opened<'_, S::File>| -> Result<Octets, Fault>
            ensures { IsReadOf S.File.gives file.entry result }
        { file.read(alloc) },
    )?;
    let texts = all_of(alloc, read)?;
    match missing {
        Some(fault) => Err(fault),
        None => Ok(texts),
    }
}

/// The files of these names, opened in their order, as far as the first that can't be, and the fault of that one.
fn open_each<'a, S: FileSystem>(
    system: &mut S,
    alloc: Global,
    names: &[&'a str],
) -> Result<(Vec<Opened<'a, S::File>>, Option<Fault>), Fault>
    ensures { MatchResult result
        (λ files. AreOpenedSoFar S.File.gives S.opens system.old (names_of names.now) files.0.items files.1 system.new)
        (λ fault. fault ≡ faults.Memory) }
{
    let mut opened = Vec::with_capacity(alloc, names.len())?;
    for name in names {
        match Opened::open(system, alloc, name) {
            Ok(file) => opened.push(file)?,
            Err(fault) => return Ok((opened, Some(fault))),
        }
    }
    Ok((opened, None))
}

/// All that was read, or the first fault.
fn all_of(alloc: Global, read: Vec<Result<Octets, Fault>>) -> Result<Vec<Octets>, Fault>
    ensures { MatchResult result
        (λ texts. read.items ≡ map (λ text. Ok text) texts.items)
        (λ fault. (fault ≡ faults.Memory) ⊎ ((before : List (List ℕ)) × (after : List _)
        × (read.items ≡ map (λ text. Ok text) before ++ Err fault ∷ after))) }
{
    let mut texts = Vec::with_capacity(alloc, read.len())?;
    for text in read {
        match text {
            Ok(text) => texts.push(text)?,
            Err(fault) => return Err(fault),
        }
    }
    Ok(texts)
}

/// A file that was opened, with its name.
#[derive(Drop)]
struct Opened<'a, O> {
    name: &'a str,
    content: Content<O>,
}

/// What a file holds that was opened.
#[derive(Drop)]
enum Content<O> {
    /// It stands on a disk, and may be read at any time.
    OnDisk(O),
    /// All that it gave.
    Read(Octets),
}

impl<'a, O: OpenedFile> Opened<'a, O> {
    /// The file of this name, opened, which is read unless it stands on a disk.
    fn open<S: FileSystem<File = O>>(
        system: &mut S,
        alloc: Global,
        name: &'a str,
    ) -> Result<Opened<'a, O>, Fault>
        ensures { MatchResult result
            (IsOpened O.gives (λ given. S.opens system.old name.now given system.new) name.now)
            (IsOfUnread name.now (S.opens system.old name.now None system.new)) }
    {
        let file = open_file(system, alloc, name)?;
        let content = if file.is_regular() {
            Content::OnDisk(file)
        } else {
            Content::Read(read_named(alloc, file, name)?)
        };
        Ok(Opened { name, content })
    }

    /// All that the file holds.
    fn read(self, alloc: Global) -> Result<Octets, Fault>
        ensures { IsReadOf O.gives self.entry result }
    {
        let Opened { name, content } = self;
        match content {
            Content::OnDisk(file) => read_named(alloc, file, name),
            Content::Read(octets) => Ok(octets),
        }
    }
}

/// All that a file holds, which has this name.
fn read_named<O: OpenedFile>(alloc: Global, file: O, name: &str) -> Result<Octets, Fault>
    ensures { MatchResult result (λ octets. O.gives file (Some octets)) (IsOfUnread name.now (O.gives file None)) }
{
    match file.read_whole(alloc) {
        Ok(octets) => Ok(octets),
        Err(why) => Err(fault_of(alloc, why, name)),
    }
}

/// The fault of a file of this name of which nothing was read.
pub fn fault_of(alloc: Global, why: Unread, name: &str) -> Fault
    ensures told { IsTold name.now why result }
    ensures named { IsOfFile name.now result }
{
    match why {
        Unread::Failed => Fault::of_file(alloc, name),
        Unread::NoMemory => Fault::Memory,
    }
}
