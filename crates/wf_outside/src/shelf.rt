//! Where files are read from.
ghost use Rattle.std.specs.Prelude.{◌≡◌, ◌+◌, ◌<◌, ◌≤◌, ◌↔◌, ◌⊎◌, List, ℕ, Option, Some, None, length, vec_len, Contains, IfOk, IfSome, IsSomeAnd, IsErrOf};
ghost use Rattle.std.specs.Str.{IsUtf8};
ghost use Rattle.std.specs.Io.KnownBytes.{Consumes};
ghost use Rattle.wf_outside.specs.Files.{File, first_bytes, raised, HasRisen, IsReading};
ghost use Rattle.wf_outside.specs.MemFiles.{files_of};
ghost use Rattle.wf_outside.specs.Taking.{TakesAtMost, TakesSome};

use crate::Text;
use std::alloc::{AllocError, Global};
use std::io::Read;
use std::marker::Model;
use std::rt::Files;
use std::{fs, str};

// How many bytes of a file are asked for at once.
const BUFFER_SIZE: usize = 4096;

/// Why nothing was read.
#[derive(Clone, Copy, Debug, PartialEq, Eq)]
pub enum ShelfFault {
    /// There is no file of this name, or it could not be read.
    Failed,
    /// The file has more than `max` bytes.
    TooLong { max: u64 },
    /// Memory ran out.
    Memory,
}

impl From<AllocError> for ShelfFault {
    ghost use Rattle.std.specs.Prelude.{◌≡◌};
    ghost use Rattle.wf_outside.specs.declared.shelf.ShelfFault.TheVariants.{Memory};

    ghost from_gives = { λ _ e. e ≡ Memory };

    fn from(_: AllocError) -> Self {
        ShelfFault::Memory
    }
}

/// Files by name.
pub trait Shelf {
    /// The files, where it tells them.
    ghost holds: { Self → Option (List File) };

    /// How often reading a name has failed; no count ever falls.
    ghost faults: { Self → List ℕ → ℕ };

    /// The bytes of the first file of this name, of which there are at most `max`. A file that has
    /// more is `TooLong`, and `Failed` is counted for the name. A name is bytes, which need not be
    /// UTF-8.
    fn read(&mut self, name: &[u8], max: u64) -> Result<Vec<u8>, ShelfFault>
        ensures holds { holds self.new ≡ holds self.old }
        ensures counts { (other : List ℕ) → faults self.old other ≤ faults self.new other }
        ensures failed { IsErrOf result ShelfFault.Failed
            → HasRisen (faults self.old name.now) (faults self.new name.now) }
        ensures reading { IfSome (holds self.old)
            (λ files. IsReading (first_bytes name.now files) max result) }
        ensures too_long { (most : ℕ) → result ≡ Err (ShelfFault.TooLong most) → most ≡ max }
        ensures short { IfOk result (λ bytes. vec_len bytes ≤ max) };
}

/// Files in memory.
#[derive(Drop)]
pub struct MemShelf {
    alloc: Global,
    files: Vec<(Text, Vec<u8>)>,
    fail: Vec<u64>,
    calls: u64,
    faults: u64,
}

impl Model for MemShelf {
    ghost use Rattle.wf_outside.specs.MemFiles.{MemShelfValue, files_of};

    ghost Value = { MemShelfValue };

    ghost view = { λ s. record {
      held = files_of s.files.items;
      fail = s.fail.items;
      calls = s.calls;
      faults = s.faults;
    } };
}

impl MemShelf {
    /// A shelf with these names and the bytes under them, whose reads with these numbers fail. The
    /// first read has number 0.
    pub fn new(alloc: Global, files: Vec<(Text, Vec<u8>)>, fail: Vec<u64>) -> MemShelf
        ensures { result ≡ record {
          held = files_of files.items;
          fail = fail.items;
          calls = 0;
          faults = 0;
        } }
    {
        MemShelf {
            alloc,
            files,
            fail,
            calls: 0,
            faults: 0,
        }
    }
}

// The first file of that name.
#[tactic(auto, using(crate::proofs::ShelfLemmas::first_file))]
fn find_file<'a>(files: &'a [(Text, Vec<u8>)], name: &[u8]) -> Option<&'a [u8]>
    ensures found { IfSome result
        (λ bytes. first_bytes name.now (files_of files.now) ≡ Some bytes.now) }
    ensures none { result ≡ None → first_bytes name.now (files_of files.now) ≡ None }
{
    for file in files {
        if file.0.bytes() == name {
            return Some(&file.1);
        }
    }
    None
}

impl Shelf for MemShelf {
    ghost use Rattle.std.specs.Prelude.{Some};

    ghost holds = { λ s. Some s.held };

    ghost faults = { λ s _. s.faults };

    /// Fails where the number of the read is in the list, or no file has the name. No clause says
    /// when memory runs out.
    fn read(&mut self, name: &[u8], max: u64) -> Result<Vec<u8>, ShelfFault>
        ensures holds { Some self.new.held ≡ Some self.old.held }
        ensures counts { (other : List ℕ) → self.old.faults ≤ self.new.faults }
        ensures failed { IsErrOf result ShelfFault.Failed
            → HasRisen self.old.faults self.new.faults }
        ensures reading { IsReading (first_bytes name.now self.old.held) max result }
        ensures too_long { (most : ℕ) → result ≡ Err (ShelfFault.TooLong most) → most ≡ max }
        ensures short { IfOk result (λ bytes. vec_len bytes ≤ max) }

        // When each answer comes.
        ensures fails { IsErrOf result ShelfFault.Failed
            ↔ (Contains self.old.fail self.old.calls
            ⊎ (first_bytes name.now self.old.held ≡ None)) }
        ensures long { IsErrOf result (ShelfFault.TooLong max)
            ↔ (¬ (Contains self.old.fail self.old.calls)
            × IsSomeAnd (first_bytes name.now self.old.held) (λ bytes. max < length bytes)) }
        ensures bytes { IfOk result
            (λ bytes. first_bytes name.now self.old.held ≡ Some bytes.items) }

        // What the shelf is then.
        ensures held { self.new.held ≡ self.old.held }
        ensures numbers { self.new.fail ≡ self.old.fail }
        ensures calls { self.new.calls ≡ raised self.old.calls }
        ensures counted { IsErrOf result ShelfFault.Failed
            → self.new.faults ≡ raised self.old.faults }
        ensures uncounted { ¬ (IsErrOf result ShelfFault.Failed)
            → self.new.faults ≡ self.old.faults }
    {
        let number = self.calls;
        self.calls = number.saturating_add(1);
        if self.fail.contains(&number) {
            self.faults = self.faults.saturating_add(1);
            return Err(ShelfFault::Failed);
        }
        let Some(bytes) = find_file(&self.files, name) else {
            self.faults = self.faults.saturating_add(1);
            return Err(ShelfFault::Failed);
        };
        if bytes.len() as u64 > max {
            return Err(ShelfFault::TooLong { max });
        }
        Ok(bytes.to_vec(self.alloc)?)
    }
}

/// The files of the file system. A file that can't be opened or read, and a name that isn't UTF-8,
/// are `Failed`, and so is a read that was interrupted, which isn't tried again. One count serves
/// all names, and stays at 2^64 - 1.
#[derive(Drop)]
pub struct FsShelf<'a, R> {
    rt: &'a R,
    alloc: Global,
    faults: u64,
}

impl<'a, R> Model for FsShelf<'a, R> {
    ghost use Rattle.std.specs.Prelude.{ℕ};

    ghost Value = { ℕ };

    ghost view = { λ s. s.faults };
}

impl<'a, R: Files> FsShelf<'a, R> {
    /// The files that this runtime reaches, read into memory of `alloc`. As a value it is the count
    /// of the reads that failed.
    pub fn new(rt: &'a R, alloc: Global) -> FsShelf<'a, R>
        ensures { result ≡ 0 }
    {
        FsShelf {
            rt,
            alloc,
            faults: 0,
        }
    }
}

// One read of at most `room + 1` bytes, appended to those so far: how many came, none at the end.
fn take_some<F: Read>(
    file: &mut F,
    buffer: &mut [u8],
    room: u64,
    bytes: &mut Vec<u8>,
) -> Result<usize, ShelfFault>
    requires { 0 < length buffer.old }
    ensures ok { IfOk result (λ n. TakesSome (F.remaining file.old) (F.remaining file.new)
        bytes.old.items bytes.new.items n) }
    ensures count { IfOk result (λ n. n ≤ room + 1) }
    ensures at_most { TakesAtMost (F.remaining file.old) (F.remaining file.new) (room + 1) }
    ensures faults { (most : ℕ) → result ≡ Err (ShelfFault.TooLong most) → ⊥ }
{
    let end = if (buffer.len() as u64) - 1 > room {
        room as usize + 1
    } else {
        buffer.len()
    };
    let front = &mut buffer[..end];
    match file.read(front) {
        Ok(n) => {
            bytes.extend_from_slice(&front[..n])?;
            Ok(n)
        }
        Err(_) => Err(ShelfFault::Failed),
    }
}

// The bytes of a reader up to its end, of which at most `max + 1` are taken. An interrupted read
// has failed.
fn read_up_to<F: Read>(alloc: Global, file: &mut F, max: u64) -> Result<Vec<u8>, ShelfFault>
    ensures taken { IfOk result
        (λ bytes. Consumes (F.remaining file.old) (F.remaining file.new) bytes.items) }
    ensures few { IfOk result (λ bytes. length bytes.items ≤ max + 1) }
    ensures whole { IfOk result (λ bytes. length bytes.items ≤ max
        → IfSome (F.remaining file.old) (λ rest. bytes.items ≡ rest)) }
    ensures at_most { TakesAtMost (F.remaining file.old) (F.remaining file.new) (max + 1) }
    ensures faults { (most : ℕ) → result ≡ Err (ShelfFault.TooLong most) → ⊥ }
{
    let mut buffer = [0; BUFFER_SIZE];
    let mut bytes = Vec::new(alloc);
    while bytes.len() as u64 <= max {
        let room = max - bytes.len() as u64;
        if take_some(file, &mut buffer, room, &mut bytes)? == 0 {
            return Ok(bytes);
        }
    }
    Ok(bytes)
}

// All bytes of a reader, of which there are at most `max`.
#[tactic(auto, using(crate::proofs::TakingLemmas::consumes_long))]
fn read_whole<F: Read>(alloc: Global, file: &mut F, max: u64) -> Result<Vec<u8>, ShelfFault>
    ensures reading { IfSome (F.remaining file.old) (λ rest. IsReading (Some rest) max result) }
    ensures at_most { TakesAtMost (F.remaining file.old) (F.remaining file.new) (max + 1) }
    ensures too_long { (most : ℕ) → result ≡ Err (ShelfFault.TooLong most) → most ≡ max }
    ensures short { IfOk result (λ bytes. vec_len bytes ≤ max) }
{
    let bytes = read_up_to(alloc, file, max)?;
    if max < bytes.len() as u64 {
        return Err(ShelfFault::TooLong { max });
    }
    Ok(bytes)
}

// The bytes of the file of that name.
fn read_file<R: Files>(rt: &R, alloc: Global, name: &[u8], max: u64) -> Result<Vec<u8>, ShelfFault>
    ensures text { ¬ (IsUtf8 name.now) → IsErrOf result ShelfFault.Failed }
    ensures too_long { (most : ℕ) → result ≡ Err (ShelfFault.TooLong most) → most ≡ max }
    ensures short { IfOk result (λ bytes. vec_len bytes ≤ max) }
{
    let Ok(path) = str::from_utf8(name) else {
        return Err(ShelfFault::Failed);
    };
    let Ok(mut file) = fs::open(rt, path) else {
        return Err(ShelfFault::Failed);
    };
    read_whole(alloc, &mut file, max)
}

impl<'a, R: Files> Shelf for FsShelf<'a, R> {
    ghost use Rattle.std.specs.Prelude.{None};

    ghost holds = { λ _. None };

    ghost faults = { λ s _. s };

    fn read(&mut self, name: &[u8], max: u64) -> Result<Vec<u8>, ShelfFault>
        ensures counts { (other : List ℕ) → self.old ≤ self.new }
        ensures failed { IsErrOf result ShelfFault.Failed → HasRisen self.old self.new }
        ensures too_long { (most : ℕ) → result ≡ Err (ShelfFault.TooLong most) → most ≡ max }
        ensures short { IfOk result (λ bytes. vec_len bytes ≤ max) }

        // A name must be UTF-8, and just what failed is counted.
        ensures text { ¬ (IsUtf8 name.now) → IsErrOf result ShelfFault.Failed }
        ensures counted { IsErrOf result ShelfFault.Failed → self.new ≡ raised self.old }
        ensures uncounted { ¬ (IsErrOf result ShelfFault.Failed) → self.new ≡ self.old }
    {
        let result = read_file(self.rt, self.alloc, name, max);
        if let Err(ShelfFault::Failed) = result {
            self.faults = self.faults.saturating_add(1);
        }
        result
    }
}
