//! Where output is put.
ghost use Rattle.std.specs.Prelude.{◌≡◌, ◌/◌, ◌≤◌, ◌++◌, [], List, ℕ, Option, Some, None, take, length, Contains, OnOk, IsErrOf};
ghost use Rattle.wf_outside.specs.Files.{raised, HasRisen};
ghost use Rattle.wf_outside.specs.Puts.{Appends, AppendsPrefix};

use std::alloc::{AllocError, Global};
use std::marker::Model;

/// Why not all bytes were put.
#[derive(Clone, Copy, Debug, PartialEq, Eq)]
pub enum SinkFault {
    /// The first of the bytes may have been put, and the others were not.
    Failed,
    /// Memory ran out, and nothing was put.
    Memory,
}

impl From<AllocError> for SinkFault {
    ghost use Rattle.std.specs.Prelude.{◌≡◌};
    ghost use Rattle.wf_outside.specs.declared.sink.SinkFault.TheVariants.{Memory};

    ghost from_gives = { λ _ e. e ≡ Memory };

    fn from(_: AllocError) -> Self {
        SinkFault::Memory
    }
}

/// Takes bytes.
pub trait Sink {
    /// The bytes so far, where it tells them.
    ghost got: { Self → Option (List ℕ) };

    /// How often a put has failed.
    ghost faults: { Self → ℕ };

    /// Puts the bytes behind those so far.
    fn put(&mut self, bytes: &[u8]) -> Result<(), SinkFault>
        ensures ok { OnOk result (Appends (got self.old) (got self.new) bytes.now) }
        ensures prefix { AppendsPrefix (got self.old) (got self.new) bytes.now }
        ensures memory { IsErrOf result SinkFault.Memory → got self.new ≡ got self.old }
        ensures count { faults self.old ≤ faults self.new }
        ensures failed { IsErrOf result SinkFault.Failed
            → HasRisen (faults self.old) (faults self.new) };
}

/// Keeps what it is given.
#[derive(Drop)]
pub struct MemSink {
    got: Vec<u8>,
    fail: Vec<u64>,
    calls: u64,
    faults: u64,
}

impl Model for MemSink {
    ghost use Rattle.wf_outside.specs.MemFiles.{MemSinkValue};

    ghost Value = { MemSinkValue };

    ghost view = { λ s. record {
      got = s.got.items;
      fail = s.fail.items;
      calls = s.calls;
      faults = s.faults;
    } };
}

impl MemSink {
    /// An empty sink, whose puts with these numbers fail. The first put has number 0.
    pub fn new(alloc: Global, fail: Vec<u64>) -> MemSink
        ensures { result ≡ record { got = []; fail = fail.items; calls = 0; faults = 0 } }
    {
        MemSink {
            got: Vec::new(alloc),
            fail,
            calls: 0,
            faults: 0,
        }
    }

    /// The bytes so far.
    pub fn got(&self) -> &[u8]
        ensures { result.now ≡ self.now.got }
    {
        &self.got
    }
}

impl Sink for MemSink {
    ghost use Rattle.std.specs.Prelude.{Some};

    ghost got = { λ s. Some s.got };

    ghost faults = { λ s. s.faults };

    /// A put whose number is in the list takes the first half of the bytes, rounded down, and then
    /// fails. No clause says when memory runs out; then nothing is taken.
    fn put(&mut self, bytes: &[u8]) -> Result<(), SinkFault>
        ensures ok { OnOk result (Some self.new.got ≡ Some (self.old.got ++ bytes.now)) }
        ensures prefix { AppendsPrefix (Some self.old.got) (Some self.new.got) bytes.now }
        ensures memory { IsErrOf result SinkFault.Memory → Some self.new.got ≡ Some self.old.got }
        ensures count { self.old.faults ≤ self.new.faults }
        ensures failed { IsErrOf result SinkFault.Failed
            → HasRisen self.old.faults self.new.faults }

        // When each answer comes, and what is taken where it fails.
        ensures fails { IsErrOf result SinkFault.Failed → Contains self.old.fail self.old.calls }
        ensures passes { OnOk result (¬ (Contains self.old.fail self.old.calls)) }
        ensures half { IsErrOf result SinkFault.Failed
            → self.new.got ≡ self.old.got ++ take (length bytes.now / 2) bytes.now }

        // What the sink is then.
        ensures numbers { self.new.fail ≡ self.old.fail }
        ensures calls { self.new.calls ≡ raised self.old.calls }
        ensures counted { IsErrOf result SinkFault.Failed
            → self.new.faults ≡ raised self.old.faults }
        ensures uncounted { ¬ (IsErrOf result SinkFault.Failed)
            → self.new.faults ≡ self.old.faults }
    {
        let number = self.calls;
        self.calls = number.saturating_add(1);
        if self.fail.contains(&number) {
            self.got.extend_from_slice(&bytes[..bytes.len() / 2])?;
            self.faults = self.faults.saturating_add(1);
            return Err(SinkFault::Failed);
        }
        Ok(self.got.extend_from_slice(bytes)?)
    }
}

/// The standard output. It tells nothing of what came there, and counts the writes that failed; the
/// count stays at 2^64 - 1.
#[derive(Drop)]
pub struct StdSink<'a, R> {
    rt: &'a R,
    faults: u64,
}

impl<'a, R> Model for StdSink<'a, R> {
    ghost use Rattle.std.specs.Prelude.{ℕ};

    ghost Value = { ℕ };

    ghost view = { λ s. s.faults };
}

impl<'a, R: Print> StdSink<'a, R> {
    /// The standard output of this runtime. As a value it is the count of the writes that failed.
    pub fn new(rt: &'a R) -> StdSink<'a, R>
        ensures { result ≡ 0 }
    {
        StdSink { rt, faults: 0 }
    }
}

impl<'a, R: Print> Sink for StdSink<'a, R> {
    ghost use Rattle.std.specs.Prelude.{None};

    ghost got = { λ _. None };

    ghost faults = { λ s. s };

    /// Writes the bytes at once: nothing waits to be flushed.
    fn put(&mut self, bytes: &[u8]) -> Result<(), SinkFault>
        ensures ok { OnOk result (Appends None None bytes.now) }
        ensures prefix { AppendsPrefix None None bytes.now }
        ensures memory { ¬ (IsErrOf result SinkFault.Memory) }
        ensures count { self.old ≤ self.new }
        ensures failed { IsErrOf result SinkFault.Failed → HasRisen self.old self.new }

        // Just what failed is counted.
        ensures counted { IsErrOf result SinkFault.Failed → self.new ≡ raised self.old }
        ensures uncounted { OnOk result (self.new ≡ self.old) }
    {
        if self.rt.write_all(bytes).is_err() {
            self.faults = self.faults.saturating_add(1);
            return Err(SinkFault::Failed);
        }
        Ok(())
    }
}
