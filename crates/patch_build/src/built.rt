//! What is built.
ghost use Rattle.std.specs.Prelude.{◌≡◌};

use std::marker::Model;
use wf_outside::{Delta, Name};

/// A patch that was built: what it brings; its names, in the order of its object's symbol table;
/// and the first page behind its own.
#[derive(Drop)]
pub struct Built {
    pub delta: Delta,
    pub names: Vec<Name>,
    pub next: u32,
}

impl Model for Built {
    ghost use Rattle.patch_build.specs.Areas.{BuiltValue};

    ghost Value = { BuiltValue };

    ghost view = { λ b. record { delta = b.delta; names = b.names.items; next = b.next } };
}

impl Built {
    /// The first page behind its own.
    pub fn next(&self) -> u32
        ensures { result ≡ self.now.next }
    {
        self.next
    }
}
