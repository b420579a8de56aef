//! Processes.
ghost use Rattle.std.specs.Prelude.{◌≡◌, OnErr, OnOk};
ghost use Rattle.wf_process.specs.Processes.{with_room};

use crate::Body;
use std::marker::Model;
use wf_flat::Entry;
use wf_outside::{Delta, Image, Limits, Memory};
use wf_views::Roomy;

/// A simulated process: the patches of its run, the image, the count of harts and the sizes that it
/// started with; what it consists of now; and its journal. Each method that changes it appends its
/// entries, for which there is room, and which are allowed.
#[derive(Drop)]
pub struct Process {
    pub(crate) deltas: Vec<Delta>,
    pub(crate) image: Image,
    pub(crate) count: u8,
    pub(crate) limits: Limits,
    pub(crate) body: Body,
    pub(crate) entries: Roomy<Entry>,
}

impl Model for Process {
    ghost use Rattle.wf_process.specs.Processes.{ProcessValue, IsProcess, process_from, start_of};

    ghost Value = { ProcessValue };

    ghost view = { λ p. process_from (start_of p.deltas.items p.image p.count p.limits) p.entries };

    ghost invariant = { λ p.
        IsProcess (start_of p.deltas.items p.image p.count p.limits) p.entries.items p.body };
}

impl Process {
    /// Makes room for so many entries, unless there is more already.
    ///
    /// # Errors
    ///
    /// `Memory` where it runs out; nothing has changed then.
    pub fn reserve(&mut self, room: u64) -> Result<(), Memory>
        ensures ok { OnOk result (self.new ≡ with_room room self.old) }
        ensures err { OnErr result (self.new ≡ self.old) }
    {
        self.entries.reserve(room)
    }
}
