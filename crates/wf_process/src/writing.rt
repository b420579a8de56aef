//! Whole stores and atomic operations: each takes the page of its access, writes, and ends.
ghost use Rattle.std.specs.Prelude.{◌≡◌, ◌≤◌};
ghost use Rattle.wf_flat.specs.Changes.{swapped_by, written_by};
ghost use Rattle.wf_flat.specs.Serving.{IsPlace};
ghost use Rattle.wf_flat.specs.Steps.{OfHart, arch_after, is_conditional, want_in};
ghost use Rattle.wf_legal.specs.Legal.{IsLegal};
ghost use Rattle.wf_process.specs.Processes.{with_entries};
ghost use Rattle.wf_process.specs.Writing.{store_entries, swap_entries};

use crate::events::note;
use crate::{Process, Write};
use rv_inst::Arch;
use wf_flat::{Actor, Event};
use wf_outside::PAGE_SIZE;

impl Process {
    /// A hart's store, or a store-conditional (`conditional`) that doesn't miss: it takes the page
    /// of its access, writes these bytes, and its instruction ends, with these registers; a
    /// store-conditional leaves no reservation. Three entries.
    pub fn store(&mut self, hart: u8, write: Write, conditional: bool, next: Arch)
        requires room { 3 ≤ self.old.room }
        requires may { IsLegal self.old.moment (store_entries hart write next.pc) }
        requires place { IsPlace write.va write.width }
        requires which { OfHart self.old.moment.flat hart
            (λ state. is_conditional (want_in state) ≡ conditional) }
        requires next { OfHart self.old.moment.flat hart
            (λ state. next ≡ arch_after (written_by state)) }
        ensures { self.new ≡ with_entries (store_entries hart write next.pc) self.old }
    {
        let generation = self.body.hart(hart).generation;
        let page = (write.va / PAGE_SIZE) as u32;
        let pc = next.pc;
        self.body.write(generation, write);
        self.body.end_write(hart, 0, conditional, next);
        let actor = Actor::Hart(hart);
        let Write { va, width, value } = write;
        note(&mut self.entries, actor, Event::Take { page });
        note(&mut self.entries, actor, Event::Put { va, width, value });
        note(&mut self.entries, actor, Event::End { pc });
    }

    /// A hart's atomic operation: it takes the page of its access, reads `got` there and writes
    /// these bytes, and its instruction ends, with these registers. Three entries.
    pub fn swap(&mut self, hart: u8, write: Write, got: u64, next: Arch)
        requires room { 3 ≤ self.old.room }
        requires may { IsLegal self.old.moment (swap_entries hart write got next.pc) }
        requires place { IsPlace write.va write.width }
        requires next { OfHart self.old.moment.flat hart
            (λ state. next ≡ arch_after (swapped_by got state)) }
        ensures { self.new ≡ with_entries (swap_entries hart write got next.pc) self.old }
    {
        let generation = self.body.hart(hart).generation;
        let page = (write.va / PAGE_SIZE) as u32;
        let pc = next.pc;
        self.body.write(generation, write);
        self.body.end_write(hart, got, false, next);
        let actor = Actor::Hart(hart);
        let Write { va, width, value } = write;
        note(&mut self.entries, actor, Event::Take { page });
        note(
            &mut self.entries,
            actor,
            Event::Swap {
                va,
                width,
                old: got,
                new: value,
            },
        );
        note(&mut self.entries, actor, Event::End { pc });
    }
}
