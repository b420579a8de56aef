//! What is read of the harts of a process.
ghost use Rattle.std.specs.Prelude.{◌≡◌, ◌<◌, length};
ghost use Rattle.wf_flat.specs.Accesses.{generation_text};
ghost use Rattle.wf_flat.specs.Memory.{word_at};
ghost use Rattle.wf_flat.specs.Serving.{IsPlace};
ghost use Rattle.wf_flat.specs.Steps.{OfHart, OfRunning};
ghost use Rattle.wf_sound.specs.Sound.{IsSound};
ghost use Rattle.wf_process.specs.Bodies.{IsTold};
ghost use Rattle.wf_process.specs.Finding.{IsFoundAt, text_bytes};

use crate::{Found, KeptHart, Process};
use rv_inst::Arch;
use wf_flat::{Actor, Entry, Life};

impl Process {
    /// The invariant of the flat machine holds at the moment where the process stands.
    pub fn keeps_sound(&self)
        ensures { IsSound self.now.moment }
    {
        let _entries = &self.entries;
    }

    // A hart as it is kept.
    fn kept(&self, hart: u8) -> &KeptHart
        requires { hart < length self.now.moment.flat.harts }
        ensures { OfHart self.now.moment.flat hart (IsTold result.now) }
    {
        self.body.hart(hart)
    }

    /// The generation of a hart.
    pub fn generation(&self, hart: u8) -> u32
        requires { hart < length self.now.moment.flat.harts }
        ensures { OfHart self.now.moment.flat hart (λ state. result ≡ state.generation) }
    {
        self.kept(hart).generation
    }

    /// The pc and registers of a hart.
    pub fn arch(&self, hart: u8) -> Arch
        requires { hart < length self.now.moment.flat.harts }
        ensures { OfHart self.now.moment.flat hart (λ state. result ≡ state.arch) }
    {
        self.kept(hart).arch
    }

    /// Whether a hart runs, or how it stopped.
    pub fn life(&self, hart: u8) -> Life
        requires { hart < length self.now.moment.flat.harts }
        ensures { OfHart self.now.moment.flat hart (λ state. result ≡ state.life) }
    {
        self.kept(hart).life
    }

    /// The word at the pc of a hart that runs, by a walk of its generation's table; `None` where
    /// the page there is no text of the generation.
    pub fn text_word(&self, hart: u8) -> Option<u32>
        requires { OfRunning self.now.moment.flat hart (λ state. Unit {0}) }
        ensures { OfHart self.now.moment.flat hart
            (λ state. result
            ≡ word_at (generation_text self.now.moment.flat state.generation) state.arch.pc) }
    {
        let state = self.body.hart(hart);
        self.body.fetch_at(state.generation, state.arch.pc)
    }

    /// The bytes at an address, where its page is text of the generation of the hart, which runs.
    pub fn text_value(&self, hart: u8, va: u64, width: u8) -> Option<u64>
        requires runs { OfRunning self.now.moment.flat hart (λ state. Unit {0}) }
        requires place { IsPlace va width }
        ensures { OfHart self.now.moment.flat hart
            (λ state. result ≡ text_bytes self.now.moment.flat state.generation va width) }
    {
        let generation = self.body.hart(hart).generation;
        self.body.text_number(generation, va, width)
    }

    /// What an access of a hart that runs finds in the data at an address: by the walk of its
    /// generation's table, and where that finds no leaf, by the records.
    pub fn found_at(&self, hart: u8, va: u64) -> Option<Found>
        requires { OfRunning self.now.moment.flat hart (λ state. Unit {0}) }
        ensures { OfHart self.now.moment.flat hart
            (λ state. IsFoundAt self.now.moment.flat state.generation va result) }
    {
        let generation = self.body.hart(hart).generation;
        self.body.found_at(generation, va)
    }

    /// The actor that is inside the kernel.
    pub fn inside(&self) -> Option<Actor>
        ensures { result ≡ self.now.moment.flat.inside }
    {
        self.body.inside
    }

    /// The journal.
    pub fn entries(&self) -> &[Entry]
        ensures { result.now ≡ self.now.entries }
    {
        self.entries.as_slice()
    }
}
