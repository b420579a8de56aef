//! Entries that touch no page: each comes to the journal, and is applied.
ghost use Rattle.std.specs.Prelude.{◌≡◌, ◌<◌, None, false, true};
ghost use Rattle.wf_flat.specs.Changes.{reserves};
ghost use Rattle.wf_flat.specs.Serving.{held_by};
ghost use Rattle.wf_flat.specs.Steps.{OfHart, access_in, arch_after, want_in};
ghost use Rattle.wf_legal.specs.Legal.{Allows};
ghost use Rattle.wf_views.specs.Lists.{pushed};
ghost use Rattle.wf_process.specs.Processes.{with_entry};

use crate::Process;
use rv_inst::Arch;
use wf_flat::{Actor, Entry, Event, Life, WaitFor, answer_of};
use wf_outside::Refusal;
use wf_views::Roomy;

/// What an actor does comes to a journal that has room for it.
pub(crate) fn note(entries: &mut Roomy<Entry>, actor: Actor, event: Event)
    requires { 0 < entries.old.room }
    ensures { entries.new ≡ pushed (record { actor = actor; event = event }) entries.old }
{
    entries.push(Entry { actor, event });
}

impl Process {
    /// A hart fetches the word at its pc: a try begins.
    pub fn fetch(&mut self, hart: u8, pc: u64, word: u32)
        requires room { 0 < self.old.room }
        requires may { Allows self.old.moment (Actor.Hart hart) (Event.Fetch pc word) }
        ensures { self.new ≡ with_entry (Actor.Hart hart) (Event.Fetch pc word) self.old }
    {
        self.body.fetch(hart, word);
        note(
            &mut self.entries,
            Actor::Hart(hart),
            Event::Fetch { pc, word },
        );
    }

    /// A hart's load reads these bytes, and takes no page; it is no load-reserved.
    pub fn look(&mut self, hart: u8, va: u64, width: u8, value: u64)
        requires room { 0 < self.old.room }
        requires may { Allows self.old.moment (Actor.Hart hart) (Event.Look va width value) }
        requires plain { OfHart self.old.moment.flat hart
            (λ state. reserves (want_in state) ≡ false) }
        ensures { self.new ≡ with_entry (Actor.Hart hart) (Event.Look va width value) self.old }
    {
        self.body.answer(hart, value);
        note(
            &mut self.entries,
            Actor::Hart(hart),
            Event::Look { va, width, value },
        );
    }

    /// A hart's load-reserved reads these bytes, and takes no page. It leaves a reservation on a
    /// page of data below the last count of writes, and else none.
    pub fn look_reserved(&mut self, hart: u8, va: u64, width: u8, value: u64)
        requires room { 0 < self.old.room }
        requires may { Allows self.old.moment (Actor.Hart hart) (Event.Look va width value) }
        requires reserves { OfHart self.old.moment.flat hart
            (λ state. reserves (want_in state) ≡ true) }
        ensures { self.new ≡ with_entry (Actor.Hart hart) (Event.Look va width value) self.old }
    {
        let generation = self.body.hart(hart).generation;
        let reservation = self.body.reservation_at(generation, va, width);
        self.body.reserve(hart, value, reservation);
        note(
            &mut self.entries,
            Actor::Hart(hart),
            Event::Look { va, width, value },
        );
    }

    /// A hart's store-conditional at an address misses.
    pub fn miss(&mut self, hart: u8, va: u64)
        requires room { 0 < self.old.room }
        requires may { Allows self.old.moment (Actor.Hart hart) (Event.Miss va) }
        ensures { self.new ≡ with_entry (Actor.Hart hart) (Event.Miss va) self.old }
    {
        self.body.miss(hart);
        note(&mut self.entries, Actor::Hart(hart), Event::Miss { va });
    }

    /// A hart's instruction or call ends, with these registers after it; it holds no page, and
    /// leaves the kernel, if it is inside.
    pub fn end(&mut self, hart: u8, next: Arch)
        requires room { 0 < self.old.room }
        requires may { Allows self.old.moment (Actor.Hart hart) (Event.End next.pc) }
        requires next { OfHart self.old.moment.flat hart (λ state. next ≡ arch_after state) }
        requires free { OfHart self.old.moment.flat hart
            (λ state. held_by self.old.moment.flat hart (access_in state) ≡ None) }
        ensures { self.new ≡ with_entry (Actor.Hart hart) (Event.End next.pc) self.old }
    {
        let pc = next.pc;
        self.body.end(hart, next);
        note(&mut self.entries, Actor::Hart(hart), Event::End { pc });
    }

    /// A hart's try ends, since this page changed under it; it leaves the kernel, if it is inside.
    pub fn try_again(&mut self, hart: u8, page: u32)
        requires room { 0 < self.old.room }
        requires may { Allows self.old.moment (Actor.Hart hart) (Event.Again page) }
        ensures { self.new ≡ with_entry (Actor.Hart hart) (Event.Again page) self.old }
    {
        self.body.leave_try(hart);
        note(&mut self.entries, Actor::Hart(hart), Event::Again { page });
    }

    /// A hart's try ends, since another is in its way.
    pub fn wait(&mut self, hart: u8, on: WaitFor)
        requires room { 0 < self.old.room }
        requires may { Allows self.old.moment (Actor.Hart hart) (Event.Wait on) }
        ensures { self.new ≡ with_entry (Actor.Hart hart) (Event.Wait on) self.old }
    {
        self.body.give_up(hart);
        note(&mut self.entries, Actor::Hart(hart), Event::Wait { on });
    }

    /// An actor enters the kernel.
    pub fn enter(&mut self, actor: Actor)
        requires room { 0 < self.old.room }
        requires may { Allows self.old.moment actor Event.Enter }
        ensures { self.new ≡ with_entry actor Event.Enter self.old }
    {
        self.body.enter(actor);
        note(&mut self.entries, actor, Event::Enter);
    }

    /// A hart's call puts a byte.
    pub fn put_byte(&mut self, hart: u8, byte: u8)
        requires room { 0 < self.old.room }
        requires may { Allows self.old.moment (Actor.Hart hart) (Event.Out byte) }
        ensures { self.new ≡ with_entry (Actor.Hart hart) (Event.Out byte) self.old }
    {
        self.body.answer(hart, 0);
        note(&mut self.entries, Actor::Hart(hart), Event::Out { byte });
    }

    /// A hart's call is refused.
    pub fn refuse(&mut self, hart: u8, reason: Refusal)
        requires room { 0 < self.old.room }
        requires may { Allows self.old.moment (Actor.Hart hart) (Event.Refused reason) }
        ensures { self.new ≡ with_entry (Actor.Hart hart) (Event.Refused reason) self.old }
    {
        self.body.answer(hart, answer_of(reason));
        note(
            &mut self.entries,
            Actor::Hart(hart),
            Event::Refused { reason },
        );
    }

    /// A call of the kernel's own actor is refused, which leaves the kernel.
    pub fn refuse_kernel(&mut self, reason: Refusal)
        requires room { 0 < self.old.room }
        requires may { Allows self.old.moment Actor.Kernel (Event.Refused reason) }
        ensures { self.new ≡ with_entry Actor.Kernel (Event.Refused reason) self.old }
    {
        self.body.leave(Actor::Kernel);
        note(&mut self.entries, Actor::Kernel, Event::Refused { reason });
    }

    /// An actor has nothing to do.
    pub fn idle(&mut self, actor: Actor)
        requires room { 0 < self.old.room }
        requires may { Allows self.old.moment actor Event.Idle }
        ensures { self.new ≡ with_entry actor Event.Idle self.old }
    {
        note(&mut self.entries, actor, Event::Idle);
    }

    /// A hart stops at a trap; it leaves the kernel, inside which it is.
    pub fn trap(&mut self, hart: u8, cause: u8, value: u64)
        requires room { 0 < self.old.room }
        requires may { Allows self.old.moment (Actor.Hart hart) (Event.Trap cause value) }
        ensures { self.new ≡ with_entry (Actor.Hart hart) (Event.Trap cause value) self.old }
    {
        let generation = self.body.hart(hart).generation;
        self.body
            .stop(hart, generation, Life::Trapped { cause, value });
        note(
            &mut self.entries,
            Actor::Hart(hart),
            Event::Trap { cause, value },
        );
    }

    /// A hart exits; it leaves the kernel, inside which it is.
    pub fn exit(&mut self, hart: u8, code: u64)
        requires room { 0 < self.old.room }
        requires may { Allows self.old.moment (Actor.Hart hart) (Event.Exit code) }
        ensures { self.new ≡ with_entry (Actor.Hart hart) (Event.Exit code) self.old }
    {
        let generation = self.body.hart(hart).generation;
        self.body.stop(hart, generation, Life::Exited { code });
        note(&mut self.entries, Actor::Hart(hart), Event::Exit { code });
    }
}
