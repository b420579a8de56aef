//! What each entry of a hart changes.
ghost use Rattle.std.specs.Prelude.{◌≡◌, ◌<◌, ◌%◌, ℕ, false, true, length, map, slice_get};
ghost use Rattle.std.specs.Option.{option_map};
ghost use Rattle.wf_outside.specs.declared.sizes.TheConstants.{PAGE_SIZE};
ghost use Rattle.wf_flat.specs.Refusals.{refused_answer};
ghost use Rattle.wf_flat.specs.Steps.{OfHart, arch_after, is_conditional, want_in, access_in};
ghost use Rattle.wf_flat.specs.Changes.{fetched_with, ended, exited_with, trapped_with, answered, without, taken_by, put_with, written_by, give_back, change_hart, leave_hart, reserves, looked_with, reservation_of, swapped_by, missed, page_taken, bytes_put, bytes_swapped, try_ended, page_met, entered};
ghost use Rattle.wf_flat.specs.Serving.{IsAlone, IsPlace, held_by};
ghost use Rattle.wf_outside.specs.Lists.{IsRising};
ghost use Rattle.wf_outside.specs.Pages.{page_of};
ghost use Rattle.wf_flat.specs.Memory.{data_in, met_key, with_met};
ghost use Rattle.wf_flat.specs.Ordered.{IsOrdered, page_numbers, HasOneMore};

use crate::{Actor, Flat, FlatHart, Life, Reservation};
use rv_inst::Arch;
use wf_outside::{PAGE_SIZE, Refusal};

impl FlatHart {
    // A try begins with this word.
    fn fetch(&mut self, word: u32)
        ensures { self.new ≡ fetched_with word self.old }
    {
        self.fetched = Some(word);
        self.looked = None;
        self.put = false;
        self.moved.clear();
    }

    // The try ends, with the pc and registers after its instruction.
    fn end(&mut self, next: Arch)
        requires { next ≡ arch_after self.old }
        ensures { self.new ≡ ended self.old }
    {
        self.arch = next;
        self.fetched = None;
    }

    // The try ends, and the hart stops.
    fn exit(&mut self, code: u64)
        ensures { self.new ≡ exited_with code self.old }
    {
        self.fetched = None;
        self.life = Life::Exited { code };
    }

    // The try, if the hart is in one, ends, and the hart stops.
    fn trap(&mut self, cause: u8, value: u64)
        ensures { self.new ≡ trapped_with cause value self.old }
    {
        self.fetched = None;
        self.life = Life::Trapped { cause, value };
    }

    // Its write is made.
    fn write(&mut self)
        requires { is_conditional (want_in self.old) ≡ false }
        ensures { self.new ≡ written_by self.old }
    {
        self.looked = Some(0);
        self.put = true;
    }

    // Its write is made, which is a store-conditional's.
    fn write_if(&mut self)
        requires { is_conditional (want_in self.old) ≡ true }
        ensures { self.new ≡ written_by self.old }
    {
        self.looked = Some(0);
        self.put = true;
        self.reservation = None;
    }

    // Its atomic memory operation is made, which read this.
    fn swap(&mut self, got: u64)
        ensures { self.new ≡ swapped_by got self.old }
    {
        self.looked = Some(got);
        self.put = true;
    }

    // Its store-conditional misses.
    fn miss(&mut self)
        ensures { self.new ≡ missed self.old }
    {
        self.looked = Some(1);
        self.reservation = None;
    }

    // Its load-reserved has this answer, and leaves this.
    fn reserve(&mut self, answer: u64, reservation: Option<Reservation>)
        ensures { self.new ≡ record (answered answer self.old) { reservation = reservation } }
    {
        self.looked = Some(answer);
        self.reservation = reservation;
    }

    // Its call, or its access, has this answer.
    fn answer(&mut self, answer: u64)
        ensures { self.new ≡ answered answer self.old }
    {
        self.looked = Some(answer);
    }
}

/// The answer of a refused call, in a0: the number of the refusal, negated, modulo 2^64.
pub fn answer_of(reason: Refusal) -> u64
    ensures { result ≡ refused_answer reason }
{
    let number: u64 = match reason {
        Refusal::Argument => 1,
        Refusal::Overlap { .. } => 2,
        Refusal::Absent { .. } => 3,
        Refusal::Leaving { .. } => 4,
        Refusal::NoFrames { .. } => 5,
        Refusal::NoView { .. } => 6,
        Refusal::NotEmpty { .. } => 7,
        Refusal::Inside { .. } => 8,
        Refusal::Views => 9,
        Refusal::Number { .. } => 10,
        Refusal::Lacks { .. } => 0,
    };
    number.wrapping_neg()
}

#[tactic(auto, using(crate::proofs::HartLemmas::hart_changes))]
impl Flat {
    /// The change of a Fetch by this hart.
    pub fn fetch(&mut self, hart: u8, pc: u64, word: u32)
        requires { hart < length self.old.harts }
        ensures state { self.new ≡ change_hart self.old hart (fetched_with word) }
        ensures hart { slice_get self.new.harts hart
            ≡ option_map (fetched_with word) (slice_get self.old.harts hart) }
    {
        let state = &mut self.harts[hart as usize];
        state.fetch(word);
    }

    /// The hart leaves the kernel, if it is inside.
    pub fn leave(&mut self, hart: u8)
        ensures { self.new
            ≡ record self.old { inside = without self.old.inside (Actor.Hart hart) } }
    {
        if self.inside == Some(Actor::Hart(hart)) {
            self.inside = None;
        }
    }

    /// The change of a Look by this hart, which is no load-reserved.
    pub fn look(&mut self, hart: u8, va: u64, width: u8, value: u64)
        requires { OfHart self.old hart (λ state. reserves (want_in state) ≡ false) }
        ensures state { self.new
            ≡ change_hart self.old hart (looked_with self.old va width value) }
        ensures hart { slice_get self.new.harts hart
            ≡ option_map (answered value) (slice_get self.old.harts hart) }
    {
        let state = &mut self.harts[hart as usize];
        state.answer(value);
    }

    // What a load-reserved leaves.
    fn reservation_at(&self, va: u64, width: u8) -> Option<Reservation>
        requires { IsOrdered self.now }
        ensures { result ≡ reservation_of self.now va width (data_in self.now.pages (page_of va)) }
    {
        let page = self.data_page(va / PAGE_SIZE)?;
        if page.writes < self.limits.last_writes {
            Some(Reservation {
                va,
                width,
                birth: page.birth,
                writes: page.writes,
            })
        } else {
            None
        }
    }

    /// The change of a Look by this hart, which is a load-reserved. It takes time in the logarithm
    /// of the pages.
    pub fn reserve(&mut self, hart: u8, va: u64, width: u8, value: u64)
        requires reserves { OfHart self.old hart (λ state. reserves (want_in state) ≡ true) }
        requires ordered { IsOrdered self.old }
        ensures state { self.new
            ≡ change_hart self.old hart (looked_with self.old va width value) }
        ensures hart { slice_get self.new.harts hart
            ≡ option_map (looked_with self.old va width value) (slice_get self.old.harts hart) }
    {
        let reservation = self.reservation_at(va, width);
        let state = &mut self.harts[hart as usize];
        state.reserve(value, reservation);
    }

    /// The change of a Take by this hart, where no other hart is in a try. It takes time in the
    /// logarithm of the pages.
    pub fn take(&mut self, hart: u8, page: u32)
        requires alone { IsAlone self.old hart }
        requires there { hart < length self.old.harts }
        requires ordered { IsOrdered self.old }
        ensures state { self.new ≡ page_taken self.old hart page }
        ensures harts { self.new.harts ≡ self.old.harts }
        ensures page { data_in self.new.pages page
            ≡ option_map (taken_by hart) (data_in self.old.pages page) }
        ensures ordered { IsOrdered self.new }
        ensures numbers { page_numbers self.new.pages ≡ page_numbers self.old.pages }
    {
        self.take_page(page as u64, hart);
    }

    // The write of a hart is made.
    fn write(&mut self, hart: u8)
        requires { OfHart self.old hart (λ state. is_conditional (want_in state) ≡ false) }
        ensures { self.new ≡ change_hart self.old hart written_by }
    {
        let state = &mut self.harts[hart as usize];
        state.write();
    }

    /// The change of a Put by this hart, which is no store-conditional. It takes time in the
    /// logarithm of the pages.
    pub fn put(&mut self, hart: u8, va: u64, width: u8, value: u64)
        requires plain { OfHart self.old hart (λ state. is_conditional (want_in state) ≡ false) }
        requires place { IsPlace va width }
        requires ordered { IsOrdered self.old }
        ensures state { self.new ≡ bytes_put self.old hart va width value }
        ensures hart { slice_get self.new.harts hart
            ≡ option_map written_by (slice_get self.old.harts hart) }
        ensures page { data_in self.new.pages (page_of va)
            ≡ option_map (put_with (va % PAGE_SIZE) width value)
            (data_in self.old.pages (page_of va)) }
        ensures ordered { IsOrdered self.new }
        ensures numbers { page_numbers self.new.pages ≡ page_numbers self.old.pages }
    {
        self.put_page(va, width, value);
        self.write(hart);
    }

    // The write of a hart is made, which is a store-conditional's.
    fn write_if(&mut self, hart: u8)
        requires { OfHart self.old hart (λ state. is_conditional (want_in state) ≡ true) }
        ensures { self.new ≡ change_hart self.old hart written_by }
    {
        let state = &mut self.harts[hart as usize];
        state.write_if();
    }

    /// The change of a Put by this hart, which is a store-conditional. It takes time in the
    /// logarithm of the pages.
    pub fn put_if(&mut self, hart: u8, va: u64, width: u8, value: u64)
        requires conditional { OfHart self.old hart
            (λ state. is_conditional (want_in state) ≡ true) }
        requires place { IsPlace va width }
        requires ordered { IsOrdered self.old }
        ensures state { self.new ≡ bytes_put self.old hart va width value }
        ensures hart { slice_get self.new.harts hart
            ≡ option_map written_by (slice_get self.old.harts hart) }
        ensures page { data_in self.new.pages (page_of va)
            ≡ option_map (put_with (va % PAGE_SIZE) width value)
            (data_in self.old.pages (page_of va)) }
        ensures ordered { IsOrdered self.new }
        ensures numbers { page_numbers self.new.pages ≡ page_numbers self.old.pages }
    {
        self.put_page(va, width, value);
        self.write_if(hart);
    }

    // The atomic memory operation of a hart is made, which read this.
    fn exchange(&mut self, hart: u8, got: u64)
        requires { hart < length self.old.harts }
        ensures { self.new ≡ change_hart self.old hart (swapped_by got) }
    {
        let state = &mut self.harts[hart as usize];
        state.swap(got);
    }

    /// The change of a Swap by this hart, which read one value and writes another. It takes time in
    /// the logarithm of the pages.
    pub fn swap(&mut self, hart: u8, va: u64, width: u8, got: u64, value: u64)
        requires there { hart < length self.old.harts }
        requires place { IsPlace va width }
        requires ordered { IsOrdered self.old }
        ensures state { self.new ≡ bytes_swapped self.old hart va width got value }
        ensures hart { slice_get self.new.harts hart
            ≡ option_map (swapped_by got) (slice_get self.old.harts hart) }
        ensures page { data_in self.new.pages (page_of va)
            ≡ option_map (put_with (va % PAGE_SIZE) width value)
            (data_in self.old.pages (page_of va)) }
        ensures ordered { IsOrdered self.new }
        ensures numbers { page_numbers self.new.pages ≡ page_numbers self.old.pages }
    {
        self.put_page(va, width, value);
        self.exchange(hart, got);
    }

    /// The change of a Miss of this hart.
    pub fn miss(&mut self, hart: u8, va: u64)
        requires { hart < length self.old.harts }
        ensures state { self.new ≡ change_hart self.old hart missed }
        ensures hart { slice_get self.new.harts hart
            ≡ option_map missed (slice_get self.old.harts hart) }
    {
        let state = &mut self.harts[hart as usize];
        state.miss();
    }

    // Whether a hart has made its write.
    fn has_put(&self, hart: u8) -> bool
        requires { hart < length self.now.harts }
        ensures { OfHart self.now hart (λ state. result ≡ state.put) }
    {
        let state = &self.harts[hart as usize];
        state.put
    }

    // The hart gives back the page of its access that it holds; no other hart is in a try.
    fn give_back(&mut self, hart: u8, held: Option<u32>)
        requires alone { IsAlone self.old hart }
        requires ordered { IsOrdered self.old }
        requires held { OfHart self.old hart
            (λ state. held ≡ held_by self.old hart (access_in state)) }
        ensures state { self.new ≡ give_back self.old hart }
        ensures harts { self.new.harts ≡ self.old.harts }
        ensures inside { self.new.inside ≡ self.old.inside }
        ensures ordered { IsOrdered self.new }
        ensures numbers { page_numbers self.new.pages ≡ page_numbers self.old.pages }
    {
        if let Some(page) = held {
            let put = self.has_put(hart);
            self.give_page(page as u64, put);
        }
    }

    /// A hart leaves the kernel, if it is inside, and its try ends: `next` are the pc and registers
    /// after its instruction or its call.
    pub fn finish(&mut self, hart: u8, next: Arch)
        requires { OfHart self.old hart (λ state. next ≡ arch_after state) }
        ensures { self.new ≡ leave_hart self.old hart ended }
    {
        self.leave(hart);
        let state = &mut self.harts[hart as usize];
        state.end(next);
    }

    /// The change of an End by this hart, where no other hart is in a try. `next` are the pc and
    /// registers after its instruction or its call, and `held` is the page of its access, if it
    /// holds it.
    pub fn end(&mut self, hart: u8, held: Option<u32>, next: Arch)
        requires alone { IsAlone self.old hart }
        requires ordered { IsOrdered self.old }
        requires held { OfHart self.old hart
            (λ state. held ≡ held_by self.old hart (access_in state)) }
        requires next { OfHart self.old hart (λ state. next ≡ arch_after state) }
        ensures state { self.new ≡ try_ended self.old hart }
        ensures hart { slice_get self.new.harts hart
            ≡ option_map ended (slice_get self.old.harts hart) }
        ensures ordered { IsOrdered self.new }
        ensures numbers { page_numbers self.new.pages ≡ page_numbers self.old.pages }
    {
        self.give_back(hart, held);
        self.finish(hart, next);
    }

    /// The change of a Sync by this hart, where no other hart is in a try. `met` is what the
    /// generations have met with the page that this one meets now, as `met_with` makes it.
    pub fn sync(&mut self, hart: u8, met: Vec<(u32, u32)>)
        requires alone { IsAlone self.old hart }
        requires there { hart < length self.old.harts }
        requires ordered { IsOrdered self.old }
        requires more { HasOneMore self.old.met met.items }
        requires rising { IsRising (map met_key met.items) }
        ensures state { (generation page : ℕ) → met.items ≡ with_met self.old.met generation page
            → self.new ≡ page_met self.old hart generation page }
        ensures harts { self.new.harts ≡ self.old.harts }
        ensures ordered { IsOrdered self.new }
        ensures pages { self.new.pages ≡ self.old.pages }
    {
        self.leave(hart);
        self.set_met(met);
    }

    /// The change of an Enter.
    pub fn enter(&mut self, actor: Actor)
        ensures { self.new ≡ entered self.old actor }
    {
        self.inside = Some(actor);
    }

    /// The change of an Exit by this hart.
    pub fn exit(&mut self, hart: u8, code: u64)
        requires { hart < length self.old.harts }
        ensures state { self.new ≡ leave_hart self.old hart (exited_with code) }
        ensures hart { slice_get self.new.harts hart
            ≡ option_map (exited_with code) (slice_get self.old.harts hart) }
    {
        self.leave(hart);
        let state = &mut self.harts[hart as usize];
        state.exit(code);
    }

    /// The change of a Trap of this hart.
    pub fn trap(&mut self, hart: u8, cause: u8, value: u64)
        requires { hart < length self.old.harts }
        ensures state { self.new ≡ leave_hart self.old hart (trapped_with cause value) }
        ensures hart { slice_get self.new.harts hart
            ≡ option_map (trapped_with cause value) (slice_get self.old.harts hart) }
    {
        self.leave(hart);
        let state = &mut self.harts[hart as usize];
        state.trap(cause, value);
    }

    /// The change of an Out by this hart.
    pub fn out(&mut self, hart: u8, byte: u8)
        requires { hart < length self.old.harts }
        ensures state { self.new ≡ change_hart self.old hart (answered 0) }
        ensures hart { slice_get self.new.harts hart
            ≡ option_map (answered 0) (slice_get self.old.harts hart) }
    {
        let state = &mut self.harts[hart as usize];
        state.answer(0);
    }

    /// The change of a Refused of a call of this hart.
    pub fn refuse(&mut self, hart: u8, reason: Refusal)
        requires { hart < length self.old.harts }
        ensures state { self.new
            ≡ change_hart self.old hart (answered (refused_answer reason)) }
        ensures hart { slice_get self.new.harts hart
            ≡ option_map (answered (refused_answer reason)) (slice_get self.old.harts hart) }
    {
        let answer = answer_of(reason);
        let state = &mut self.harts[hart as usize];
        state.answer(answer);
    }
}
