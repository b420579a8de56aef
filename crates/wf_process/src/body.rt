//! What a process consists of: its memory, its harts, and who is inside the kernel.
ghost use Rattle.std.specs.Prelude.{◌≡◌, ◌<◌, IsSome, OnErr, OnOk, Some, length, slice_get};
ghost use Rattle.wf_flat.specs.Serving.{IsPlace};
ghost use Rattle.wf_translation.specs.Readings.{FetchIsRight};
ghost use Rattle.wf_translation.specs.Translations.{CanTranslate};
ghost use Rattle.wf_views.specs.Views.{view_of};
ghost use Rattle.wf_process.specs.Bodies.{with_entered, with_kept, with_left, with_left_kept, with_stopped};
ghost use Rattle.wf_process.specs.Finding.{FoundIsRight, TextIsRight};
ghost use Rattle.wf_process.specs.Harts as harts;
ghost use Rattle.wf_process.specs.Meeting.{CanMeetPage, HasMetPage};
ghost use Rattle.wf_process.specs.Reserving.{CanFindAt, LeavesReservation};
ghost use Rattle.wf_process.specs.Writing.{DataLiesAt, HasDataAt, HasStoredBytes};

use crate::finding::{found_at, text_number};
use crate::reserving::reservation_at;
use crate::{Found, KeptHart, Write};
use rv_inst::Arch;
use std::marker::Model;
use wf_access::{FrameBytes, store};
use wf_flat::{Actor, Life};
use wf_frames::Words;
use wf_homes::CoreReservation;
use wf_outside::{Memory, PAGE_SIZE};
use wf_residents::stop_hart;
use wf_space::{Space, carry_out};
use wf_translation::fetch;

/// The memory of a process, as words and the records of the kernel; its harts; and the actor that
/// is inside the kernel.
#[derive(Drop)]
pub struct Body {
    pub words: Words,
    pub space: Space,
    pub harts: Vec<KeptHart>,
    pub inside: Option<Actor>,
}

impl Model for Body {
    ghost use Rattle.wf_process.specs.Bodies.{BodyValue};

    ghost Value = { BodyValue };

    ghost view = { λ b. record {
      words = b.words;
      records = b.space.records;
      harts = b.harts.items;
      inside = b.inside;
    } };
}

impl Body {
    /// A hart.
    pub fn hart(&self, hart: u8) -> &KeptHart
        requires { hart < length self.now.harts }
        ensures { slice_get self.now.harts hart ≡ Some result.now }
    {
        &self.harts[hart as usize]
    }

    /// The four bytes at an address of a generation's text, by a walk of its table; `None` where
    /// its page is no text of the generation, which lives.
    pub fn fetch_at(&self, generation: u32, pc: u64) -> Option<u32>
        requires { CanTranslate self.now.words self.now.records generation }
        ensures { FetchIsRight self.now.words self.now.records generation pc result }
    {
        fetch(&self.words, &self.space.records, generation, pc)
    }

    /// The bytes at an address of a generation that lives, where its page is text of the
    /// generation.
    pub fn text_number(&self, generation: u32, va: u64, width: u8) -> Option<u64>
        requires can { CanTranslate self.now.words self.now.records generation }
        requires place { IsPlace va width }
        ensures { TextIsRight self.now.words self.now.records generation va width result }
    {
        text_number(&self.words, &self.space.records, generation, va, width)
    }

    /// What an access of a generation that lives finds in the data at an address.
    pub fn found_at(&self, generation: u32, va: u64) -> Option<Found>
        requires { CanTranslate self.now.words self.now.records generation }
        ensures { FoundIsRight self.now.words self.now.records generation va result }
    {
        found_at(&self.words, &self.space.records, generation, va)
    }

    /// An actor is inside the kernel.
    pub fn enter(&mut self, actor: Actor)
        ensures { self.new ≡ record self.old { inside = Some actor } }
    {
        self.inside = Some(actor);
    }

    /// An actor leaves the kernel, if it is inside.
    pub fn leave(&mut self, actor: Actor)
        ensures { self.new ≡ with_left self.old actor }
    {
        if self.inside == Some(actor) {
            self.inside = None;
        }
    }

    /// A hart's try begins with this word.
    pub fn fetch(&mut self, hart: u8, word: u32)
        requires { hart < length self.old.harts }
        ensures { self.new ≡ with_kept self.old hart (harts.kept_fetched word) }
    {
        let state = &mut self.harts[hart as usize];
        state.fetch(word);
    }

    /// A hart's call, or its access, has this answer.
    pub fn answer(&mut self, hart: u8, answer: u64)
        requires { hart < length self.old.harts }
        ensures { self.new ≡ with_kept self.old hart (harts.kept_answered answer) }
    {
        let state = &mut self.harts[hart as usize];
        state.answer(answer);
    }

    /// A hart's store-conditional misses.
    pub fn miss(&mut self, hart: u8)
        requires { hart < length self.old.harts }
        ensures { self.new ≡ with_kept self.old hart harts.kept_missed }
    {
        let state = &mut self.harts[hart as usize];
        state.miss();
    }

    /// A hart's try ends, and nothing came of it.
    pub fn give_up(&mut self, hart: u8)
        requires { hart < length self.old.harts }
        ensures { self.new ≡ with_kept self.old hart harts.kept_tried }
    {
        let state = &mut self.harts[hart as usize];
        state.give_up();
    }

    /// A hart's try ends, and nothing came of it; the hart leaves the kernel, if it is inside.
    pub fn leave_try(&mut self, hart: u8)
        requires { hart < length self.old.harts }
        ensures { self.new ≡ with_left_kept self.old hart harts.kept_tried }
    {
        self.leave(Actor::Hart(hart));
        let state = &mut self.harts[hart as usize];
        state.give_up();
    }

    /// A hart's instruction or call ends, with these registers; it leaves the kernel, if it is
    /// inside.
    pub fn end(&mut self, hart: u8, next: Arch)
        requires { hart < length self.old.harts }
        ensures { self.new ≡ with_left_kept self.old hart (harts.kept_ended next) }
    {
        self.leave(Actor::Hart(hart));
        let state = &mut self.harts[hart as usize];
        state.end(next);
    }

    /// A generation meets a page by a hart's call, which leaves the kernel.
    ///
    /// # Errors
    ///
    /// `Memory` where it runs out; what the body shows is as it was.
    pub fn meet(&mut self, hart: u8, generation: u32, page: u32) -> Result<(), Memory>
        requires { CanMeetPage self.old generation page }
        ensures met { OnOk result (HasMetPage self.old self.new hart generation page) }
        ensures err { OnErr result (self.new ≡ self.old) }
    {
        let plan = self.space.sync(generation, page)?;
        let _rising = self.space.records.views.len();
        carry_out(&mut self.words, &mut self.space.records, plan);
        self.leave(Actor::Hart(hart));
        Ok(())
    }

    /// A hart's try begins with this word, and it enters the kernel; a generation meets a page by
    /// this call, which leaves the kernel.
    ///
    /// # Errors
    ///
    /// `Memory` where it runs out; what the body shows is as it was.
    pub fn fetch_and_meet(
        &mut self,
        hart: u8,
        word: u32,
        generation: u32,
        page: u32,
    ) -> Result<(), Memory>
        requires there { hart < length self.old.harts }
        requires page { CanMeetPage self.old generation page }
        ensures met { OnOk result
            (HasMetPage
            (with_entered (with_kept self.old hart (harts.kept_fetched word)) hart) self.new
            hart generation page) }
        ensures err { OnErr result (self.new ≡ self.old) }
    {
        self.meet(hart, generation, page)?;
        self.fetch(hart, word);
        self.enter(Actor::Hart(hart));
        self.leave(Actor::Hart(hart));
        Ok(())
    }

    /// A hart of a generation stops, and leaves the view of the generation, which is there, and the
    /// kernel, if it is inside.
    pub fn stop(&mut self, hart: u8, generation: u32, life: Life)
        requires there { hart < length self.old.harts }
        requires view { IsSome (view_of self.old.records.views generation) }
        ensures { self.new ≡ with_stopped self.old hart generation life }
    {
        stop_hart(&mut self.space.records, hart, generation);
        self.leave(Actor::Hart(hart));
        let state = &mut self.harts[hart as usize];
        state.stop(life);
    }

    // The frame in which the page of data lies that a generation finds at an address.
    fn frame_at(&self, generation: u32, va: u64) -> u32
        requires { HasDataAt self.now.words self.now.records generation va }
        ensures { DataLiesAt self.now.words self.now.records generation va result }
    {
        let Some(found) = self.found_at(generation, va) else {
            unreachable!();
        };
        found.frame
    }

    /// Bytes of a page of data, at an address at which a generation finds it, become the low ones
    /// of a value, and the page was written once more.
    pub fn write(&mut self, generation: u32, write: Write)
        requires there { HasDataAt self.old.words self.old.records generation write.va }
        requires place { IsPlace write.va write.width }
        ensures { HasStoredBytes self.old self.new generation write }
    {
        let last_writes = self.space.records.limits.last_writes;
        let bytes = FrameBytes {
            frame: self.frame_at(generation, write.va),
            at: write.va % PAGE_SIZE,
            width: write.width,
        };
        store(&mut self.words, bytes, write.value, last_writes);
    }

    /// A hart's write is made, with this answer, and its instruction ends, with these registers; a
    /// store-conditional leaves no reservation.
    pub fn end_write(&mut self, hart: u8, answer: u64, conditional: bool, next: Arch)
        requires { hart < length self.old.harts }
        ensures { self.new
            ≡ with_left_kept self.old hart (harts.kept_written answer conditional next) }
    {
        self.leave(Actor::Hart(hart));
        let state = &mut self.harts[hart as usize];
        state.end_write(answer, conditional, next);
    }

    /// What a load-reserved of a generation leaves at an address: nothing where it finds no page of
    /// data there, or one at its last count of writes.
    pub fn reservation_at(&self, generation: u32, va: u64, width: u8) -> Option<CoreReservation>
        requires { CanFindAt self.now.words self.now.records generation va }
        ensures { LeavesReservation self.now.words self.now.records generation va width result }
    {
        reservation_at(&self.words, &self.space.records, generation, va, width)
    }

    /// A hart's load-reserved has this answer, and leaves this reservation.
    pub fn reserve(&mut self, hart: u8, answer: u64, reservation: Option<CoreReservation>)
        requires { hart < length self.old.harts }
        ensures { self.new ≡ with_kept self.old hart (harts.kept_reserved answer reservation) }
    {
        let state = &mut self.harts[hart as usize];
        state.reserve(answer, reservation);
    }
}
