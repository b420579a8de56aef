//! Which frames are free.
ghost use Rattle.std.specs.Prelude.{◌≡◌, ◌<◌, ◌≤◌, [], ◌∷◌, IfOk, IfErr, OnOk, OnErr, IsSomeAnd, length, slice_get, take, vec_capacity};
ghost use Rattle.std.specs.List.{range_with_len};
ghost use Rattle.std.specs.VecDeque.{deque_capacity};
ghost use Rattle.wf_frames.specs.Frames as spec;
ghost use Rattle.wf_frames.specs.Frames.{HasState, changed_at, first_from, free_numbers, given, new_frames, raised, with_frame, with_lowest_taken};
ghost use Rattle.wf_frames.specs.Faults.{IsTakeFault};
ghost use Rattle.wf_frames.specs.Free.{PutsIn, TakesOut};

use crate::{Frame, FrameState, TakeFault};
use std::alloc::Global;
use std::collections::VecDeque;
use std::marker::Model;
use wf_outside::{Limits, MOST_FRAMES, Memory};

/// The frames of a machine. What contracts see is for each frame whether it is free, in use or
/// worn, and its incarnation.
#[derive(Drop)]
pub struct Frames {
    frames: Vec<Frame>,
    // The numbers of the free ones, rising.
    free: VecDeque<u32>,
    last_birth: u64,
    alloc: Global,
}

impl Model for Frames {
    ghost use Rattle.std.specs.VecDeque.{deque_capacity};
    ghost use Rattle.wf_frames.specs.Frames.{FramesValue};
    ghost use Rattle.wf_frames.specs.Free.{AreFrames};

    ghost Value = { FramesValue };

    ghost view = { λ f. record { frames = f.frames.items; last_birth = f.last_birth } };

    ghost invariant = { λ f.
        AreFrames f.frames.items f.free.items (deque_capacity f.free) f.last_birth };
}

impl Frames {
    /// The frames of a new machine, all free.
    pub fn new(alloc: Global, limits: Limits) -> Result<Frames, Memory>
        ensures frames { IfOk result (λ f. f.frames ≡ new_frames limits.frames) }
        ensures last_birth { IfOk result (λ f. f.last_birth ≡ limits.last_birth) }
    {
        let limits = &limits;
        let count = limits.frames as usize;
        let frames = vec![in alloc; Frame {
            state: FrameState::Free,
            incarnation: 0
        }; count]?;
        let free = numbers_below(alloc, limits.frames)?;
        Ok(Frames {
            frames,
            free,
            last_birth: limits.last_birth,
            alloc,
        })
    }

    /// How many frames there are.
    pub fn count(&self) -> u32
        ensures value { result ≡ length self.now.frames }
        ensures most { result ≤ MOST_FRAMES }
    {
        self.frames.len() as u32
    }

    /// Whether a frame is free, in use or worn.
    pub fn state(&self, frame: u32) -> FrameState
        requires { frame < length self.now.frames }
        ensures { HasState self.now.frames frame result }
    {
        self.frames[frame as usize].state
    }

    /// How many frames are free.
    pub fn free(&self) -> u64
        ensures { result ≡ length (free_numbers self.now.frames) }
    {
        self.free.len() as u64
    }

    /// Takes the lowest free frames, so many, and gives their numbers, rising. It takes time in
    /// their number. Where it fails nothing changes.
    pub fn take(&mut self, n: u64) -> Result<Vec<u32>, TakeFault>
        ensures lowest { IfOk result (λ v. v.items ≡ take n (free_numbers self.old.frames)) }
        ensures enough { OnOk result (n ≤ length (free_numbers self.old.frames)) }
        ensures changed { OnOk result (self.new ≡ with_lowest_taken self.old n) }
        ensures fault { IfErr result (IsTakeFault n (length (free_numbers self.old.frames))) }
        ensures unchanged { OnErr result (self.new ≡ self.old) }
    {
        let free = self.free();
        if free < n {
            return Err(TakeFault::NoFrames { need: n, free });
        }
        let mut taken = self.room_for(n)?;
        for _ in 0..n {
            let frame = self.take_lowest();
            taken.push_reserved(frame);
        }
        Ok(taken)
    }

    /// The lowest free frame at or above a number; `None` where there is none. It takes time in the
    /// logarithm of the free frames.
    pub fn lowest(&self, from: u32) -> Option<u32>
        ensures { result ≡ first_from from (free_numbers self.now.frames) }
    {
        match self.free.binary_search(&from) {
            Ok(_) => Some(from),
            Err(at) => self.free.get(at).copied(),
        }
    }

    /// Takes a free frame.
    pub fn mark(&mut self, frame: u32)
        requires { HasState self.old.frames frame FrameState.Free }
        ensures { self.new ≡ with_frame self.old frame spec.taken }
    {
        take_out(&mut self.free, frame);
        set_state(&mut self.frames, frame, FrameState::InUse);
    }

    /// Gives a frame back that is in use: it is free, or worn where its incarnation is the last.
    pub fn give(&mut self, frame: u32)
        requires { HasState self.old.frames frame FrameState.InUse }
        ensures { self.new ≡ with_frame self.old frame (given self.old.last_birth) }
    {
        if self.frames[frame as usize].incarnation < self.last_birth {
            put_in(&mut self.free, frame);
            set_state(&mut self.frames, frame, FrameState::Free);
        } else {
            set_state(&mut self.frames, frame, FrameState::Worn);
        }
    }

    /// Adds one to the incarnation of a frame, unless it is the last.
    pub fn raise(&mut self, frame: u32)
        requires { frame < length self.old.frames }
        ensures { self.new ≡ with_frame self.old frame (raised self.old.last_birth) }
    {
        raise_in(&mut self.frames, frame, self.last_birth);
    }

    /// The incarnation of a frame, which is at most the last one.
    pub fn incarnation(&self, frame: u32) -> u64
        requires { frame < length self.now.frames }
        ensures value { IsSomeAnd (slice_get self.now.frames frame) (λ f. result ≡ f.incarnation) }
        ensures bound { result ≤ self.now.last_birth }
    {
        self.frames[frame as usize].incarnation
    }

    // Takes the lowest free frame.
    fn take_lowest(&mut self) -> u32
        requires { 0 < length (free_numbers self.old.frames) }
        ensures lowest { free_numbers self.old.frames ≡ result ∷ free_numbers self.new.frames }
        ensures changed { self.new ≡ with_frame self.old result spec.taken }
    {
        let frame = self.free.pop_front().unwrap();
        set_state(&mut self.frames, frame, FrameState::InUse);
        frame
    }

    // An empty list with room for so many frames.
    fn room_for(&self, n: u64) -> Result<Vec<u32>, Memory>
        ensures { IfOk result (λ v. (v.items ≡ []) × (n ≤ vec_capacity v)) }
    {
        Ok(Vec::with_capacity(self.alloc, n as usize)?)
    }
}

// All numbers below one, rising.
fn numbers_below(alloc: Global, count: u32) -> Result<VecDeque<u32>, Memory>
    ensures numbers { IfOk result (λ v. v.items ≡ range_with_len 0 count) }
    ensures room { IfOk result (λ v. count ≤ deque_capacity v) }
{
    let mut numbers = VecDeque::with_capacity(alloc, count as usize)?;
    for number in 0..count {
        numbers.push_back_reserved(number);
    }
    Ok(numbers)
}

// A number leaves those of the free frames.
fn take_out(free: &mut VecDeque<u32>, frame: u32)
    ensures places { TakesOut free.old.items free.new.items frame }
    ensures room { deque_capacity free.new ≡ deque_capacity free.old }
{
    let Ok(at) = free.binary_search(&frame) else {
        return;
    };
    let _ = free.remove(at);
}

// A number comes among those of the free frames.
fn put_in(free: &mut VecDeque<u32>, frame: u32)
    requires { length free.old.items < deque_capacity free.old }
    ensures places { PutsIn free.old.items free.new.items frame }
    ensures room { deque_capacity free.old ≤ deque_capacity free.new }
{
    let Err(at) = free.binary_search(&frame) else {
        return;
    };
    free.insert(at, frame).unwrap();
}

// A frame has this state now.
fn set_state(frames: &mut [Frame], frame: u32, state: FrameState)
    requires { frame < length frames.old }
    ensures { frames.new ≡ changed_at frames.old frame (λ f. record f { state = state }) }
{
    let frame = &mut frames[frame as usize];
    frame.state = state;
}

// A frame is in its next incarnation, unless it is in its last.
fn raise_in(frames: &mut [Frame], frame: u32, last_birth: u64)
    requires { frame < length frames.old }
    ensures { frames.new ≡ changed_at frames.old frame (raised last_birth) }
{
    let frame = &mut frames[frame as usize];
    if frame.incarnation < last_birth {
        frame.incarnation += 1;
    }
}
