//! Frames that are taken, given back, worn, and taken again; and the words of a machine.
use std::test::Fail;
use wf_frames::{FrameState, Frames, TakeFault, Words};
use wf_outside::{Limits, MOST_BIRTHS, MOST_FRAMES, MOST_WRITES};

// A small machine, whose frames have one incarnation as data.
fn small() -> Limits {
    Limits {
        frames: 64,
        last_writes: 3,
        last_birth: 1,
    }
}

// The largest machine.
fn largest() -> Limits {
    Limits {
        frames: MOST_FRAMES,
        last_writes: MOST_WRITES,
        last_birth: MOST_BIRTHS,
    }
}

#[test]
fn the_lowest_free_are_taken(rt: HostRuntime) -> Result<(), Fail> {
    let mut frames = Frames::new(rt.alloc(), small())?;
    assert_eq!(rt; frames.free(), 64);
    assert_eq!(rt; frames.take(3)?.as_slice(), [0, 1, 2].as_slice());
    assert_eq!(rt; frames.free(), 61);
    assert!(rt; frames.count() == 64 && frames.state(1) == FrameState::InUse);
    frames.give(1);
    assert_eq!(rt; frames.lowest(0), Some(1));
    assert_eq!(rt; frames.lowest(1), Some(1));
    assert_eq!(rt; frames.lowest(2), Some(3));
    assert_eq!(rt; frames.lowest(63), Some(63));
    assert_eq!(rt; frames.lowest(64), None);
    assert_eq!(rt; frames.take(2)?.as_slice(), [1, 3].as_slice());
    assert_eq!(rt; frames.take(0)?.len(), 0);
    let fault = frames.take(61).err();
    assert_eq!(rt; fault, Some(TakeFault::NoFrames { need: 61, free: 60 }));
    assert_eq!(rt; frames.take(60)?.len(), 60);
    assert_eq!(rt; frames.lowest(0), None);
    let fault = frames.take(1).err();
    assert_eq!(rt; fault, Some(TakeFault::NoFrames { need: 1, free: 0 }));
    Ok(())
}

#[test]
fn a_frame_is_worn_after_its_last_incarnation(rt: HostRuntime) -> Result<(), Fail> {
    let mut frames = Frames::new(rt.alloc(), small())?;
    assert!(rt; frames.count() == 64 && frames.state(5) == FrameState::Free);
    frames.mark(5);
    assert_eq!(rt; frames.lowest(5), Some(6));
    // It was never used as data: it comes back.
    assert!(rt; frames.count() == 64 && frames.state(5) == FrameState::InUse);
    frames.give(5);
    assert!(rt; frames.count() == 64 && frames.state(5) == FrameState::Free);
    frames.mark(5);
    assert!(rt; frames.count() == 64);
    frames.raise(5);
    assert!(rt; frames.count() == 64);
    assert_eq!(rt; frames.incarnation(5), 1);
    frames.raise(5);
    assert!(rt; frames.count() == 64);
    assert_eq!(rt; frames.incarnation(5), 1, "the last one stays");
    assert_eq!(rt; frames.incarnation(6), 0);
    assert!(rt; frames.state(5) == FrameState::InUse);
    frames.give(5);
    assert!(rt; frames.count() == 64);
    assert_eq!(rt; frames.state(5), FrameState::Worn);
    assert_eq!(rt; frames.free(), 63);
    assert_eq!(rt; frames.lowest(5), Some(6));
    assert_eq!(rt; frames.take(6)?.as_slice(), [0, 1, 2, 3, 4, 6].as_slice());
    Ok(())
}

#[test]
fn the_largest_memory_is_made(rt: HostRuntime) -> Result<(), Fail> {
    let mut words = Words::new(rt.alloc(), largest())?;
    assert!(rt; words.frames() == MOST_FRAMES);
    assert_eq!(rt; words.len(), 33_619_969);
    words.set(33_619_968, 7);
    assert_eq!(rt; words.get(33_619_968), 7);
    assert_eq!(rt; words.get(33_619_967), 0);
    assert_eq!(rt; words.get(0), 0);
    let mut frames = Frames::new(rt.alloc(), largest())?;
    assert_eq!(rt; frames.take(65_536)?.len(), 65_536);
    Ok(())
}
