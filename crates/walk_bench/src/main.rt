//! `walk_bench N`: walks N addresses through a page table of 32 pages, one after another, and
//! prints a number that depends on what each walk gave, for timing walks. Its stored run walks a
//! few.
#![tactic(auto)]

ghost use Rattle.std.specs.Prelude.{◌<◌};
ghost use Rattle.wf_sv39.specs.Tables.{IsTable};

use anyhow::{Result, bail};
use std::alloc::Global;
use std::rt::Env;
use table_check::is_table;
use wf_frames::{Words, word_place};
use wf_outside::{LEAST_FRAMES, Limits, PAGE_WORDS};
use wf_sv39::{Leaf, Walk, pte_leaf, pte_node, walk};

// The node at level 2 is in frame 0. It has two nodes at level 1, in frames 1 and 2, each of them
// has two at level 0, in frames 3 to 6, and each of these has eight pages, in the frames from 7 on.
const ROOT: u32 = 0;

// A table of 32 pages.
fn table(alloc: Global) -> Result<Words> {
    let limits = Limits {
        frames: LEAST_FRAMES,
        last_writes: 1,
        last_birth: 1,
    };
    let mut words = match Words::new(alloc, limits) {
        Ok(words) => words,
        Err(_) => bail!("memory"),
    };
    for (node, i, below) in [
        (0, 0, 1),
        (0, 1, 2),
        (1, 0, 3),
        (1, 1, 4),
        (2, 0, 5),
        (2, 1, 6),
    ] {
        put(&mut words, node, i, pte_node(below));
    }
    for page in 0..32 {
        put(
            &mut words,
            3 + page / 8,
            page as usize % 8,
            pte_leaf(7 + page, Leaf::Write),
        );
    }
    Ok(words)
}

// The entry i of the node in a frame is this, where there is such a frame.
fn put(words: &mut Words, node: u32, i: usize, pte: u64) {
    if node < words.frames() && i < PAGE_WORDS {
        let at = word_place(words.frames(), node, i);
        words.set(at, pte);
    }
}

// What the walk of an address gives: its leaf, or the level of the entry that is missing.
fn walked(words: &Words, va: u64) -> u64
    requires root { ROOT < words.now.frames }
    requires table { IsTable words.now 2 ROOT }
{
    match walk(words, ROOT, va) {
        Walk::Leaf { pte, .. } => pte,
        Walk::Missing { level } => u64::from(level),
        Walk::Far => 3,
    }
}

// An address in one of the 32 pages, by the bits of a number.
fn address(x: u64) -> u64 {
    (x >> 63) % 2 * (1 << 30) + (x >> 62) % 2 * (1 << 21) + (x >> 47) % (1 << 15)
}

// Walks so many addresses. Each comes from a generator of random numbers (Knuth, MMIX), to whose
// state what the walk before gave is added.
fn walk_all(words: &Words, n: u64) -> u64
    requires root { ROOT < words.now.frames }
    requires table { IsTable words.now 2 ROOT }
{
    let mut x = 1u64;
    for _ in 0..n {
        x = x
            .wrapping_add(walked(words, address(x)))
            .wrapping_mul(6_364_136_223_846_793_005)
            .wrapping_add(1_442_695_040_888_963_407);
    }
    x
}

// The number that the command line tells.
fn count<R: Env + AllocGlobal>(rt: &R) -> Result<u64> {
    let mut words = std::env::args(rt)?;
    let Some(word) = words.nth(1) else {
        bail!("usage: walk_bench N");
    };
    match word.parse() {
        Ok(n) => Ok(n),
        Err(_) => bail!("usage: walk_bench N"),
    }
}

fn main(rt: HostRuntime) -> Result<()> {
    let n = count(&rt)?;
    let words = table(rt.alloc())?;
    if !is_table(&words, ROOT) {
        bail!("no table");
    }
    println!(rt; "{:x}", walk_all(&words, n))?;
    Ok(())
}
