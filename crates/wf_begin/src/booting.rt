//! Memory at the start of a run.
ghost use Rattle.std.specs.Prelude.{◌≡◌, ◌<◌, ◌≤◌, IfOk, OnOk, Err, Some, ℕ, length, slice_get};
ghost use Rattle.wf_outside.specs.Images.{IsImage};
ghost use Rattle.wf_outside.specs.Pages.{AreLimits};
ghost use Rattle.wf_flat.specs.Boot.{boot_of};
ghost use Rattle.wf_flat.specs.Counts.{used_of};
ghost use Rattle.wf_homes.specs.Homes.{homes_at_boot};
ghost use Rattle.wf_homes.specs.Stands.{StandsFor};
ghost use Rattle.wf_start.specs.Start.{IsFirst};

use crate::recording::first_records;
use crate::viewing::first_view;
use std::alloc::Global;
use wf_flat::{BootFault, Flat, Gen};
use wf_frames::Words;
use wf_laying::first_words;
use wf_outside::{Image, Limits, Memory};
use wf_space::Space;
use wf_views::Records;

// What an image keeps.
fn keeps_order(image: &Image)
    ensures { IsImage image.now.text image.now.pages image.now.entry }
{
    let _entry = image.entry;
}

// What limits keep.
fn keep_sizes(limits: &Limits)
    ensures { AreLimits limits.now.frames limits.now.last_writes limits.now.last_birth }
{
    let _frames = limits.frames;
}

// The first generation.
fn first_generation(flat: &Flat) -> &Gen
    requires { 0 < length flat.now.gens }
    ensures { slice_get flat.now.gens 0 ≡ Some result.now }
{
    &flat.gens[0]
}

// Words and records of a state at the start of a run, with its one generation.
fn lay_out(alloc: Global, flat: &Flat, version: &Gen, harts: u8) -> Result<(Words, Records), Memory>
    requires { IsFirst flat.now version.now harts }
    ensures { IfOk result (λ made.
        StandsFor made.0 made.1 (homes_at_boot flat.now) flat.now) }
{
    keep_sizes(&flat.limits);
    let view = first_view(alloc, flat, version, harts)?;
    let words = first_words(alloc, flat.limits, &version.text, &flat.pages, &view)?;
    let records = first_records(alloc, flat, version, view)?;
    Ok((words, records))
}

/// The memory of so many harts, from 1 to 64, at the start of an image, and its words. The first
/// frames have the pages of text, then the pages of data, and then the nodes of the page table.
///
/// # Errors
///
/// `NoFrames` where they need more frames than there are, both counts of frames; and `Memory` where
/// it runs out.
pub fn boot(
    alloc: Global,
    image: &Image,
    harts: u8,
    limits: Limits,
) -> Result<(Space, Words), BootFault>
    requires some { 1 ≤ harts }
    requires few { harts ≤ 64 }
    // Words and records stand for the state at the start, with the homes of the start.
    ensures stands { let flat = boot_of image.now harts limits in
        IfOk result (λ made. StandsFor made.1 made.0.records (homes_at_boot flat) flat) }
    // The frames suffice, or both numbers say that they don't.
    ensures fits { OnOk result (used_of (boot_of image.now harts limits) ≤ limits.frames) }
    ensures no_frames { (need have : ℕ) → result ≡ Err (BootFault.NoFrames need have)
        → (need ≡ used_of (boot_of image.now harts limits)) × (have ≡ limits.frames)
        × (have < need) }
{
    keeps_order(image);
    let flat = wf_flat::boot(alloc, image, harts, limits)?;
    let (words, records) = lay_out(alloc, &flat, first_generation(&flat), harts)?;
    Ok((Space::new(alloc, records), words))
}
