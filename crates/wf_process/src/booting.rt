//! A process at the start of a run.
ghost use Rattle.std.specs.Prelude.{◌≡◌, ◌<◌, ◌≤◌, ◌^◌, ℕ, Err, IfOk, OnOk, length};
ghost use Rattle.std.specs.List.{AllByRecursion};
ghost use Rattle.wf_flat.specs.Boot.{boot_arch, boot_of};
ghost use Rattle.wf_flat.specs.Counts.{used_of};
ghost use Rattle.wf_sound.specs.Sound.{IsDelta};
ghost use Rattle.wf_process.specs.Harts.{kept_first, kept_firsts};
ghost use Rattle.wf_process.specs.Processes.{process_at, start_of};

use crate::wholeness::{data_is_whole, limits_are_sizes, text_is_whole};
use crate::{Body, KeptHart, Process};
use rv_inst::Arch;
use std::alloc::Global;
use wf_flat::{BootFault, Life};
use wf_outside::{DATA_END, Delta, Image, Limits, Memory};
use wf_views::Roomy;

// A hart at the start.
fn first_hart(entry: u64, i: u8) -> KeptHart
    ensures { result ≡ kept_first (boot_arch entry i) }
{
    let mut x = [0; 32];
    x[2] = DATA_END + 0x1_0000 + 0x1_0000 * i as u64;
    x[10] = i as u64;
    KeptHart {
        generation: 0,
        arch: Arch { pc: entry, x },
        fetched: None,
        looked: None,
        put: false,
        reservation: None,
        life: Life::Running,
    }
}

// The first harts at the start.
#[tactic(auto, using(crate::proofs::StartLemmas::kept_steps))]
fn first_harts(alloc: Global, entry: u64, n: u8) -> Result<Vec<KeptHart>, Memory>
    ensures { IfOk result (λ harts. harts.items ≡ kept_firsts entry n) }
{
    let mut harts = Vec::new(alloc);
    for i in 0..n {
        harts.push(first_hart(entry, i))?;
    }
    Ok(harts)
}

impl Process {
    /// So many harts, from 1 to 64, at the start of an image, with an empty journal, where `deltas`
    /// are the patches of the run.
    ///
    /// # Errors
    ///
    /// `NoFrames` where the start needs more frames than there are, both counts of frames. `Memory`
    /// where memory runs out.
    pub fn boot(
        alloc: Global,
        image: Image,
        harts: u8,
        limits: Limits,
        deltas: Vec<Delta>,
    ) -> Result<Process, BootFault>
        requires some { 1 ≤ harts }
        requires few { harts ≤ 64 }
        requires patches { AllByRecursion IsDelta deltas.items }
        requires few_patches { length deltas.items < 2 ^ 32 }
        ensures ok { IfOk result
            (λ process. process ≡ process_at (start_of deltas.items image harts limits)) }
        // The frames suffice, or both numbers say that they don't.
        ensures fits { OnOk result (used_of (boot_of image harts limits) ≤ limits.frames) }
        ensures no_frames { (need have : ℕ) → result ≡ Err (BootFault.NoFrames need have)
            → (need ≡ used_of (boot_of image harts limits)) × (have ≡ limits.frames)
            × (have < need) }
    {
        text_is_whole(&image.text);
        data_is_whole(&image.pages);
        limits_are_sizes(limits);
        let (space, words) = wf_begin::boot(alloc, &image, harts, limits)?;
        let kept = first_harts(alloc, image.entry, harts)?;
        let body = Body {
            words,
            space,
            harts: kept,
            inside: None,
        };
        Ok(Process {
            deltas,
            image,
            count: harts,
            limits,
            body,
            entries: Roomy::new(alloc),
        })
    }
}
