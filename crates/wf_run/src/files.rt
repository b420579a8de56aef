//! The files of a run.
ghost use Rattle.std.specs.Prelude.{◌≡◌, ◌<◌, ◌≤◌, ◌⊎◌, ℕ, List, IfErr, IfOk, IfSome, Ok, Err, length};
ghost use Rattle.std.specs.List.{AllByRecursion};
ghost use Rattle.wf_outside.specs.Files.{HasRisen};
ghost use Rattle.wf_status.specs.declared.status.Status.{Status};
ghost use Rattle.wf_script.specs.Commands.{IsScript};
ghost use Rattle.wf_sound.specs.Sound.{IsDelta};
ghost use Rattle.wf_fetch.specs.Stages.{IsReadFault};
ghost use Rattle.wf_follow.specs.Unbuilt.{AreBuilt};
ghost use Rattle.wf_patches.specs.Needed.{OfSome, held_in};
ghost use Rattle.wf_run.specs.Stages.{held_stage};
ghost use Rattle.wf_run.specs.Answers.{MayFail, OfNeeded};

use crate::scripts::fetch_script;
use patch_laws::fitting_patches_are_sound;
use std::alloc::Global;
use std::marker::Model;
use wf_fetch::fetch_image;
use wf_outside::{Delta, Image, Shelf};
use wf_patches::fetch_patches;
use wf_script::Script;
use wf_status::Status;
use wf_usage::Sizes;

/// What the files of a run mean: its image, its script, and what the patches of the script bring.
#[derive(Drop)]
pub struct RunFiles {
    pub image: Image,
    pub script: Script,
    pub deltas: Vec<Delta>,
}

impl Model for RunFiles {
    ghost use Rattle.wf_run.specs.Stages.{RunFilesValue};

    ghost Value = { RunFilesValue };

    ghost view = { λ f. record {
      image = f.image;
      script = f.script;
      deltas = f.deltas.items;
    } };
}

/// What is held under the names of an image and of a script, for a run of these sizes; or why there
/// is none: the first stage that fails of image, script and patches, `Shelf` where the read of a
/// needed name failed, and `Memory`.
pub fn fetch_files<S: Shelf>(
    alloc: Global,
    shelf: &mut S,
    sizes: Sizes,
    image_name: &[u8],
    script_name: &[u8],
) -> Result<RunFiles, Status>
    ensures found { IfOk result
        (λ found. IfSome (S.holds shelf.old)
        (λ files. held_stage sizes (held_in files) image_name.now script_name.now ≡ Ok found)) }
    // The script is one of such a run, all of it is built, and each patch is one of a run.
    ensures script { IfOk result (λ found. IsScript sizes.harts found.script) }
    ensures built { IfOk result (λ found. AreBuilt found.script.commands) }
    ensures patches { IfOk result (λ found. AllByRecursion IsDelta found.deltas) }
    ensures all { IfOk result (λ found. length found.deltas ≡ length found.script.patches) }
    ensures cause { IfErr result
        (λ status. IfSome (S.holds shelf.old)
        (λ files. IsReadFault status
        ⊎ (held_stage sizes (held_in files) image_name.now script_name.now ≡ Err status))) }
    ensures kind { IfErr result MayFail }
    ensures shelf { result ≡ Err Status.Shelf
        → OfSome (λ name. HasRisen (S.faults shelf.old name) (S.faults shelf.new name)) }
    ensures needed { result ≡ Err Status.Shelf
        → IfSome (S.holds shelf.old)
        (λ files. OfNeeded sizes (held_in files) image_name.now script_name.now
        (λ name. HasRisen (S.faults shelf.old name) (S.faults shelf.new name))) }
    ensures holds { S.holds shelf.new ≡ S.holds shelf.old }
    ensures counts { (other : List ℕ) → S.faults shelf.old other ≤ S.faults shelf.new other }
{
    fitting_patches_are_sound();
    let image = fetch_image(alloc, shelf, image_name)?;
    let script = fetch_script(alloc, shelf, script_name, sizes.harts)?;
    let deltas = fetch_patches(alloc, shelf, &image, &script.patches)?;
    Ok(RunFiles {
        image,
        script,
        deltas,
    })
}
