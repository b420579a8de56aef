//! The first lines of a report, and how lines are joined.
ghost use Rattle.std.specs.Prelude.{◌≡◌, ◌++◌, OnOk};
ghost use Rattle.wf_journal.specs.Headers.{line, version_text, harts_text, frames_text, patch_line, patch_lines, header_lines, joined};

use crate::fields::push_number_line;
use wf_outside::{Memory, Text};
use wf_text::push_decimal;

// The first three lines.
fn push_sizes(out: &mut Vec<u8>, harts: u64, frames: u32) -> Result<(), Memory>
    ensures { OnOk result
        (out.new.items ≡ out.old.items ++ line version_text ++ line (harts_text harts)
        ++ line (frames_text frames)) }
{
    out.extend_from_slice(b"wfpatch run 1\n")?;
    push_number_line(out, b"harts ", harts)?;
    push_number_line(out, b"frames ", u64::from(frames))
}

// The line of a patch.
#[tactic(auto, unfolding(crate::specs::Headers::patch_line))]
fn push_patch_line(out: &mut Vec<u8>, number: u64, name: &[u8]) -> Result<(), Memory>
    ensures { OnOk result (out.new.items ≡ out.old.items ++ line (patch_line number name.now)) }
{
    out.extend_from_slice(b"patch ")?;
    push_decimal(out, number)?;
    out.push(b' ')?;
    out.extend_from_slice(name)?;
    out.push(b'\n')?;
    Ok(())
}

// The lines of the patches, by their numbers.
fn push_patches(out: &mut Vec<u8>, patches: &[Text]) -> Result<(), Memory>
    ensures { OnOk result (out.new.items ≡ out.old.items ++ joined (patch_lines 0 patches.now)) }
{
    for (number, patch) in patches.iter().enumerate() {
        push_patch_line(out, number as u64, patch.bytes())?;
    }
    Ok(())
}

/// Appends the first lines of a report: the sizes, and the names of the script's patches by their
/// numbers.
pub fn push_header(
    out: &mut Vec<u8>,
    harts: u64,
    frames: u32,
    patches: &[Text],
) -> Result<(), Memory>
    ensures { OnOk result
        (out.new.items ≡ out.old.items ++ joined (header_lines harts frames patches.now)) }
{
    push_sizes(out, harts, frames)?;
    push_patches(out, patches)
}

/// Appends lines, each with its newline.
pub fn push_lines(out: &mut Vec<u8>, lines: &[Text]) -> Result<(), Memory>
    ensures { OnOk result (out.new.items ≡ out.old.items ++ joined lines.now) }
{
    for text in lines {
        out.extend_from_slice(text.bytes())?;
        out.push(b'\n')?;
    }
    Ok(())
}
