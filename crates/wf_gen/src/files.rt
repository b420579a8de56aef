//! The files.
ghost use Rattle.std.specs.Prelude.{◌≡◌, ◌≤◌, ◌++◌, IfOk, OnOk, codes};
ghost use Rattle.rv_asm.specs.Answers.{Answers};
ghost use Rattle.wf_outside.specs.MemFiles.{files_of};
ghost use Rattle.wf_gen.specs.Files as made;

use crate::sources::{
    object_name, object_source, patch_count, patch_name, patch_text, program_source, script_text,
};
use elf_write::{Form, write};
use rv_asm::{AsmFault, assemble};
use std::alloc::Global;
use wf_outside::Text;

// The file of the module of this form that a source means.
fn file_of(alloc: Global, source: &[u8], form: Form) -> Result<Vec<u8>, AsmFault>
    ensures { Answers (λ file. file.items) result (made.file_of form source.now) }
{
    Ok(write(alloc, &assemble(alloc, source, form)?)?)
}

// A patch's files, behind those so far.
fn push_patch(alloc: Global, files: &mut Vec<(Text, Vec<u8>)>, j: u64) -> Result<(), AsmFault>
    ensures { Answers (λ unit. files_of files.new.items) result
        (made.with_patch j (files_of files.old.items)) }
{
    let text = patch_text(alloc, j)?;
    let object = file_of(alloc, &object_source(alloc, j)?, Form::Object)?;
    files.push((Text::from(patch_name(alloc, j)?), text))?;
    files.push((Text::from(object_name(alloc, j)?), object))?;
    Ok(())
}

// The files of so many patches, behind those so far.
fn push_patches(alloc: Global, files: &mut Vec<(Text, Vec<u8>)>, count: u64) -> Result<(), AsmFault>
    ensures { Answers (λ unit. files_of files.new.items) result
        (made.with_patches (files_of files.old.items) count) }
{
    for j in 0..count {
        push_patch(alloc, files, j)?;
    }
    Ok(())
}

/// The files of a program of so many functions, from 1 to 10,000: `prog.elf`, the script
/// `steps.txt`, and for each of its first eight functions a patch, `p0` and so on, with its object,
/// `p0.o`. Each patch replaces one function by one that adds 1 more. The program calls all functions
/// in turn, quiesces, and does so again for each patch; then it exits with the sum.
///
/// # Errors
///
/// `At` where a source is not assembled, with its first fault. `Memory` where memory runs out.
pub fn make_files(alloc: Global, n: u64) -> Result<Vec<(Text, Vec<u8>)>, AsmFault>
    requires { n ≤ 10000 }
    ensures { Answers (λ files. files_of files.items) result (made.made_files n) }
{
    let program = file_of(alloc, &program_source(alloc, n)?, Form::Exec)?;
    let mut files = Vec::new(alloc);
    files.push((Text::of(alloc, b"prog.elf")?, program))?;
    files.push((Text::of(alloc, b"steps.txt")?, script_text(alloc, n)?))?;
    push_patches(alloc, &mut files, patch_count(n))?;
    Ok(files)
}
