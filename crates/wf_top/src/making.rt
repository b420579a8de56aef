//! The command `make`.
ghost use Rattle.std.specs.Prelude.{◌≡◌, ◌≢◌, ◌<◌, ◌≤◌, ◌⊎◌, ◌^◌, IfErr, IfOk, string_bytes, sum_by};
ghost use Rattle.wf_outside.specs.MemFiles.{files_of};
ghost use Rattle.wf_script.specs.Commands.{units_of};
ghost use Rattle.wf_status.specs.declared.status.Status.{Status};
ghost use Rattle.wf_fetch.specs.Stages.{IsReadFault};
ghost use Rattle.wf_gen.specs.Files.{made_files};
ghost use Rattle.wf_patches.specs.Needed.{held_in};
ghost use Rattle.wf_usage.specs.declared.sizes.TheConstants.{USUAL};
ghost use Rattle.wf_run.specs.Answers as runs;
ghost use Rattle.wf_run.specs.Answers.{HoldsRun, MayFail};
ghost use Rattle.wf_top.specs.Making.{HasLine, HasMade, code_text, ended_line, exit_code, line_of, making_answer, program_name, script_name};

use std::alloc::{AllocError, Global};
use wf_flat::{Flat, Life};
use wf_gen::make_files;
use wf_outside::{MemShelf, Memory, Text};
use wf_run::{Ran, fetch_run};
use wf_script::{Command, Script};
use wf_source::fault_status;
use wf_status::Status;
use wf_text::push_decimal;
use wf_usage::USUAL;

// The answer where all that is read lies in memory: a fault of reading is one of memory.
fn unread(status: Status) -> Status
    ensures { (result ≡ Status.Memory) ⊎ ((result ≡ status) × (status ≢ Status.Shelf)) }
{
    match status {
        Status::Shelf => Status::Memory,
        other => other,
    }
}

// The run of files, of which the program and the script are named as those that are made. All reads
// are in memory.
fn run_files(alloc: Global, files: Vec<(Text, Vec<u8>)>) -> Result<Ran, Status>
    ensures ok { IfOk result
        (λ ran. HoldsRun USUAL (held_in (files_of files.items)) program_name script_name ran.script
        ran.machine) }
    ensures cause { IfErr result
        (λ status. IsReadFault status
        ⊎ runs.CallsFor USUAL (held_in (files_of files.items)) program_name script_name status) }
    ensures kind { IfErr result (λ status. MayFail status × (status ≢ Status.Shelf)) }
{
    let mut shelf = MemShelf::new(alloc, files, Vec::new(alloc));
    match fetch_run(alloc, &mut shelf, USUAL, b"prog.elf", b"steps.txt") {
        Ok(ran) => Ok(ran),
        Err(status) => Err(unread(status)),
    }
}

// The run of the files that are made for so many functions.
fn run_made(alloc: Global, functions: u64) -> Result<Ran, Status>
    requires { functions ≤ 10000 }
    ensures ok { IfOk result (λ ran. HasMade functions ran.script ran.machine) }
    ensures cause { IfErr result
        (λ status. IsReadFault status ⊎ (status ≡ making_answer (made_files functions))) }
    ensures kind { IfErr result (λ status. MayFail status × (status ≢ Status.Shelf)) }
{
    match make_files(alloc, functions) {
        Ok(files) => run_files(alloc, files),
        Err(fault) => Err(fault_status(fault)),
    }
}

// The units of a command.
fn units_of(command: Command) -> u64
    ensures { result ≡ units_of command }
{
    match command {
        Command::Step { n, .. }
        | Command::Tick { n, .. }
        | Command::Run { n }
        | Command::Mem { n, .. } => n,
        Command::Tables { .. } => 1000,
        Command::Patch { .. }
        | Command::Create { .. }
        | Command::Delete { .. }
        | Command::Regs { .. } => 1,
    }
}

// The units of commands together.
fn all_units(commands: &[Command]) -> u64
    requires { sum_by units_of commands.now < 2 ^ 64 }
    ensures { result ≡ sum_by units_of commands.now }
{
    commands.iter().map(|command| units_of(*command)).sum()
}

// The code with which the first hart exited, where it did.
fn exit_code(flat: &Flat) -> Option<u64>
    ensures { result ≡ exit_code flat.now.harts }
{
    match flat.harts.first()?.life {
        Life::Exited { code } => Some(code),
        Life::Running => None,
        Life::Trapped { .. } => None,
    }
}

// A code in decimal, or `-` where there is none.
fn code_text(alloc: Global, code: Option<u64>) -> Result<String, AllocError>
    ensures { IfOk result (λ text. string_bytes text ≡ code_text code) }
{
    match code {
        Some(code) => format!(in alloc; "{code}"),
        None => format!(in alloc; "-"),
    }
}

// The line of so many functions, patches and units, and of this exit.
fn line_of(
    alloc: Global,
    functions: u64,
    patches: u64,
    units: u64,
    exit: &[u8],
) -> Result<Vec<u8>, Memory>
    ensures { IfOk result (λ line. line.items ≡ line_of functions patches units exit.now) }
{
    let mut line = Vec::new(alloc);
    line.extend_from_slice(b"functions ")?;
    push_decimal(&mut line, functions)?;
    line.extend_from_slice(b" patches ")?;
    push_decimal(&mut line, patches)?;
    line.extend_from_slice(b" units ")?;
    push_decimal(&mut line, units)?;
    line.extend_from_slice(b" exit ")?;
    line.extend_from_slice(exit)?;
    line.push(b'\n')?;
    Ok(line)
}

// The line of a run of this script that ended in this state.
fn ended_line(
    alloc: Global,
    functions: u64,
    script: &Script,
    flat: &Flat,
) -> Result<Vec<u8>, Memory>
    requires { sum_by units_of script.now.commands < 2 ^ 64 }
    ensures { IfOk result
        (λ line. line.items ≡ ended_line functions script.now flat.now.harts) }
{
    let patches = script.patches.len() as u64;
    let units = all_units(&script.commands);
    let exit = code_text(alloc, exit_code(flat))?;
    line_of(alloc, functions, patches, units, exit.as_bytes())
}

/// The line that `make` puts: of the run of a program of so many functions, from 1 to 10,000, with
/// patches for it.
///
/// # Errors
///
/// What the run of the files that are made is refused for, but for their reading, which is in
/// memory; and `Memory`.
pub fn made_line(alloc: Global, functions: u64) -> Result<Vec<u8>, Status>
    requires { functions ≤ 10000 }
    ensures ok { IfOk result (λ text. HasLine functions text.items) }
    ensures cause { IfErr result
        (λ status. IsReadFault status ⊎ (status ≡ making_answer (made_files functions))) }
    ensures kind { IfErr result (λ status. MayFail status × (status ≢ Status.Shelf)) }
{
    let ran = run_made(alloc, functions)?;
    match ended_line(alloc, functions, &ran.script, ran.machine.state()) {
        Ok(line) => Ok(line),
        Err(Memory) => Err(Status::Memory),
    }
}
