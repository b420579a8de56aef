//! The script of a run.
ghost use Rattle.std.specs.Prelude.{◌≡◌, ◌<◌, ◌≤◌, ◌⊎◌, ℕ, List, IfErr, IfOk, IfSome, Err, Ok, length, not, position};
ghost use Rattle.wf_outside.specs.Files.{HasRisen, first_bytes};
ghost use Rattle.wf_status.specs.declared.status.Status.{Status};
ghost use Rattle.wf_script.specs.Commands.{IsScript};
ghost use Rattle.wf_follow.specs.Unbuilt.{AreBuilt, first_unbuilt, is_built_command};
ghost use Rattle.wf_run.specs.Stages.{fault_status, script_stage};
ghost use Rattle.wf_fetch.specs.Stages.{IsReadFault};
ghost use Rattle.wf_run.specs.Answers.{MayFail};

use std::alloc::Global;
use wf_fetch::fetch;
use wf_outside::Shelf;
use wf_script::{Command, Script, ScriptFault, read_script};
use wf_status::{LimitKind, Status, Unbuilt};

// The most units of a script.
const MAX_UNITS: u64 = 1_000_000;

// The most patches of a script.
const MAX_PATCHES: u64 = 64;

// The answer for a script that was not read.
fn fault_status(fault: ScriptFault) -> Status
    ensures { result ≡ fault_status fault }
{
    match fault {
        ScriptFault::At { line, column } => Status::Script { line, column },
        ScriptFault::Units { number } => Status::Limit {
            what: LimitKind::Units,
            number,
            most: MAX_UNITS,
        },
        ScriptFault::Patches { number } => Status::Limit {
            what: LimitKind::Patches,
            number,
            most: MAX_PATCHES,
        },
        ScriptFault::Memory => Status::Memory,
    }
}

// Whether a command is built.
fn is_built_command(command: Command) -> bool
    ensures { result ≡ is_built_command command }
{
    match command {
        Command::Step { .. } | Command::Run { .. } => true,
        Command::Patch { begin, .. } => !begin,
        Command::Create { .. } | Command::Delete { .. } => true,
        Command::Tables { .. } | Command::Regs { .. } | Command::Mem { .. } => true,
        Command::Tick { .. } => false,
    }
}

// The place of the first command that is not built.
fn unbuilt_place(commands: &[Command]) -> Option<usize>
    ensures value { result ≡ position (λ c. not (is_built_command c)) commands.now }
    ensures bound { IfSome result (λ i. i < length commands.now) }
{
    commands
        .iter()
        .position(|command| !is_built_command(*command))
}

// The line of the first command that is not built; each command has its line.
#[tactic(auto, using(crate::proofs::BuiltLemmas::unbuilt_steps))]
fn first_unbuilt(commands: &[Command], lines: &[u64]) -> Option<u64>
    ensures { result ≡ first_unbuilt commands.now lines.now }
{
    let place = unbuilt_place(commands)?;
    lines.get(place).copied()
}

/// The script of a file, for a run with so many harts, all of whose commands are built; or why
/// there is none: Shelf, the limit of its bytes, its first wrong word, the limit of its units or
/// patches, the line of the first command that is not built, and Memory.
pub fn fetch_script<S: Shelf>(
    alloc: Global,
    shelf: &mut S,
    name: &[u8],
    harts: u8,
) -> Result<Script, Status>
    ensures found { IfOk result
        (λ script. IfSome (S.holds shelf.old)
        (λ files. script_stage harts (first_bytes name.now files) ≡ Ok script)) }
    ensures kept { IfOk result (λ script. IsScript harts script) }
    ensures built { IfOk result (λ script. AreBuilt script.commands) }
    ensures cause { IfErr result
        (λ status. IfSome (S.holds shelf.old)
        (λ files. IsReadFault status
        ⊎ (script_stage harts (first_bytes name.now files) ≡ Err status))) }
    ensures kind { IfErr result MayFail }
    ensures shelf { result ≡ Err Status.Shelf
        → HasRisen (S.faults shelf.old name.now) (S.faults shelf.new name.now) }
    ensures holds { S.holds shelf.new ≡ S.holds shelf.old }
    ensures counts { (other : List ℕ) → S.faults shelf.old other ≤ S.faults shelf.new other }
{
    let bytes = fetch(shelf, name)?;
    let script = match read_script(alloc, &bytes, harts) {
        Ok(script) => script,
        Err(fault) => return Err(fault_status(fault)),
    };
    match first_unbuilt(&script.commands, &script.lines) {
        Some(line) => Err(Status::Unbuilt {
            what: Unbuilt::Script { line },
        }),
        None => Ok(script),
    }
}
