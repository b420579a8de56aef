//! Scripts that are read.
ghost use Rattle.std.specs.Prelude.{◌≡◌, ◌≢◌, ◌<◌, ◌≤◌, ◌+◌, ◌-◌, ◌^◌, ℕ, List, [], Bool, IfOk, IfErr, OnOk, Ok, length, min, sum_by};
ghost use Rattle.wf_text.specs.Lines.{lines_of, unspaced};
ghost use Rattle.wf_script.specs.Commands.{units_of, IsScript};
ghost use Rattle.wf_script.specs.Reading.{is_passed, with_line, with_lines, empty, told, within_limits, script_of, names_with, IsFaultOf, GivesScript};

use crate::commands::command_in;
use crate::{Command, Script, ScriptFault};
use std::alloc::Global;
use wf_outside::Text;
use wf_text::{split_line, without_spaces};

// The greatest sum of the units of a script.
const MAX_UNITS: u64 = 1_000_000;

// The most patches of a script.
const MAX_PATCHES: u64 = 64;

// Whether a line has no word, or its first word begins with `#`.
fn is_passed(line: &[u8]) -> bool
    ensures { result ≡ is_passed line.now }
{
    let rest = without_spaces(line);
    rest.is_empty() || rest[0] == b'#'
}

// The units of a command.
fn units_of(command: Command) -> u64
    ensures { result ≡ units_of command }
{
    match command {
        Command::Step { n, .. }
        | Command::Tick { n, .. }
        | Command::Run { n }
        | Command::Mem { n, .. } => n,
        Command::Tables { .. } => 1000,
        Command::Patch { .. }
        | Command::Create { .. }
        | Command::Delete { .. }
        | Command::Regs { .. } => 1,
    }
}

// The units of all commands together, no more than 2 ^ 64 - 1.
#[tactic(auto, using(crate::proofs::LineLemmas::units_more))]
fn all_units(commands: &[Command]) -> u64
    ensures { result ≡ told (sum_by units_of commands.now) }
{
    let mut units = 0u64;
    for command in commands {
        units = units.saturating_add(units_of(*command));
    }
    units
}

// The units of a script, no more than 2 ^ 64 - 1.
fn script_units(script: &Script) -> u64
    ensures { result ≡ told (sum_by units_of script.now.commands) }
{
    all_units(&script.commands)
}

// How many patches a script has.
fn patch_count(script: &Script) -> u64
    ensures { result ≡ length script.now.patches }
{
    script.patches.len() as u64
}

// Adds the name of a command's patch.
fn push_name(
    alloc: Global,
    patches: &mut Vec<Text>,
    command: Command,
    name: &[u8],
) -> Result<(), ScriptFault>
    ensures ok { OnOk result (patches.new.items ≡ names_with command name.now patches.old.items) }
    ensures err { IfErr result (λ fault. fault ≡ ScriptFault.Memory) }
{
    match command {
        Command::Patch { .. } => {
            patches.push(Text::of(alloc, name)?)?;
            Ok(())
        }
        _ => Ok(()),
    }
}

// Adds what a line says, unless it is passed over.
#[tactic(auto, unfolding(crate::specs::Reading::with_line))]
fn push_line(
    alloc: Global,
    script: &mut Script,
    number: u64,
    line: &[u8],
    harts: u8,
) -> Result<(), ScriptFault>
    ensures ok { OnOk result (with_line harts script.old number line.now ≡ Ok script.new) }
    ensures err { IfErr result
        (λ fault. IsFaultOf fault (with_line harts script.old number line.now)) }
{
    if is_passed(line) {
        return Ok(());
    }
    let index = script.patches.len().min(u32::MAX as usize) as u32;
    match command_in(line, harts, index) {
        Ok((command, name)) => {
            script.commands.push(command)?;
            script.lines.push(number)?;
            push_name(alloc, &mut script.patches, command, name)
        }
        Err(left) => Err(ScriptFault::At {
            line: number,
            column: (line.len() + 1).saturating_sub(left) as u64,
        }),
    }
}

// The script of all lines, whatever the limits.
#[tactic(auto, using(crate::proofs::LineLemmas::line_steps))]
fn read_lines(alloc: Global, bytes: &[u8], harts: u8) -> Result<Script, ScriptFault>
    ensures { GivesScript result (with_lines harts empty 1 (lines_of bytes.now)) }
{
    let mut script = Script {
        commands: Vec::new(alloc),
        lines: Vec::new(alloc),
        patches: Vec::new(alloc),
    };
    let mut rest = bytes;
    let mut number = 1;
    while !rest.is_empty() {
        let (line, behind) = split_line(rest);
        push_line(alloc, &mut script, number, line, harts)?;
        number += 1;
        rest = behind;
    }
    Ok(script)
}

/// The script of these bytes, for a run with so many harts, or its first fault: that of its first
/// wrong word; and where all lines are those of a script, that of the limit of units, then that of
/// patches. The time is in proportion to the bytes, the memory to the commands and names.
#[tactic(auto, using(crate::proofs::LineLemmas::whole_steps))]
pub fn read_script(alloc: Global, bytes: &[u8], harts: u8) -> Result<Script, ScriptFault>
    // What is read is the script of the bytes, and a fault is that of the bytes, unless memory ran
    // out.
    ensures read { GivesScript result (script_of harts bytes.now) }
    // What each script keeps.
    ensures kept { IfOk result (λ script. IsScript harts script) }
{
    let script = read_lines(alloc, bytes, harts)?;
    let units = script_units(&script);
    if units > MAX_UNITS {
        return Err(ScriptFault::Units { number: units });
    }
    let patches = patch_count(&script);
    if patches > MAX_PATCHES {
        return Err(ScriptFault::Patches { number: patches });
    }
    Ok(script)
}
