//! The command of a line. A fault is the number of bytes of the line from the first wrong word on.
ghost use Rattle.std.specs.Prelude.{◌≡◌, ◌≤◌};
ghost use Rattle.wf_script.specs.declared.command.Command.TheVariants.{Create, Delete, Tables};
ghost use Rattle.wf_script.specs.Words.{verb_of, begun_of, hart_of, actor_of, count_of, generation_of, address_of};
ghost use Rattle.wf_text.specs.Lines.{name_of};
ghost use Rattle.wf_script.specs.Reading.{Found, next, step_in, tick_in, run_in, patch_in, begin_in, generation_in, regs_in, mem_in, arguments_in, command_in};

use crate::Command;
use crate::words::{
    Verb, actor_of, address_of, begun_of, count_of, generation_of, hart_of, verb_of,
};
use wf_flat::Actor;
use wf_text::{name_of, split_word, without_spaces};

// A command, the name of its patch (no byte where it has none), and what stands behind it.
type Named<'a> = (Command, &'a [u8], &'a [u8]);

// The next verb, and what stands behind it.
#[tactic(auto, unfolding(crate::specs::Reading::next))]
fn next_verb(rest: &[u8]) -> Result<(Verb, &[u8]), usize>
    ensures { Found (λ x. (x.0, x.1.now)) result (next verb_of rest.now) }
{
    let rest = without_spaces(rest);
    let (word, behind) = split_word(rest);
    match verb_of(word) {
        Some(value) => Ok((value, behind)),
        None => Err(rest.len()),
    }
}

// The next verb behind `begin`, and what stands behind it.
#[tactic(auto, unfolding(crate::specs::Reading::next))]
fn next_begun(rest: &[u8]) -> Result<(Verb, &[u8]), usize>
    ensures { Found (λ x. (x.0, x.1.now)) result (next begun_of rest.now) }
{
    let rest = without_spaces(rest);
    let (word, behind) = split_word(rest);
    match begun_of(word) {
        Some(value) => Ok((value, behind)),
        None => Err(rest.len()),
    }
}

// The next hart of a run with so many, and what stands behind it.
#[tactic(auto, unfolding(crate::specs::Reading::next))]
fn next_hart(rest: &[u8], harts: u8) -> Result<(u8, &[u8]), usize>
    ensures { Found (λ x. (x.0, x.1.now)) result (next (hart_of harts) rest.now) }
{
    let rest = without_spaces(rest);
    let (word, behind) = split_word(rest);
    match hart_of(word, harts) {
        Some(value) => Ok((value, behind)),
        None => Err(rest.len()),
    }
}

// The next actor of a run with so many harts, and what stands behind it.
#[tactic(auto, unfolding(crate::specs::Reading::next))]
fn next_actor(rest: &[u8], harts: u8) -> Result<(Actor, &[u8]), usize>
    ensures { Found (λ x. (x.0, x.1.now)) result (next (actor_of harts) rest.now) }
{
    let rest = without_spaces(rest);
    let (word, behind) = split_word(rest);
    match actor_of(word, harts) {
        Some(value) => Ok((value, behind)),
        None => Err(rest.len()),
    }
}

// The next number from 1 to the most, and what stands behind it.
#[tactic(auto, unfolding(crate::specs::Reading::next))]
fn next_count(rest: &[u8], most: u64) -> Result<(u64, &[u8]), usize>
    ensures { Found (λ x. (x.0, x.1.now)) result (next (count_of most) rest.now) }
{
    let rest = without_spaces(rest);
    let (word, behind) = split_word(rest);
    match count_of(word, most) {
        Some(value) => Ok((value, behind)),
        None => Err(rest.len()),
    }
}

// The next number of a generation, and what stands behind it.
#[tactic(auto, unfolding(crate::specs::Reading::next))]
fn next_generation(rest: &[u8]) -> Result<(u32, &[u8]), usize>
    ensures { Found (λ x. (x.0, x.1.now)) result (next generation_of rest.now) }
{
    let rest = without_spaces(rest);
    let (word, behind) = split_word(rest);
    match generation_of(word) {
        Some(value) => Ok((value, behind)),
        None => Err(rest.len()),
    }
}

// The next address, and what stands behind it.
#[tactic(auto, unfolding(crate::specs::Reading::next))]
fn next_address(rest: &[u8]) -> Result<(u64, &[u8]), usize>
    ensures { Found (λ x. (x.0, x.1.now)) result (next address_of rest.now) }
{
    let rest = without_spaces(rest);
    let (word, behind) = split_word(rest);
    match address_of(word) {
        Some(value) => Ok((value, behind)),
        None => Err(rest.len()),
    }
}

// The next name, and what stands behind it.
#[tactic(auto, unfolding(crate::specs::Reading::next))]
fn next_name(rest: &[u8]) -> Result<(&[u8], &[u8]), usize>
    ensures { Found (λ x. (x.0.now, x.1.now)) result (next name_of rest.now) }
{
    let rest = without_spaces(rest);
    let (word, behind) = split_word(rest);
    match name_of(word) {
        Some(value) => Ok((value, behind)),
        None => Err(rest.len()),
    }
}

// A hart and a count.
#[tactic(auto, unfolding(crate::specs::Reading::step_in))]
fn step_in(rest: &[u8], harts: u8) -> Result<Named<'_>, usize>
    ensures { Found (λ x. (x.0, x.1.now, x.2.now)) result (step_in harts rest.now) }
{
    let (hart, rest) = next_hart(rest, harts)?;
    let (n, rest) = next_count(rest, 1_000_000)?;
    Ok((Command::Step { hart, n }, &[], rest))
}

// An actor and a count.
#[tactic(auto, unfolding(crate::specs::Reading::tick_in))]
fn tick_in(rest: &[u8], harts: u8) -> Result<Named<'_>, usize>
    ensures { Found (λ x. (x.0, x.1.now, x.2.now)) result (tick_in harts rest.now) }
{
    let (actor, rest) = next_actor(rest, harts)?;
    let (n, rest) = next_count(rest, 1_000_000)?;
    Ok((Command::Tick { actor, n }, &[], rest))
}

// A count.
#[tactic(auto, unfolding(crate::specs::Reading::run_in))]
fn run_in(rest: &[u8]) -> Result<Named<'_>, usize>
    ensures { Found (λ x. (x.0, x.1.now, x.2.now)) result (run_in rest.now) }
{
    let (n, rest) = next_count(rest, 1_000_000)?;
    Ok((Command::Run { n }, &[], rest))
}

// The name of a patch.
#[tactic(auto, unfolding(crate::specs::Reading::patch_in))]
fn patch_in(rest: &[u8], index: u32, begin: bool) -> Result<Named<'_>, usize>
    ensures { Found (λ x. (x.0, x.1.now, x.2.now)) result (patch_in index begin rest.now) }
{
    let (name, rest) = next_name(rest)?;
    Ok((Command::Patch { index, begin }, name, rest))
}

// `patch` and the name of a patch.
#[tactic(auto, unfolding(crate::specs::Reading::begin_in))]
fn begin_in(rest: &[u8], index: u32) -> Result<Named<'_>, usize>
    ensures { Found (λ x. (x.0, x.1.now, x.2.now)) result (begin_in index rest.now) }
{
    let (_, rest) = next_begun(rest)?;
    patch_in(rest, index, true)
}

// A generation.
#[tactic(auto, unfolding(crate::specs::Reading::generation_in))]
fn create_in(rest: &[u8]) -> Result<Named<'_>, usize>
    ensures { Found (λ x. (x.0, x.1.now, x.2.now)) result (generation_in Create rest.now) }
{
    let (generation, rest) = next_generation(rest)?;
    Ok((Command::Create { generation }, &[], rest))
}

// A generation.
#[tactic(auto, unfolding(crate::specs::Reading::generation_in))]
fn delete_in(rest: &[u8]) -> Result<Named<'_>, usize>
    ensures { Found (λ x. (x.0, x.1.now, x.2.now)) result (generation_in Delete rest.now) }
{
    let (generation, rest) = next_generation(rest)?;
    Ok((Command::Delete { generation }, &[], rest))
}

// A generation.
#[tactic(auto, unfolding(crate::specs::Reading::generation_in))]
fn tables_in(rest: &[u8]) -> Result<Named<'_>, usize>
    ensures { Found (λ x. (x.0, x.1.now, x.2.now)) result (generation_in Tables rest.now) }
{
    let (generation, rest) = next_generation(rest)?;
    Ok((Command::Tables { generation }, &[], rest))
}

// A hart.
#[tactic(auto, unfolding(crate::specs::Reading::regs_in))]
fn regs_in(rest: &[u8], harts: u8) -> Result<Named<'_>, usize>
    ensures { Found (λ x. (x.0, x.1.now, x.2.now)) result (regs_in harts rest.now) }
{
    let (hart, rest) = next_hart(rest, harts)?;
    Ok((Command::Regs { hart }, &[], rest))
}

// An address and a count.
#[tactic(auto, unfolding(crate::specs::Reading::mem_in))]
fn mem_in(rest: &[u8]) -> Result<Named<'_>, usize>
    ensures { Found (λ x. (x.0, x.1.now, x.2.now)) result (mem_in rest.now) }
{
    let (va, rest) = next_address(rest)?;
    let (n, rest) = next_count(rest, 4096)?;
    Ok((Command::Mem { va, n }, &[], rest))
}

// What stands behind the first word.
#[tactic(auto, unfolding(crate::specs::Reading::arguments_in))]
fn arguments_in(rest: &[u8], verb: Verb, harts: u8, index: u32) -> Result<Named<'_>, usize>
    ensures { Found (λ x. (x.0, x.1.now, x.2.now)) result (arguments_in harts index verb rest.now) }
{
    match verb {
        Verb::Step => step_in(rest, harts),
        Verb::Tick => tick_in(rest, harts),
        Verb::Run => run_in(rest),
        Verb::Patch => patch_in(rest, index, false),
        Verb::Begin => begin_in(rest, index),
        Verb::Create => create_in(rest),
        Verb::Delete => delete_in(rest),
        Verb::Tables => tables_in(rest),
        Verb::Regs => regs_in(rest, harts),
        Verb::Mem => mem_in(rest),
    }
}

/// The command of a line, in a run with so many harts and behind so many patches, with the name of
/// its patch; or how many bytes of the line are left from the first wrong word on.
#[tactic(auto, unfolding(crate::specs::Reading::command_in))]
pub fn command_in(line: &[u8], harts: u8, index: u32) -> Result<(Command, &[u8]), usize>
    ensures value { Found (λ x. (x.0, x.1.now)) result (command_in harts index line.now) }
{
    let (verb, rest) = next_verb(line)?;
    let (command, name, rest) = arguments_in(rest, verb, harts, index)?;
    let rest = without_spaces(rest);
    if !rest.is_empty() {
        return Err(rest.len());
    }
    Ok((command, name))
}
