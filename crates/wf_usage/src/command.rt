//! The commands of the program, and which of them words ask for.
ghost use Rattle.std.specs.Prelude.{◌≡◌, IfOk, IfSome, codes, map, option_and_then, true};
ghost use Rattle.wf_usage.specs.Usages.{Told, told_by};
ghost use Rattle.wf_usage.specs.Words.{IsSizedCommand, are_texts, asked_by, asked_of, assembly_told, assembly_usage, check_told, check_usage, make_told, make_usage, run_told, run_usage};
ghost use Rattle.wf_usage.specs.Parsed.{HoldsFlagged, HoldsTold};

use crate::parsing::{assembly_matches, check_matches, make_matches, run_matches};
use crate::sizes::{Sizes, functions_by, sizes_by};
use crate::texts::texts_of;
use clap::ArgMatches;
use elf_write::Form;
use std::alloc::Global;
use wf_outside::{Memory, Text};

/// A command, with the names of its files, which are UTF-8.
#[derive(Drop)]
pub enum Command {
    /// `run IMAGE SCRIPT [--harts N] [--frames N]`.
    Run {
        image: Text,
        script: Text,
        sizes: Sizes,
    },
    /// `check IMAGE JOURNAL`.
    Check {
        image: Text,
        journal: Text,
    },
    /// `asm SOURCE [--object]`.
    Assemble {
        source: Text,
        form: Form,
    },
    /// `make N`: of a program of so many functions, 1 to 10,000.
    Make {
        functions: u64,
    },
}

// The run that was told.
fn run_told(alloc: Global, matches: &ArgMatches<'_>) -> Result<Option<Command>, Memory>
    ensures value { (told : Told) → HoldsTold matches.now told
        → IfOk result (λ command. command ≡ run_told told) }
    ensures sized { IfOk result (λ command. IfSome command IsSizedCommand) }
{
    let Some(image) = matches.get_str("image") else {
        return Ok(None);
    };
    let Some(script) = matches.get_str("script") else {
        return Ok(None);
    };
    let Some(sizes) = sizes_by(matches.get_str("harts"), matches.get_str("frames")) else {
        return Ok(None);
    };
    let image = Text::of(alloc, image.as_bytes())?;
    let script = Text::of(alloc, script.as_bytes())?;
    Ok(Some(Command::Run {
        image,
        script,
        sizes,
    }))
}

// The check that was told.
fn check_told(alloc: Global, matches: &ArgMatches<'_>) -> Result<Option<Command>, Memory>
    ensures value { (told : Told) → HoldsTold matches.now told
        → IfOk result (λ command. command ≡ check_told told) }
    ensures sized { IfOk result (λ command. IfSome command IsSizedCommand) }
{
    let Some(image) = matches.get_str("image") else {
        return Ok(None);
    };
    let Some(journal) = matches.get_str("journal") else {
        return Ok(None);
    };
    let image = Text::of(alloc, image.as_bytes())?;
    let journal = Text::of(alloc, journal.as_bytes())?;
    Ok(Some(Command::Check { image, journal }))
}

// The assembly that was told.
fn assembly_told(alloc: Global, matches: &ArgMatches<'_>) -> Result<Option<Command>, Memory>
    ensures value { (told : Told) → HoldsFlagged (codes "source") (codes "object") matches.now told
        → IfOk result (λ command. command ≡ assembly_told told) }
    ensures sized { IfOk result (λ command. IfSome command IsSizedCommand) }
{
    let Some(source) = matches.get_str("source") else {
        return Ok(None);
    };
    let source = Text::of(alloc, source.as_bytes())?;
    let form = if matches.get_flag("object") {
        Form::Object
    } else {
        Form::Exec
    };
    Ok(Some(Command::Assemble { source, form }))
}

// The making that was told.
fn make_told(matches: &ArgMatches<'_>) -> Option<Command>
    ensures value { (told : Told) → HoldsTold matches.now told → result ≡ make_told told }
    ensures sized { IfSome result IsSizedCommand }
{
    let functions = functions_by(matches.get_str("functions")?)?;
    Some(Command::Make { functions })
}

// The run that the words behind `run` ask for.
fn run_by(alloc: Global, words: &[&str]) -> Result<Option<Command>, Memory>
    requires texts { are_texts (map (λ w. w.now) words.now) ≡ true }
    ensures value { IfOk result (λ command. command
        ≡ option_and_then run_told (told_by run_usage (map (λ w. w.now) words.now))) }
    ensures sized { IfOk result (λ command. IfSome command IsSizedCommand) }
{
    let Some(matches) = run_matches(alloc, words)? else {
        return Ok(None);
    };
    run_told(alloc, &matches)
}

// The check that the words behind `check` ask for.
fn check_by(alloc: Global, words: &[&str]) -> Result<Option<Command>, Memory>
    requires texts { are_texts (map (λ w. w.now) words.now) ≡ true }
    ensures value { IfOk result (λ command. command
        ≡ option_and_then check_told (told_by check_usage (map (λ w. w.now) words.now))) }
    ensures sized { IfOk result (λ command. IfSome command IsSizedCommand) }
{
    let Some(matches) = check_matches(alloc, words)? else {
        return Ok(None);
    };
    check_told(alloc, &matches)
}

// The assembly that the words behind `asm` ask for.
fn assembly_by(alloc: Global, words: &[&str]) -> Result<Option<Command>, Memory>
    requires texts { are_texts (map (λ w. w.now) words.now) ≡ true }
    ensures value { IfOk result (λ command. command
        ≡ option_and_then assembly_told (told_by assembly_usage (map (λ w. w.now) words.now))) }
    ensures sized { IfOk result (λ command. IfSome command IsSizedCommand) }
{
    let Some(matches) = assembly_matches(alloc, words)? else {
        return Ok(None);
    };
    assembly_told(alloc, &matches)
}

// The making that the words behind `make` ask for.
fn make_by(alloc: Global, words: &[&str]) -> Result<Option<Command>, Memory>
    requires texts { are_texts (map (λ w. w.now) words.now) ≡ true }
    ensures value { IfOk result (λ command. command
        ≡ option_and_then make_told (told_by make_usage (map (λ w. w.now) words.now))) }
    ensures sized { IfOk result (λ command. IfSome command IsSizedCommand) }
{
    let Some(matches) = make_matches(alloc, words)? else {
        return Ok(None);
    };
    Ok(make_told(&matches))
}

// What a command of this name is asked for by the words behind it.
fn asked_of(alloc: Global, name: &str, words: &[&str]) -> Result<Option<Command>, Memory>
    requires texts { are_texts (map (λ w. w.now) words.now) ≡ true }
    ensures value { IfOk result (λ command. command
        ≡ asked_of name.now (map (λ w. w.now) words.now)) }
    ensures sized { IfOk result (λ command. IfSome command IsSizedCommand) }
{
    match name {
        "run" => run_by(alloc, words),
        "check" => check_by(alloc, words),
        "asm" => assembly_by(alloc, words),
        "make" => make_by(alloc, words),
        _ => Ok(None),
    }
}

/// The command that words ask for; `None` where they are those of no command.
///
/// The first word is the command's name. An option stands anywhere behind it, once at most:
/// `--harts 2` or `--harts=2`, `--object`. Behind `--` each word is a name; before it a word that
/// begins with a dash is an option, but `-` alone is a name. Numbers are decimal digits without a
/// leading zero: 1 to 64 harts, 1 where none are told; 64 to 65,536 frames, 1,024 where none are
/// told; 1 to 10,000 functions. Each word is UTF-8.
pub fn command_of(alloc: Global, words: &[Text]) -> Result<Option<Command>, Memory>
    ensures value { IfOk result (λ command. command ≡ asked_by words.now) }
    ensures sized { IfOk result (λ command. IfSome command IsSizedCommand) }
{
    let Some(texts) = texts_of(alloc, words)? else {
        return Ok(None);
    };
    match texts.as_slice() {
        [] => Ok(None),
        [name, rest @ ..] => asked_of(alloc, name, rest),
    }
}
