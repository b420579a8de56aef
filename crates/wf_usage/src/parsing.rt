//! The words behind the name of a command, as `clap` reads them.
ghost use Rattle.std.specs.Prelude.{◌≡◌, IfOk, codes, false, map, true};
ghost use Rattle.clap.specs.Words.{app_of, is_simple, is_simple_and_free, rule_of};
ghost use Rattle.wf_usage.specs.Parsed.{HoldsFlagged, HoldsTold, IsParse, IsReadBy, assembly_app, check_app, flag_rule, make_app, name_rule, plain_app, run_app, value_rule};
ghost use Rattle.wf_usage.specs.Words.{are_texts, assembly_usage, check_usage, make_usage, run_usage};

use clap::error::ErrorKind;
use clap::{Arg, ArgAction, ArgMatches, Command};
use std::alloc::Global;
use wf_outside::Memory;

// A name, which must be told.
fn name<'a>(alloc: Global, id: &'a str) -> Arg<'a>
    ensures rule { rule_of result ≡ name_rule id.entry.now }
    ensures own { result.global ≡ false }
{
    Arg::new(alloc, id).required(true)
}

// An option that has a value, behind `=` or in the next word.
fn value<'a>(alloc: Global, id: &'a str) -> Arg<'a>
    ensures rule { rule_of result ≡ value_rule id.entry.now }
    ensures own { result.global ≡ false }
{
    Arg::new(alloc, id).long(id).action(ArgAction::Set)
}

// An option that has no value.
fn flag<'a>(alloc: Global, id: &'a str) -> Arg<'a>
    ensures rule { rule_of result ≡ flag_rule id.entry.now }
    ensures own { result.global ≡ false }
{
    Arg::new(alloc, id).long(id).action(ArgAction::SetTrue)
}

// A command that reads the words behind its name, and that has no help.
fn plain<'a>(alloc: Global, id: &'a str) -> Command<'a>
    ensures { app_of result ≡ plain_app id.entry.now }
{
    Command::new(alloc, id)
        .no_binary_name(true)
        .disable_help_flag(true)
}

// `run IMAGE SCRIPT [--harts N] [--frames N]`.
fn run_reader<'a>(alloc: Global) -> Result<Command<'a>, Memory>
    ensures { IfOk result (λ reader. app_of reader ≡ run_app) }
{
    let reader = plain(alloc, "run")
        .arg(name(alloc, "image"))?
        .arg(name(alloc, "script"))?
        .arg(value(alloc, "harts"))?
        .arg(value(alloc, "frames"))?;
    Ok(reader)
}

// `check IMAGE JOURNAL`.
fn check_reader<'a>(alloc: Global) -> Result<Command<'a>, Memory>
    ensures { IfOk result (λ reader. app_of reader ≡ check_app) }
{
    let reader = plain(alloc, "check")
        .arg(name(alloc, "image"))?
        .arg(name(alloc, "journal"))?;
    Ok(reader)
}

// `asm SOURCE [--object]`.
fn assembly_reader<'a>(alloc: Global) -> Result<Command<'a>, Memory>
    ensures { IfOk result (λ reader. app_of reader ≡ assembly_app) }
{
    let reader = plain(alloc, "asm")
        .arg(name(alloc, "source"))?
        .arg(flag(alloc, "object"))?;
    Ok(reader)
}

// `make N`.
fn make_reader<'a>(alloc: Global) -> Result<Command<'a>, Memory>
    ensures { IfOk result (λ reader. app_of reader ≡ make_app) }
{
    let reader = plain(alloc, "make").arg(name(alloc, "functions"))?;
    Ok(reader)
}

// What a command finds in words; `None` where they are at fault.
fn parsed<'a>(reader: Command<'a>, words: &'a [&'a str]) -> Result<Option<ArgMatches<'a>>, Memory>
    requires free { is_simple_and_free (app_of reader) ≡ true }
    requires simple { is_simple (app_of reader) ≡ true }
    ensures { IfOk result (IsParse (app_of reader.entry) (map (λ w. w.now) words.now)) }
{
    match reader.try_get_matches_from(words) {
        Ok(matches) => Ok(Some(matches)),
        Err(error) => match error.kind() {
            ErrorKind::OutOfMemory => Err(Memory),
            _ => Ok(None),
        },
    }
}

/// What the words behind `run` tell of `image`, `script`, `harts` and `frames`; `None` where they
/// are at fault, but for the numbers.
pub(crate) fn run_matches<'a>(
    alloc: Global,
    words: &'a [&'a str],
) -> Result<Option<ArgMatches<'a>>, Memory>
    requires texts { are_texts (map (λ w. w.now) words.now) ≡ true }
    ensures { IfOk result (IsReadBy HoldsTold run_usage (map (λ w. w.now) words.now)) }
{
    parsed(run_reader(alloc)?, words)
}

/// What the words behind `check` tell of `image` and `journal`; `None` where they are at fault.
pub(crate) fn check_matches<'a>(
    alloc: Global,
    words: &'a [&'a str],
) -> Result<Option<ArgMatches<'a>>, Memory>
    requires texts { are_texts (map (λ w. w.now) words.now) ≡ true }
    ensures { IfOk result (IsReadBy HoldsTold check_usage (map (λ w. w.now) words.now)) }
{
    parsed(check_reader(alloc)?, words)
}

/// What the words behind `asm` tell of `source`, and whether `object` stands; `None` where they are
/// at fault.
pub(crate) fn assembly_matches<'a>(
    alloc: Global,
    words: &'a [&'a str],
) -> Result<Option<ArgMatches<'a>>, Memory>
    requires texts { are_texts (map (λ w. w.now) words.now) ≡ true }
    ensures { IfOk result (IsReadBy (HoldsFlagged (codes "source") (codes "object")) assembly_usage
        (map (λ w. w.now) words.now)) }
{
    parsed(assembly_reader(alloc)?, words)
}

/// What the words behind `make` tell of `functions`; `None` where they are at fault, but for the
/// number.
pub(crate) fn make_matches<'a>(
    alloc: Global,
    words: &'a [&'a str],
) -> Result<Option<ArgMatches<'a>>, Memory>
    requires texts { are_texts (map (λ w. w.now) words.now) ≡ true }
    ensures { IfOk result (IsReadBy HoldsTold make_usage (map (λ w. w.now) words.now)) }
{
    parsed(make_reader(alloc)?, words)
}
