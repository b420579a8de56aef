//! The parts of a line.
ghost use Rattle.std.specs.Prelude.{◌≡◌, ◌++◌, ◌≤◌, OnOk, codes};
ghost use Rattle.std.specs.Fmt.{decimal};
ghost use Rattle.wf_text.specs.Numbers.{hex, last_hex};
ghost use Rattle.wf_journal.specs.Entries.{spaced, actor_text, right_text, patch_text, numbers_text};
ghost use Rattle.wf_journal.specs.Headers.{line};

use wf_flat::Actor;
use wf_outside::Memory;
use wf_text::{push_decimal, push_hex, push_last_hex};

/// Appends a space and the number in hexadecimal.
pub fn spaced_hex(out: &mut Vec<u8>, n: u64) -> Result<(), Memory>
    ensures { OnOk result (out.new.items ≡ out.old.items ++ spaced (hex n)) }
{
    out.push(b' ')?;
    push_hex(out, n)?;
    Ok(())
}

/// Appends a space and the number in decimal.
pub fn spaced_decimal(out: &mut Vec<u8>, n: u64) -> Result<(), Memory>
    ensures { OnOk result (out.new.items ≡ out.old.items ++ spaced (decimal n)) }
{
    out.push(b' ')?;
    push_decimal(out, n)?;
    Ok(())
}

/// Appends a space and the last so many hexadecimal digits of the number.
pub fn spaced_last_hex(out: &mut Vec<u8>, width: usize, n: u64) -> Result<(), Memory>
    requires { width ≤ 16 }
    ensures { OnOk result (out.new.items ≡ out.old.items ++ spaced (last_hex width n)) }
{
    out.push(b' ')?;
    push_last_hex(out, width, n)?;
    Ok(())
}

/// Appends an actor: `h` and a hart's number, or `k`.
#[tactic(auto, unfolding(crate::specs::Entries::actor_text))]
pub fn push_actor(out: &mut Vec<u8>, actor: Actor) -> Result<(), Memory>
    ensures { OnOk result (out.new.items ≡ out.old.items ++ actor_text actor) }
{
    match actor {
        Actor::Hart(h) => {
            out.push(b'h')?;
            push_decimal(out, u64::from(h))?;
        }
        Actor::Kernel => out.push(b'k')?,
    }
    Ok(())
}

/// Appends a right: `rw`, or `r` alone.
pub fn push_right(out: &mut Vec<u8>, write: bool) -> Result<(), Memory>
    ensures { OnOk result (out.new.items ≡ out.old.items ++ right_text write) }
{
    if write {
        out.extend_from_slice(b"rw")?;
    } else {
        out.extend_from_slice(b"r")?;
    }
    Ok(())
}

/// Appends a patch: `p` and its number, or the text that stands for none.
pub fn push_patch(out: &mut Vec<u8>, none: &[u8], patch: Option<u32>) -> Result<(), Memory>
    ensures { OnOk result (out.new.items ≡ out.old.items ++ patch_text none.now patch) }
{
    match patch {
        None => out.extend_from_slice(none)?,
        Some(k) => {
            out.push(b'p')?;
            push_decimal(out, u64::from(k))?;
        }
    }
    Ok(())
}

/// Appends a name, and behind a space a number in hexadecimal.
pub fn name_hex(out: &mut Vec<u8>, name: &[u8], n: u64) -> Result<(), Memory>
    ensures { OnOk result (out.new.items ≡ out.old.items ++ name.now ++ spaced (hex n)) }
{
    out.extend_from_slice(name)?;
    spaced_hex(out, n)
}

/// Appends a name, and behind a space a number in decimal.
pub fn name_decimal(out: &mut Vec<u8>, name: &[u8], n: u64) -> Result<(), Memory>
    ensures { OnOk result (out.new.items ≡ out.old.items ++ name.now ++ spaced (decimal n)) }
{
    out.extend_from_slice(name)?;
    spaced_decimal(out, n)
}

/// Appends a name, a number in decimal and one in hexadecimal, each behind a space.
pub fn name_decimal_hex(out: &mut Vec<u8>, name: &[u8], m: u64, n: u64) -> Result<(), Memory>
    ensures { OnOk result (out.new.items ≡ out.old.items ++ numbers_text name.now m n) }
{
    out.extend_from_slice(name)?;
    spaced_decimal(out, m)?;
    spaced_hex(out, n)
}

/// Appends a name, and behind a space an actor.
pub fn name_actor(out: &mut Vec<u8>, name: &[u8], actor: Actor) -> Result<(), Memory>
    ensures { OnOk result (out.new.items ≡ out.old.items ++ name.now ++ spaced (actor_text actor)) }
{
    out.extend_from_slice(name)?;
    out.push(b' ')?;
    push_actor(out, actor)
}

/// Appends a line of a name and a number in decimal.
pub fn push_number_line(out: &mut Vec<u8>, name: &[u8], n: u64) -> Result<(), Memory>
    ensures { OnOk result (out.new.items ≡ out.old.items ++ line (name.now ++ decimal n)) }
{
    out.extend_from_slice(name)?;
    push_decimal(out, n)?;
    out.push(b'\n')?;
    Ok(())
}
