//! What a script lists of the machine.
ghost use Rattle.std.specs.Prelude.{◌≡◌, ◌<◌, ◌≤◌, ◌+◌, ◌%◌, ◌^◌, ◌++◌, IfOk, OnOk, length};
ghost use Rattle.std.specs.List.{flat_map};
ghost use Rattle.wf_outside.specs.Pages.{page_of};
ghost use Rattle.wf_flat.specs.Memory.{data_in};
ghost use Rattle.wf_flat.specs.Ordered.{IsOrdered};
ghost use Rattle.wf_journal.specs.Finals.{register_text};
ghost use Rattle.wf_report.specs.Listings.{bytes_text, doubleword_line, mem_lines, regs_lines};

use std::alloc::Global;
use wf_flat::Flat;
use wf_outside::{Memory, PAGE_SIZE};
use wf_text::{push_decimal, push_hex};

// Registers, each after a space.
fn push_registers(out: &mut Vec<u8>, registers: &[u64]) -> Result<(), Memory>
    ensures { OnOk result (out.new.items ≡ out.old.items ++ flat_map register_text registers.now) }
{
    for register in registers {
        out.push(b' ')?;
        push_hex(out, *register)?;
    }
    Ok(())
}

/// The listing of a hart's registers: one line, with x1 to x31.
#[tactic(auto, unfolding(crate::specs::Listings::regs_lines))]
pub fn regs_listing(alloc: Global, hart: u8, flat: &Flat) -> Result<Vec<u8>, Memory>
    requires { hart < length flat.now.harts }
    ensures { IfOk result (λ lines. lines.items ≡ regs_lines hart flat.now) }
{
    let mut out = Vec::new(alloc);
    let arch = flat.harts[hart as usize].arch;
    out.extend_from_slice(b"| regs ")?;
    push_decimal(&mut out, u64::from(hart))?;
    push_registers(&mut out, &arch.x[1..])?;
    out.push(b'\n')?;
    Ok(out)
}

// The eight bytes at an address of data, or `-`.
#[tactic(auto, unfolding(crate::specs::Listings::bytes_text))]
fn push_bytes(out: &mut Vec<u8>, alloc: Global, flat: &Flat, va: u64) -> Result<(), Memory>
    requires ordered { IsOrdered flat.now }
    ensures { OnOk result
        (out.new.items ≡ out.old.items ++ bytes_text va (data_in flat.now.pages (page_of va))) }
{
    match flat.data_page(va / PAGE_SIZE) {
        Some(page) => {
            let word = page.number_at(va % PAGE_SIZE, 8);
            let text = hex::encode(alloc, word.to_le_bytes())?;
            out.extend_from_slice(text.as_bytes())?;
        }
        None => out.push(b'-')?,
    }
    Ok(())
}

// The line of a doubleword.
#[tactic(auto, unfolding(crate::specs::Listings::doubleword_line))]
fn push_doubleword(out: &mut Vec<u8>, alloc: Global, flat: &Flat, va: u64) -> Result<(), Memory>
    requires ordered { IsOrdered flat.now }
    ensures { OnOk result (out.new.items ≡ out.old.items ++ doubleword_line va flat.now) }
{
    out.extend_from_slice(b"| mem ")?;
    push_hex(out, va)?;
    out.push(b' ')?;
    push_bytes(out, alloc, flat, va)?;
    out.push(b'\n')?;
    Ok(())
}

/// The listing of so many doublewords from an address on, a line each. The time is in proportion to
/// their count, and to the logarithm of the pages.
#[tactic(auto, unfolding(crate::specs::Listings::mem_lines))]
pub fn mem_listing(alloc: Global, va: u64, n: u64, flat: &Flat) -> Result<Vec<u8>, Memory>
    requires low { va < 2 ^ 38 }
    requires few { n ≤ 4096 }
    requires ordered { IsOrdered flat.now }
    ensures { IfOk result (λ lines. lines.items ≡ mem_lines va n flat.now) }
{
    let mut out = Vec::new(alloc);
    for i in 0..n {
        push_doubleword(&mut out, alloc, flat, va + 8 * i)?;
    }
    Ok(out)
}
