//! What single statements take and put.
use crate::behind;
use anyhow::{Result, bail};
use asm_bytes::{PutFault, put, size_of};
use asm_lines::{SectionId, Statement, read_line};
use std::alloc::Global;
use wf_text::{any_hex_of, decimal_of, split_word};

// Where a statement stands: its section, how many bytes stand there before it, its address, and the
// address of the label that it names.
#[derive(Clone, Copy)]
struct Spot {
    section: SectionId,
    before: u64,
    address: u64,
    target: u64,
}

fn section_of(name: &[u8]) -> Result<SectionId> {
    match str::from_utf8(name)? {
        "text" => Ok(SectionId::Text),
        "rodata" => Ok(SectionId::Rodata),
        "data" => Ok(SectionId::Data),
        "bss" => Ok(SectionId::Bss),
        _ => bail!("no section has this name"),
    }
}

// The place that four words say, and what stands behind them.
fn spot_of(words: &[u8]) -> Result<(Spot, &[u8])> {
    let (section, rest) = split_word(words);
    let (before, rest) = split_word(behind(rest));
    let (address, rest) = split_word(behind(rest));
    let (target, rest) = split_word(behind(rest));
    let (Some(before), Some(address), Some(target)) = (
        decimal_of(before, 65_536),
        any_hex_of(address, u64::MAX),
        any_hex_of(target, u64::MAX),
    ) else {
        bail!("a place has three numbers");
    };
    let spot = Spot {
        section: section_of(section)?,
        before,
        address,
        target,
    };
    Ok((spot, behind(rest)))
}

// The bytes that a statement puts behind others; none where it is out of range.
fn put_bytes(alloc: Global, spot: Spot, statement: &Statement<'_>) -> Result<Option<Vec<u8>>> {
    let before = spot.before as usize;
    let mut out = vec![in alloc; 0xEE; before]?;
    let address = u128::from(spot.address);
    match put(
        &mut out,
        spot.section,
        address,
        u128::from(spot.target),
        statement,
    ) {
        Ok(()) => Ok(Some(out.get(before..).unwrap_or(&[]).to_vec(alloc)?)),
        Err(PutFault::Range) => Ok(None),
        Err(PutFault::Memory) => bail!("memory"),
    }
}

/// How many bytes a statement takes at a place, and which it puts; or that it is out of range.
pub fn print_statement<R: Print + AllocGlobal>(rt: &R, words: &[u8]) -> Result<()> {
    let (spot, text) = spot_of(words)?;
    let Some(line) = read_line(text) else {
        bail!("this is no line");
    };
    let Some(bytes) = put_bytes(rt.alloc(), spot, &line.statement)? else {
        println!(rt; "range")?;
        return Ok(());
    };
    let Some(size) = size_of(spot.section, u128::from(spot.before), &line.statement) else {
        bail!("a statement that puts bytes takes none");
    };
    println!(rt; "{size} {}", hex::encode(rt.alloc(), bytes)?)?;
    Ok(())
}
