//! What is printed of a module.
use anyhow::{Result, bail};
use elf_write::{Form, Module};
use rv_asm::{AsmFault, AsmRule, assemble};
use rv_encode::dis;
use rv_inst::decode;

// How many bytes of a section are printed.
const SOME: usize = 16;

// Bytes in hexadecimal digits.
fn print_bytes<R: Print + AllocGlobal>(rt: &R, name: &str, bytes: &[u8]) -> Result<()> {
    println!(rt; "{name} {}", hex::encode(rt.alloc(), bytes)?)?;
    Ok(())
}

// The first bytes of a section, and two dots where there are more.
fn print_some<R: Print + AllocGlobal>(rt: &R, bytes: &[u8]) -> Result<()> {
    match bytes.get(..SOME) {
        Some(front) if front.len() < bytes.len() => {
            println!(rt; "{} ..", hex::encode(rt.alloc(), front)?)?;
        }
        _ => println!(rt; "{}", hex::encode(rt.alloc(), bytes)?)?,
    }
    Ok(())
}

// The words of instructions, each with its text.
fn print_words<R: Print + AllocGlobal>(rt: &R, text: &[u8]) -> Result<()> {
    for bytes in text.chunks_exact(4) {
        let Ok(bytes) = <[u8; 4]>::try_from(bytes) else {
            bail!("no word");
        };
        let word = u32::from_le_bytes(bytes);
        let Some(inst) = decode(word) else {
            bail!("{word:08x} is no instruction");
        };
        let Ok(shown) = dis(rt.alloc(), inst) else {
            bail!("memory");
        };
        println!(rt; "{word:08x} {}", str::from_utf8(shown.bytes())?)?;
    }
    Ok(())
}

// A line for each symbol: its name, section, value, size, and who sees it.
fn print_names<R: Print>(rt: &R, module: &Module) -> Result<()> {
    for symbol in &module.symbols {
        let name = str::from_utf8(symbol.name.bytes())?;
        let seen = if symbol.global { "global" } else { "local" };
        println!(rt;
            "name {name} {} {:x} {} {seen}",
            symbol.section, symbol.value, symbol.size
        )?;
    }
    Ok(())
}

// A line for each relocation: its section, place, type, symbol and addend.
fn print_relas<R: Print>(rt: &R, module: &Module) -> Result<()> {
    for rela in &module.relas {
        println!(rt;
            "rela {} {} {} {} {}",
            rela.section, rela.offset, rela.kind, rela.symbol, rela.addend
        )?;
    }
    Ok(())
}

// All of a module.
fn print_module<R: Print + AllocGlobal>(rt: &R, module: &Module) -> Result<()> {
    println!(rt; "entry {:x}", module.entry)?;
    print_bytes(rt, ".text", &module.text)?;
    print_bytes(rt, ".rodata", &module.rodata)?;
    print_bytes(rt, ".data", &module.rwdata)?;
    println!(rt; ".bss {}", module.bss)?;
    print_names(rt, module)?;
    print_relas(rt, module)
}

// What is asked of a module.
fn print_part<R: Print + AllocGlobal>(rt: &R, what: &[u8], module: &Module) -> Result<()> {
    match str::from_utf8(what)? {
        "text" => print_some(rt, &module.text),
        "data" => print_some(rt, &module.rwdata),
        "words" => print_words(rt, &module.text),
        "entry" => {
            println!(rt; "{:x}", module.entry)?;
            Ok(())
        }
        "fault" => {
            println!(rt; "no fault")?;
            Ok(())
        }
        "names" => print_names(rt, module),
        "relas" => print_relas(rt, module),
        "module" => print_module(rt, module),
        _ => bail!("nothing is printed by this name"),
    }
}

/// What is asked of a source in a form, or its fault.
pub fn print_source<R: Print + AllocGlobal>(
    rt: &R,
    form: Form,
    what: &[u8],
    source: &[u8],
) -> Result<()> {
    match assemble(rt.alloc(), source, form) {
        Ok(module) => print_part(rt, what, &module),
        Err(AsmFault::Memory) => bail!("memory"),
        Err(AsmFault::At { line, rule }) => {
            let name = match rule {
                AsmRule::Syntax => "syntax",
                AsmRule::Twice => "twice",
                AsmRule::Unknown => "unknown",
                AsmRule::Range => "range",
            };
            println!(rt; "line {line} {name}")?;
            Ok(())
        }
    }
}
