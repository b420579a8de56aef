//! The names of the sections.
ghost use Rattle.std.specs.Prelude.{◌≡◌, ◌≤◌, ◌+◌, ◌++◌, IfOk, OnOk, length};
ghost use Rattle.elf_write.specs.Names.{name_if, name_places, section_names, table_count};

use crate::layout::Sizes;
use std::alloc::Global;
use wf_outside::Memory;

// The names of the sections of the program, behind a zero byte, and of the tables.
const PROGRAM_NAMES: [u8; 26] = *b"\0.text\0.rodata\0.data\0.bss\0";

const TABLE_NAMES: [u8; 26] = *b".symtab\0.strtab\0.shstrtab\0";

// Where in .shstrtab the names of .rela.rodata, .rela.data and .symtab stand.
#[derive(Clone, Copy)]
pub struct NamePlaces {
    pub rodata: u32,
    pub rwdata: u32,
    pub symtab: u32,
}

// How many of three sections have entries.
pub fn table_count(sizes: &Sizes) -> u32
    ensures value { result ≡ table_count sizes.now }
    ensures few { result ≤ 3 }
{
    u32::from(sizes.text_relas != 0)
        + u32::from(sizes.rodata_relas != 0)
        + u32::from(sizes.rwdata_relas != 0)
}

// The length of the name of a section with so many entries, with its zero byte.
fn name_length(count: u64, name: &[u8]) -> u32
    requires { length name.now ≤ 12 }
    ensures value { result ≡ length (name_if count name.now) }
    ensures few { result ≤ 13 }
{
    if count == 0 { 0 } else { name.len() as u32 + 1 }
}

// Where the names of sections stand.
pub fn name_places(sizes: &Sizes) -> NamePlaces
    ensures value { result ≡ name_places sizes.now }
    ensures near { result.symtab ≤ 65 }
{
    let rodata = 26 + name_length(sizes.text_relas, b".rela.text");
    let rwdata = rodata + name_length(sizes.rodata_relas, b".rela.rodata");
    NamePlaces {
        rodata,
        rwdata,
        symtab: rwdata + name_length(sizes.rwdata_relas, b".rela.data"),
    }
}

// The length of .shstrtab.
pub fn names_length(sizes: &Sizes) -> u32
    ensures value { result ≡ length (section_names sizes.now) }
    ensures few { result ≤ 91 }
{
    name_places(sizes).symtab + 26
}

// Adds the name of a section with so many entries, and its zero byte.
fn push_name(out: &mut Vec<u8>, count: u64, name: &[u8]) -> Result<(), Memory>
    ensures { OnOk result (out.new.items ≡ out.old.items ++ name_if count name.now) }
{
    if count != 0 {
        out.extend_from_slice(name)?;
        out.push(0)?;
    }
    Ok(())
}

// .shstrtab: a zero byte, and the name of each section with its zero byte.
pub fn section_names(alloc: Global, sizes: &Sizes) -> Result<Vec<u8>, Memory>
    ensures { IfOk result (λ bytes. bytes.items ≡ section_names sizes.now) }
{
    let mut out = PROGRAM_NAMES.to_vec(alloc)?;
    push_name(&mut out, sizes.text_relas, b".rela.text")?;
    push_name(&mut out, sizes.rodata_relas, b".rela.rodata")?;
    push_name(&mut out, sizes.rwdata_relas, b".rela.data")?;
    out.extend_from_slice(&TABLE_NAMES)?;
    Ok(out)
}
