//! Objects for the tests, and what they are linked with.
use elf_builder::{ElfBuilder, WantedSymbol};
use elf_link::{LinkFault, are_low, relocate};
use elf_load::load;
use elf_read::{Elf, Kind};
use elf_syms::Names;
use std::alloc::{AllocError, Global};
use std::test::Fail;
use wf_outside::Image;

// An entry: the number of its relocation section, the place of its field, its type, its symbol, and
// its addend.
#[derive(Clone, Copy)]
pub struct Entry {
    pub group: u32,
    pub offset: u64,
    pub kind: u32,
    pub symbol: u32,
    pub addend: i64,
}

// The place of section 1 of each object.
pub const TEXT: u64 = 0x1_0000;

// The symbols of each object: their numbers.
pub const HERE: u32 = 1;

pub const ZERO: u32 = 2;

pub const FAR: u32 = 3;

pub const TWIN: u32 = 4;

pub const ABSENT: u32 = 5;

pub const WEAK: u32 = 6;

pub const UNLOADED: u32 = 7;

pub const COMMON: u32 = 8;

pub const NAMELESS: u32 = 9;

pub const SECOND: u32 = 10;

pub const THIRD: u32 = 11;

pub const HIGHEST: u32 = 12;

pub const MEMORY: u32 = 13;

pub const WRAPPED: u32 = 14;

pub const BOTH: u32 = 15;

// The names of the symbols, each with a zero byte behind it, behind a first zero byte.
const STRINGS: [u8; 22] = *b"\0far\0twin\0absent\0both\0";

// Where the name stands in the strings, st_info, the section, and the value of each symbol.
const SYMBOLS: [(u32, u8, u16, u64); 16] = [
    (0, 0, 0, 0),
    (0, 3, 1, 0),
    (0, 0, 0xFFF1, 0),
    (1, 0x10, 0, 0),
    (5, 0x10, 0, 0),
    (10, 0x10, 0, 0),
    (10, 0x20, 0, 0),
    (1, 0, 4, 0),
    (1, 0x10, 0xFFF2, 8),
    (0, 0x10, 0, 0),
    (0, 0, 1, 4),
    (0, 0, 1, 8),
    (0, 0, 0xFFF1, 0xFFFF_FFFF_FFFF_FFFF),
    (0, 0, 2, 8),
    (0, 0, 1, 0xFFFF_FFFF_FFFF_0000),
    (17, 0x10, 0, 0),
];

fn put(out: &mut Vec<u8>, bytes: &[u8]) -> Result<(), AllocError> {
    out.extend_from_slice(bytes)
}

// A section header: the type, the flags, where the bytes stand and how many they are, the link, the
// info, and the size of an entry.
fn put_header(
    out: &mut Vec<u8>,
    words: [u32; 2],
    flags: u64,
    span: [u64; 2],
    entsize: u64,
    kind: u32,
) -> Result<(), AllocError> {
    put(out, &0u32.to_le_bytes())?;
    put(out, &kind.to_le_bytes())?;
    put(out, &flags.to_le_bytes())?;
    put(out, &0u64.to_le_bytes())?;
    for number in span {
        put(out, &number.to_le_bytes())?;
    }
    for word in words {
        put(out, &word.to_le_bytes())?;
    }
    put(out, &1u64.to_le_bytes())?;
    put(out, &entsize.to_le_bytes())
}

// The header of the file, whose section headers stand at a place.
fn put_file_header(out: &mut Vec<u8>, headers: u64) -> Result<(), AllocError> {
    put(out, b"\x7FELF\x02\x01\x01\0\0\0\0\0\0\0\0\0")?;
    put(out, b"\x01\0\xF3\0\x01\0\0\0")?;
    put(out, &[0; 16])?;
    put(out, &headers.to_le_bytes())?;
    put(out, b"\0\0\0\0\x40\0\0\0\0\0\x40\0\x0A\0\0\0")
}

// The symbols and their names.
fn put_symbols(out: &mut Vec<u8>) -> Result<(), AllocError> {
    for (name, info, section, value) in SYMBOLS {
        put(out, &name.to_le_bytes())?;
        put(out, &[info, 0])?;
        put(out, &section.to_le_bytes())?;
        put(out, &value.to_le_bytes())?;
        put(out, &0u64.to_le_bytes())?;
    }
    put(out, &STRINGS)
}

// The entries of one relocation section.
fn put_entries(out: &mut Vec<u8>, group: u32, entries: &[Entry]) -> Result<(), AllocError> {
    for entry in entries {
        if entry.group == group {
            put(out, &entry.offset.to_le_bytes())?;
            put(out, &entry.kind.to_le_bytes())?;
            put(out, &entry.symbol.to_le_bytes())?;
            put(out, &entry.addend.to_le_bytes())?;
        }
    }
    Ok(())
}

// What stands behind the header of the file and before those of the sections: the text at 64, the
// symbols, their names, and the entries of sections 7 to 9; and where each of these ends.
fn contents(
    alloc: Global,
    text: &[u8],
    entries: &[Entry],
) -> Result<(Vec<u8>, [u64; 4]), AllocError> {
    let mut out = Vec::new(alloc);
    put(&mut out, text)?;
    put_symbols(&mut out)?;
    let symbols = out.len() as u64;
    put_entries(&mut out, 7, entries)?;
    let first = out.len() as u64;
    put_entries(&mut out, 8, entries)?;
    let second = out.len() as u64;
    put_entries(&mut out, 9, entries)?;
    let third = out.len() as u64;
    Ok((out, [symbols, first, second, third]))
}

// An object: none; the text; 16 bytes of memory; 8 bytes of no type, far behind the file's end; the
// text again, which isn't loaded; the symbols; their names; and relocations for sections 1, 2 and
// 1.
fn object(alloc: Global, text: &[u8], entries: &[Entry]) -> Result<Vec<u8>, AllocError> {
    let (body, [symbols, first, second, third]) = contents(alloc, text, entries)?;
    let size = text.len() as u64;
    let mut out = Vec::new(alloc);
    put_file_header(&mut out, third.saturating_add(64))?;
    put(&mut out, &body)?;
    put_header(&mut out, [0, 0], 0, [0, 0], 0, 0)?;
    put_header(&mut out, [0, 0], 6, [64, size], 0, 1)?;
    put_header(&mut out, [0, 0], 3, [64, 16], 0, 8)?;
    put_header(&mut out, [0, 0], 2, [1 << 40, 8], 0, 0)?;
    put_header(&mut out, [0, 0], 0, [64, size], 0, 1)?;
    put_header(&mut out, [6, 3], 0, [size.saturating_add(64), 384], 24, 2)?;
    put_header(&mut out, [0, 0], 0, [size.saturating_add(448), 22], 0, 3)?;
    let spans = [
        [symbols.saturating_add(64), first.saturating_sub(symbols)],
        [first.saturating_add(64), second.saturating_sub(first)],
        [second.saturating_add(64), third.saturating_sub(second)],
    ];
    for (span, target) in spans.iter().zip([1u32, 2, 1]) {
        put_header(&mut out, [5, target], 64, *span, 24, 4)?;
    }
    Ok(out)
}

fn symbol<'a>(name: &'a [u8], info: u8, value: u64) -> WantedSymbol<'a> {
    WantedSymbol {
        name,
        st_info: info,
        st_shndx: 0xFFF1,
        st_value: value,
        st_size: 4,
    }
}

// An image with the names far, twin at two addresses, and both, once local and once global.
pub fn image(alloc: Global) -> Result<Image, Fail> {
    let mut builder = ElfBuilder::plain(alloc, &[0x73])?;
    builder.symbol(&symbol(b"both", 0, 0x111))?;
    builder.symbol(&symbol(b"far", 0x10, 0x5000_0000))?;
    builder.symbol(&symbol(b"twin", 0x10, 0x20))?;
    builder.symbol(&symbol(b"twin", 0x10, 0x24))?;
    builder.symbol(&symbol(b"both", 0x10, 0x222))?;
    let elf = Elf::read(alloc, builder.build()?, Kind::Exec)?;
    Ok(load(alloc, &elf).map_err(|_| "not loaded")?)
}

// The bytes of a section of the object with this text and these entries: section 1 is at `TEXT`,
// and 2 and 3 are at 0x20000 and 0x30000.
pub fn relocated(
    alloc: Global,
    text: &[u8],
    entries: &[Entry],
    section: u32,
) -> Result<Result<Vec<u8>, LinkFault>, Fail> {
    let bytes = object(alloc, text, entries)?;
    if u32::try_from(bytes.len()).is_err() {
        return Err("too long".into());
    }
    let elf = Elf::read(alloc, bytes, Kind::Rel)?;
    let names = Names::new(alloc, &image(alloc)?)?;
    let mut places = [None; 10];
    places[1] = Some(TEXT);
    places[2] = Some(0x2_0000);
    places[3] = Some(0x3_0000);
    if elf.sections().len() != 10 || !are_low(&elf, &places) {
        return Err("not the sections".into());
    }
    match places.get(section as usize) {
        Some(Some(_)) => Ok(relocate(alloc, &elf, section, &places, &names)),
        _ => Err("not loaded".into()),
    }
}
