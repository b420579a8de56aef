//! Where the parts of a file stand, and at which addresses they are loaded.
ghost use Rattle.std.specs.Prelude.{◌≡◌, ◌<◌, ◌≤◌, ◌+◌, ◌*◌, ◌^◌, length};
ghost use Rattle.elf_write.specs.Layout.{bases_in, bases_of, present, content_at, sizes_with, rela_count, segment_count, layout_of, AreSizes, IsInOrder};
ghost use Rattle.elf_write.specs.Places.{rounded_up};

use crate::names::{names_length, table_count};
use crate::order::relas_for;
use crate::{Form, Module};

/// The addresses of `.text`, `.rodata`, `.data` and `.bss`.
#[derive(Clone, Copy, Debug, PartialEq, Eq)]
pub struct Bases {
    pub text: u64,
    pub rodata: u64,
    pub rwdata: u64,
    pub bss: u64,
}

// The sizes of the parts of a module: bytes, but for the symbols and the relocations of each
// section.
#[derive(Clone, Copy)]
pub struct Sizes {
    pub text: u64,
    pub rodata: u64,
    pub rwdata: u64,
    pub bss: u64,
    pub symbols: u64,
    pub strings: u64,
    pub text_relas: u64,
    pub rodata_relas: u64,
    pub rwdata_relas: u64,
}

// The places of the parts of a file, and its end.
#[derive(Clone, Copy)]
pub struct Layout {
    pub text: u128,
    pub rodata: u128,
    pub rwdata: u128,
    pub relas: u128,
    pub symtab: u128,
    pub strtab: u128,
    pub shstrtab: u128,
    pub headers: u128,
    pub end: u128,
}

// The form of a module, the sizes of its parts, their places in the file, and the addresses of the
// sections.
#[derive(Clone, Copy)]
pub struct Plan {
    pub form: Form,
    pub sizes: Sizes,
    pub layout: Layout,
    pub bases: Bases,
}

// The first multiple of n that is not below a place.
fn rounded_up(n: u128, at: u128) -> u128
    requires { (0 < n) × (n ≤ 4096) × (at < 2 ^ 100) }
    ensures value { result ≡ rounded_up n at }
    ensures near { (at ≤ result) × (result < at + n) }
{
    (at + (n - 1)) / n * n
}

/// The addresses of the sections, where `.text`, `.rodata` and `.data` have so many bytes: `.text`
/// at 0x10000, `.rodata` and `.data` each at the first page behind what stands before it, and
/// `.bss` behind `.data` at a multiple of 8.
#[tactic(auto, unfolding(crate::specs::Layout::bases_of))]
pub fn bases_for(text_len: u64, rodata_len: u64, data_len: u64) -> Bases
    requires { (text_len < 2 ^ 60) × (rodata_len < 2 ^ 60) × (data_len < 2 ^ 60) }
    ensures value { result ≡ bases_of text_len rodata_len data_len }
    ensures rising { result.rwdata ≤ result.bss }
    ensures near { result.bss < 0x13008 + text_len + rodata_len + data_len }
{
    let rodata_at = rounded_up(4096, 0x10000 + u128::from(text_len));
    let data_at = rounded_up(4096, rodata_at + u128::from(rodata_len));
    let bss_at = rounded_up(8, data_at + u128::from(data_len));
    Bases {
        text: 0x10000,
        rodata: rodata_at as u64,
        rwdata: data_at as u64,
        bss: bss_at as u64,
    }
}

/// The addresses of the sections of a module of this form, where `.text`, `.rodata` and `.data`
/// have so many bytes: all 0 in an object, whose sections are placed when it is linked.
pub fn bases_in(form: Form, text_len: u64, rodata_len: u64, data_len: u64) -> Bases
    requires { (text_len < 2 ^ 60) × (rodata_len < 2 ^ 60) × (data_len < 2 ^ 60) }
    ensures value { result ≡ bases_in form text_len rodata_len data_len }
    ensures rising { result.rwdata ≤ result.bss }
    ensures near { result.bss < 0x13008 + text_len + rodata_len + data_len }
{
    match form {
        Form::Exec => bases_for(text_len, rodata_len, data_len),
        Form::Object => Bases {
            text: 0,
            rodata: 0,
            rwdata: 0,
            bss: 0,
        },
    }
}

// Whether there is a segment of so many bytes.
fn present(bytes: u128) -> u128
    ensures value { result ≡ present bytes }
    ensures few { result ≤ 1 }
{
    u128::from(bytes != 0)
}

// Where so many bytes of contents stand behind a place.
fn content_at(form: Form, place: u128, bytes: u64) -> u128
    requires { place < 2 ^ 99 }
    ensures value { result ≡ content_at form place bytes }
    ensures near { (place ≤ result) × (result < place + 4096) }
{
    match form {
        Form::Exec if bytes == 0 => place,
        Form::Exec => rounded_up(4096, place),
        Form::Object => rounded_up(8, place),
    }
}

// How many segments there are.
pub fn segment_count(form: Form, sizes: &Sizes) -> u128
    ensures value { result ≡ segment_count form sizes.now }
    ensures few { result ≤ 3 }
{
    let memory = u128::from(sizes.rwdata) + u128::from(sizes.bss);
    match form {
        Form::Exec => {
            present(u128::from(sizes.text)) + present(u128::from(sizes.rodata)) + present(memory)
        }
        Form::Object => 0,
    }
}

// How many relocations there are.
fn rela_count(sizes: &Sizes) -> u128
    ensures value { result ≡ rela_count sizes.now }
    ensures near { result < 2 ^ 66 }
{
    u128::from(sizes.text_relas) + u128::from(sizes.rodata_relas) + u128::from(sizes.rwdata_relas)
}

// The places of the parts of a file.
#[tactic(auto, unfolding(crate::specs::Layout::layout_of))]
pub fn layout_for(form: Form, sizes: &Sizes) -> Layout
    ensures value { result ≡ layout_of form sizes.now }
    // They stand in this order.
    ensures order { IsInOrder sizes.now result }
{
    let text = content_at(form, 64 + 56 * segment_count(form, sizes), sizes.text);
    let rodata = content_at(form, text + u128::from(sizes.text), sizes.rodata);
    let rwdata = content_at(form, rodata + u128::from(sizes.rodata), sizes.rwdata);
    let relas = rounded_up(8, rwdata + u128::from(sizes.rwdata));
    let symtab = relas + 24 * rela_count(sizes);
    let strtab = rounded_up(8, symtab + 24 * (u128::from(sizes.symbols) + 1));
    let shstrtab = rounded_up(8, strtab + u128::from(sizes.strings));
    let headers = rounded_up(8, shstrtab + u128::from(names_length(sizes)));
    Layout {
        text,
        rodata,
        rwdata,
        relas,
        symtab,
        strtab,
        shstrtab,
        headers,
        end: headers + 64 * (8 + u128::from(table_count(sizes))),
    }
}

// The sizes of a module whose names take so many bytes.
#[tactic(auto, unfolding(crate::specs::Layout::sizes_with))]
pub fn sizes_of(module: &Module, strings: u64) -> Sizes
    ensures value { result ≡ sizes_with «module».now strings }
    ensures fields { AreSizes «module».now strings result }
{
    Sizes {
        text: module.text.len() as u64,
        rodata: module.rodata.len() as u64,
        rwdata: module.rwdata.len() as u64,
        bss: module.bss,
        symbols: module.symbols.len() as u64,
        strings,
        text_relas: relas_for(1, &module.relas) as u64,
        rodata_relas: relas_for(2, &module.relas) as u64,
        rwdata_relas: relas_for(3, &module.relas) as u64,
    }
}
