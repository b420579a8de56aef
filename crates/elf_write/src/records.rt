//! The headers of segments and sections in a file.
ghost use Rattle.std.specs.Prelude.{◌≡◌, ◌<◌, ◌≤◌, ◌+◌, ◌*◌, ◌^◌, ◌++◌, OnOk, IfOk, length};
ghost use Rattle.std.specs.List.{flat_map};
ghost use Rattle.elf_write.specs.Layout.{IsInOrder};
ghost use Rattle.elf_write.specs.Records.{contents, data_memory, load, null_section, program_sections, rela_section, rela_sections, section_back, section_bytes, section_front, segment_bytes, symtab_section, table_sections};
ghost use Rattle.elf_write.specs.Names.{section_names, table_count};
ghost use Rattle.elf_write.specs.Places.{if_any};
ghost use Rattle.elf_write.specs.Written.{sections_in, segments_in};

use crate::Form;
use crate::constants::{SHF_ALLOC, SHF_EXECINSTR, SHF_INFO_LINK, SHF_WRITE};
use crate::layout::{Bases, Layout, Plan, Sizes};
use crate::names::{name_places, names_length, table_count};
use crate::numbers::{put_words, put_xwords};
use elf_read::constants::{
    PF_R, PF_W, PF_X, PT_LOAD, SHT_NOBITS, SHT_NULL, SHT_PROGBITS, SHT_RELA, SHT_STRTAB, SHT_SYMTAB,
};
use elf_read::{Section, Segment};
use std::alloc::Global;
use wf_outside::Memory;

// Adds a program header.
#[tactic(auto, unfolding(crate::specs::Records::segment_bytes))]
fn put_segment(out: &mut Vec<u8>, segment: &Segment) -> Result<(), Memory>
    ensures { OnOk result (out.new.items ≡ out.old.items ++ segment_bytes segment.now) }
{
    let s = segment;
    put_words(out, &[s.p_type, s.p_flags])?;
    put_xwords(
        out,
        &[
            s.p_offset, s.p_vaddr, s.p_paddr, s.p_filesz, s.p_memsz, s.p_align,
        ],
    )
}

// Adds the headers of the segments.
pub fn put_segments(out: &mut Vec<u8>, segments: &[Segment]) -> Result<(), Memory>
    ensures { OnOk result (out.new.items ≡ out.old.items ++ flat_map segment_bytes segments.now) }
{
    for segment in segments {
        put_segment(out, segment)?;
    }
    Ok(())
}

// Adds a section header, to its size.
#[tactic(auto, unfolding(crate::specs::Records::section_front))]
fn put_section_front(out: &mut Vec<u8>, section: &Section) -> Result<(), Memory>
    ensures { OnOk result (out.new.items ≡ out.old.items ++ section_front section.now) }
{
    let s = section;
    put_words(out, &[s.sh_name, s.sh_type])?;
    put_xwords(out, &[s.sh_flags, s.sh_addr, s.sh_offset, s.sh_size])
}

// Adds a section header, from its link on.
#[tactic(auto, unfolding(crate::specs::Records::section_back))]
fn put_section_back(out: &mut Vec<u8>, section: &Section) -> Result<(), Memory>
    ensures { OnOk result (out.new.items ≡ out.old.items ++ section_back section.now) }
{
    let s = section;
    put_words(out, &[s.sh_link, s.sh_info])?;
    put_xwords(out, &[s.sh_addralign, s.sh_entsize])
}

// Adds a section header.
fn put_section(out: &mut Vec<u8>, section: &Section) -> Result<(), Memory>
    ensures { OnOk result (out.new.items ≡ out.old.items ++ section_bytes section.now) }
{
    put_section_front(out, section)?;
    put_section_back(out, section)
}

// The headers of the sections.
pub fn section_headers(alloc: Global, sections: &[Section]) -> Result<Vec<u8>, Memory>
    ensures { IfOk result (λ bytes. bytes.items ≡ flat_map section_bytes sections.now) }
{
    let mut out = Vec::new(alloc);
    for section in sections {
        put_section(&mut out, section)?;
    }
    Ok(out)
}

// A segment to be loaded.
fn load(rights: u32, offset: u64, addr: u64, filesz: u64, memsz: u64) -> Segment
    ensures { result ≡ load rights offset addr filesz memsz }
{
    Segment {
        p_type: PT_LOAD,
        p_flags: rights,
        p_offset: offset,
        p_vaddr: addr,
        p_paddr: addr,
        p_filesz: filesz,
        p_memsz: memsz,
        p_align: 4096,
    }
}

// Adds the segment, if it has bytes.
fn push_any(out: &mut Vec<Segment>, bytes: u64, segment: Segment) -> Result<(), Memory>
    ensures value { OnOk result (out.new.items ≡ out.old.items ++ if_any bytes segment) }
    ensures few { length out.new.items ≤ length out.old.items + 1 }
{
    if bytes != 0 {
        out.push(segment)?;
    }
    Ok(())
}

// The memory of the segment of .data.
fn data_memory(sizes: &Sizes, bases: &Bases) -> u64
    requires { (bases.now.rwdata ≤ bases.now.bss) × (bases.now.bss + sizes.now.bss < 2 ^ 64) }
    ensures { result ≡ data_memory sizes.now bases.now }
{
    if sizes.bss == 0 {
        sizes.rwdata
    } else {
        bases.bss + sizes.bss - bases.rwdata
    }
}

// The segments of an executable file.
#[tactic(auto, unfolding(crate::specs::Records::segments_of))]
fn exec_segments(alloc: Global, plan: &Plan) -> Result<Vec<Segment>, Memory>
    requires form { plan.now.form ≡ Form.Exec }
    requires order { IsInOrder plan.now.sizes plan.now.layout }
    requires short { (plan.now.layout.end < 2 ^ 32) × (plan.now.sizes.bss ≤ 2 ^ 32) }
    requires memory { (plan.now.bases.rwdata ≤ plan.now.bases.bss) × (plan.now.bases.bss < 2 ^ 35) }
    ensures value { IfOk result (λ segments. segments.items ≡ segments_in plan.now) }
    ensures few { IfOk result (λ segments. length segments.items ≤ 3) }
{
    let (sizes, layout, bases) = (&plan.sizes, &plan.layout, &plan.bases);
    let (text, rodata, rwdata) = (sizes.text, sizes.rodata, sizes.rwdata);
    let rwdata_at = if rwdata == 0 { 0 } else { layout.rwdata as u64 };
    let memory = data_memory(sizes, bases);
    let mut out = Vec::new(alloc);
    let code = load(PF_R + PF_X, layout.text as u64, bases.text, text, text);
    push_any(&mut out, text, code)?;
    let constants = load(PF_R, layout.rodata as u64, bases.rodata, rodata, rodata);
    push_any(&mut out, rodata, constants)?;
    let variables = load(PF_R + PF_W, rwdata_at, bases.rwdata, rwdata, memory);
    push_any(&mut out, rwdata + sizes.bss, variables)?;
    Ok(out)
}

// The segments.
#[tactic(auto, unfolding(crate::specs::Records::segments_of))]
pub fn segments(alloc: Global, plan: &Plan) -> Result<Vec<Segment>, Memory>
    requires order { IsInOrder plan.now.sizes plan.now.layout }
    requires short { (plan.now.layout.end < 2 ^ 32) × (plan.now.sizes.bss ≤ 2 ^ 32) }
    requires memory { (plan.now.bases.rwdata ≤ plan.now.bases.bss) × (plan.now.bases.bss < 2 ^ 35) }
    ensures value { IfOk result (λ segments. segments.items ≡ segments_in plan.now) }
    ensures few { IfOk result (λ segments. length segments.items ≤ 3) }
{
    match plan.form {
        Form::Exec => exec_segments(alloc, plan),
        Form::Object => Ok(Vec::new(alloc)),
    }
}

// A section that is loaded, or one with names.
fn contents(name: u32, kind: u32, rights: u64, addr: u64, offset: u64, size: u64) -> Section
    ensures { result ≡ contents name kind rights addr offset size }
{
    Section {
        sh_name: name,
        sh_type: kind,
        sh_flags: rights,
        sh_addr: addr,
        sh_offset: offset,
        sh_size: size,
        sh_link: 0,
        sh_info: 0,
        sh_addralign: 8,
        sh_entsize: 0,
    }
}

// Section 0.
fn null_section() -> Section
    ensures { result ≡ null_section }
{
    Section {
        sh_name: 0,
        sh_type: SHT_NULL,
        sh_flags: 0,
        sh_addr: 0,
        sh_offset: 0,
        sh_size: 0,
        sh_link: 0,
        sh_info: 0,
        sh_addralign: 0,
        sh_entsize: 0,
    }
}

// .symtab, behind so many sections of relocations, in which so many symbols behind symbol 0 are
// local.
fn symtab_section(tables: u32, name: u32, offset: u64, size: u64, locals: u32) -> Section
    requires { (tables ≤ 3) × (locals + 1 < 2 ^ 32) }
    ensures { result ≡ symtab_section tables name offset size locals }
{
    Section {
        sh_name: name,
        sh_type: SHT_SYMTAB,
        sh_flags: 0,
        sh_addr: 0,
        sh_offset: offset,
        sh_size: size,
        sh_link: 6 + tables,
        sh_info: 1 + locals,
        sh_addralign: 8,
        sh_entsize: 24,
    }
}

// A section of so many relocations.
fn rela_section(tables: u32, name: u32, offset: u64, count: u64, target: u32) -> Section
    requires { (tables ≤ 3) × (24 * count < 2 ^ 64) }
    ensures { result ≡ rela_section tables name offset count target }
{
    Section {
        sh_name: name,
        sh_type: SHT_RELA,
        sh_flags: SHF_INFO_LINK,
        sh_addr: 0,
        sh_offset: offset,
        sh_size: 24 * count,
        sh_link: 5 + tables,
        sh_info: target,
        sh_addralign: 8,
        sh_entsize: 24,
    }
}

// The sections that the program has.
#[tactic(auto, unfolding(crate::specs::Records::program_sections))]
fn program_sections(sizes: &Sizes, layout: &Layout, bases: &Bases) -> [Section; 5]
    requires order { IsInOrder sizes.now layout.now }
    requires short { layout.now.end < 2 ^ 32 }
    ensures { result ≡ program_sections sizes.now layout.now bases.now }
{
    let (text, rodata) = (layout.text as u64, layout.rodata as u64);
    let rwdata = layout.rwdata as u64;
    let constants = SHF_ALLOC;
    let variables = SHF_WRITE + SHF_ALLOC;
    let code = SHF_ALLOC + SHF_EXECINSTR;
    [
        null_section(),
        contents(1, SHT_PROGBITS, code, bases.text, text, sizes.text),
        contents(
            7,
            SHT_PROGBITS,
            constants,
            bases.rodata,
            rodata,
            sizes.rodata,
        ),
        contents(
            15,
            SHT_PROGBITS,
            variables,
            bases.rwdata,
            rwdata,
            sizes.rwdata,
        ),
        contents(
            21,
            SHT_NOBITS,
            variables,
            bases.bss,
            rwdata + sizes.rwdata,
            sizes.bss,
        ),
    ]
}

// Adds the section, if it has entries.
fn push_table(out: &mut Vec<Section>, count: u64, section: Section) -> Result<(), Memory>
    ensures { OnOk result (out.new.items ≡ out.old.items ++ if_any count section) }
{
    if count != 0 {
        out.push(section)?;
    }
    Ok(())
}

// Adds the sections of relocations.
#[tactic(auto, unfolding(crate::specs::Records::rela_sections))]
fn push_rela_sections(out: &mut Vec<Section>, sizes: &Sizes, layout: &Layout) -> Result<(), Memory>
    requires order { IsInOrder sizes.now layout.now }
    requires short { layout.now.end < 2 ^ 32 }
    ensures { OnOk result (out.new.items ≡ out.old.items ++ rela_sections sizes.now layout.now) }
{
    let (text, rodata, rwdata) = (sizes.text_relas, sizes.rodata_relas, sizes.rwdata_relas);
    let tables = table_count(sizes);
    let names = name_places(sizes);
    let at = layout.relas as u64;
    let text_section = rela_section(tables, 26, at, text, 1);
    push_table(out, text, text_section)?;
    let at = at + 24 * text;
    let rodata_section = rela_section(tables, names.rodata, at, rodata, 2);
    push_table(out, rodata, rodata_section)?;
    let at = at + 24 * rodata;
    let rwdata_section = rela_section(tables, names.rwdata, at, rwdata, 3);
    push_table(out, rwdata, rwdata_section)
}

// .symtab, .strtab and .shstrtab.
#[tactic(auto, unfolding(crate::specs::Records::table_sections))]
fn table_sections(sizes: &Sizes, layout: &Layout, locals: u32) -> [Section; 3]
    requires order { IsInOrder sizes.now layout.now }
    requires few { (layout.now.end < 2 ^ 32) × (locals + 1 < 2 ^ 32) }
    ensures { result ≡ table_sections sizes.now layout.now locals }
{
    let name = name_places(sizes).symtab;
    let symtab = layout.symtab as u64;
    let symbols = 24 * (sizes.symbols + 1);
    let (strtab, shstrtab) = (layout.strtab as u64, layout.shstrtab as u64);
    let names = u64::from(names_length(sizes));
    [
        symtab_section(table_count(sizes), name, symtab, symbols, locals),
        contents(name + 8, SHT_STRTAB, 0, 0, strtab, sizes.strings),
        contents(name + 16, SHT_STRTAB, 0, 0, shstrtab, names),
    ]
}

// The sections.
pub fn sections(alloc: Global, plan: &Plan, locals: u32) -> Result<Vec<Section>, Memory>
    requires order { IsInOrder plan.now.sizes plan.now.layout }
    requires few { (plan.now.layout.end < 2 ^ 32) × (locals + 1 < 2 ^ 32) }
    ensures { IfOk result (λ sections. sections.items ≡ sections_in plan.now locals) }
{
    let (sizes, layout) = (&plan.sizes, &plan.layout);
    let mut out = program_sections(sizes, layout, &plan.bases).to_vec(alloc)?;
    push_rela_sections(&mut out, sizes, layout)?;
    out.extend_from_slice(&table_sections(sizes, layout, locals))?;
    Ok(out)
}
