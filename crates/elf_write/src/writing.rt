//! The file that holds a module.
ghost use Rattle.std.specs.Prelude.{◌≡◌, ◌<◌, ◌≤◌, ◌+◌, ◌-◌, ◌*◌, ◌^◌, ◌++◌, OnOk, IfOk, length};
ghost use Rattle.std.specs.List.{flat_map};
ghost use Rattle.elf_write.specs.Layout.{file_length, plan_of, HasRoom};
ghost use Rattle.elf_write.specs.Parts.{rela_bytes, strings, AreLinked};
ghost use Rattle.elf_write.specs.Written.{front_bytes, if_segments, table_bytes, target_bytes, type_of, with_contents, with_tables, written, written_by, IsWritable};

use crate::layout::{Layout, Plan, bases_in, layout_for, sizes_of};
use crate::names::{section_names, table_count};
use crate::numbers::{place, put_halves, put_words, put_xwords};
use crate::order::locals;
use crate::parts::{rela_table, strings, symbol_table};
use crate::records::{put_segments, section_headers, sections, segments};
use crate::{Form, Module};
use elf_read::Segment;
use elf_read::constants::{EM_RISCV, ET_EXEC, ET_REL, EV_CURRENT};
use std::alloc::Global;
use wf_outside::Memory;

const IDENT: [u8; 16] = [0x7F, 0x45, 0x4C, 0x46, 2, 1, 1, 0, 0, 0, 0, 0, 0, 0, 0, 0];

// e_type.
#[tactic(auto, unfolding(crate::specs::Written::type_of))]
fn type_of(form: Form) -> u16
    ensures { result ≡ type_of form }
{
    match form {
        Form::Exec => ET_EXEC,
        Form::Object => ET_REL,
    }
}

// A field of the header that is 0 in a file without segments.
fn if_segments(count: u16, number: u16) -> u16
    ensures { result ≡ if_segments count number }
{
    if count == 0 { 0 } else { number }
}

// Adds the first bytes of the header, to the address of the first instruction.
fn put_target(out: &mut Vec<u8>, form: Form, entry: u64) -> Result<(), Memory>
    ensures { OnOk result (out.new.items ≡ out.old.items ++ target_bytes form entry) }
{
    out.extend_from_slice(&IDENT)?;
    put_halves(out, &[type_of(form), EM_RISCV])?;
    put_words(out, &[EV_CURRENT as u32])?;
    put_xwords(out, &[entry])
}

// Adds the rest of the header: where the tables of headers stand, how many there are, and in which
// section the names of the sections are.
fn put_tables(
    out: &mut Vec<u8>,
    segments: u16,
    headers: u64,
    sections: u16,
    names: u16,
) -> Result<(), Memory>
    ensures { OnOk result
        (out.new.items ≡ out.old.items ++ table_bytes segments headers sections names) }
{
    let (place, size) = (if_segments(segments, 64), if_segments(segments, 56));
    put_xwords(out, &[u64::from(place), headers])?;
    put_words(out, &[0])?;
    put_halves(out, &[64, size, segments, 64, sections, names])
}

// The header and the headers of the segments.
#[tactic(auto, unfolding(crate::specs::Written::front_bytes))]
fn front(alloc: Global, plan: &Plan, entry: u64, segments: &[Segment]) -> Result<Vec<u8>, Memory>
    requires few { length segments.now ≤ 3 }
    requires short { plan.now.layout.headers < 2 ^ 64 }
    ensures { IfOk result (λ bytes. bytes.items ≡ front_bytes plan.now entry segments.now) }
{
    let tables = table_count(&plan.sizes) as u16;
    let mut out = Vec::new(alloc);
    put_target(&mut out, plan.form, entry)?;
    let headers = plan.layout.headers as u64;
    put_tables(
        &mut out,
        segments.len() as u16,
        headers,
        8 + tables,
        7 + tables,
    )?;
    put_segments(&mut out, segments)?;
    Ok(out)
}

// Adds the contents of the sections, and these bytes of relocations.
fn place_contents(
    out: &mut Vec<u8>,
    module: &Module,
    layout: &Layout,
    relas: &[u8],
) -> Result<(), Memory>
    requires text { layout.now.text < 2 ^ 64 }
    requires rodata { layout.now.rodata < 2 ^ 64 }
    requires rwdata { layout.now.rwdata < 2 ^ 64 }
    requires relas { layout.now.relas < 2 ^ 64 }
    requires bytes { relas.now ≡ flat_map rela_bytes «module».now.relas }
    ensures { OnOk result (out.new.items ≡ with_contents «module».now layout.now out.old.items) }
{
    place(out, layout.text as usize, &module.text)?;
    place(out, layout.rodata as usize, &module.rodata)?;
    place(out, layout.rwdata as usize, &module.rwdata)?;
    place(out, layout.relas as usize, relas)
}

// Adds the symbols, their names, the names of the sections and the headers of the sections.
fn place_tables(
    out: &mut Vec<u8>,
    layout: &Layout,
    symbols: &[u8],
    names: &[u8],
    sections: &[u8],
    headers: &[u8],
) -> Result<(), Memory>
    requires symtab { layout.now.symtab < 2 ^ 64 }
    requires strtab { layout.now.strtab < 2 ^ 64 }
    requires shstrtab { layout.now.shstrtab < 2 ^ 64 }
    requires headers { layout.now.headers < 2 ^ 64 }
    ensures { OnOk result (out.new.items
        ≡ with_tables layout.now symbols.now names.now sections.now headers.now out.old.items) }
{
    place(out, layout.symtab as usize, symbols)?;
    place(out, layout.strtab as usize, names)?;
    place(out, layout.shstrtab as usize, sections)?;
    place(out, layout.headers as usize, headers)
}

// The plan of a module whose names take so many bytes.
fn plan(module: &Module, names: u64) -> Plan
    requires names { names ≡ length (strings «module».now.symbols) }
    requires short { (file_length «module».now < 2 ^ 32) × («module».now.bss ≤ 2 ^ 32) }
    ensures value { result ≡ plan_of «module».now }
    ensures room { HasRoom (length «module».now.symbols) names result }
{
    let form = module.form;
    let sizes = sizes_of(module, names);
    let layout = layout_for(form, &sizes);
    let bases = bases_in(form, sizes.text, sizes.rodata, sizes.rwdata);
    Plan {
        form,
        sizes,
        layout,
        bases,
    }
}

// The file that holds a module with a plan and these names.
fn write_by(alloc: Global, plan: &Plan, module: &Module, names: &[u8]) -> Result<Vec<u8>, Memory>
    requires names { names.now ≡ strings «module».now.symbols }
    requires room { HasRoom (length «module».now.symbols) (length names.now) plan.now }
    requires linked { AreLinked (2 ^ 32 - 1) «module».now.relas }
    ensures { IfOk result (λ bytes. bytes.items ≡ written_by plan.now «module».now) }
{
    let layout = &plan.layout;
    let segments = segments(alloc, plan)?;
    let sections = sections(alloc, plan, locals(&module.symbols) as u32)?;
    let headers = section_headers(alloc, &sections)?;
    let relas = rela_table(alloc, &module.relas)?;
    let symbols = symbol_table(alloc, &module.symbols)?;
    let section_names = section_names(alloc, &plan.sizes)?;
    let mut out = front(alloc, plan, module.entry, &segments)?;
    place_contents(&mut out, module, layout, &relas)?;
    place_tables(&mut out, layout, &symbols, names, &section_names, &headers)?;
    Ok(out)
}

/// The file that holds a module.
///
/// System V ABI, "ELF Header" to "Relocation"; RISC-V ELF psABI, "File Header".
pub fn write(alloc: Global, module: &Module) -> Result<Vec<u8>, Memory>
    requires { IsWritable «module».now }
    ensures { IfOk result (λ bytes. bytes.items ≡ written «module».now) }
{
    let names = strings(alloc, &module.symbols)?;
    let plan = plan(module, names.len() as u64);
    write_by(alloc, &plan, module, &names)
}
