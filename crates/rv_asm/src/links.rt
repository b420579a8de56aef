//! What an object leaves to a linker.
ghost use Rattle.std.specs.Prelude.{◌≡◌, ◌≤◌, ◌<◌, ◌^◌, ◌++◌, ◌∷◌, [], IfOk, OnOk, length, map};
ghost use Rattle.std.specs.List.{filter};
ghost use Rattle.asm_lines.specs.Operands.{immediate};
ghost use Rattle.elf_write.specs.Parts.{relas_for};
ghost use Rattle.rv_asm.specs.Labels.{section_named};
ghost use Rattle.rv_asm.specs.Links.{by_section, fields_by, is_first_outside, link_at, link_names, link_value, links_for, links_of, outside_names, rela_of};
ghost use Rattle.rv_asm.specs.Names.{IsNameIndex, name_values};
ghost use Rattle.rv_asm.specs.Uses.{AreCloseUses, IsCloseUse, use_value, use_values};

use crate::constants::{
    R_RISCV_32, R_RISCV_64, R_RISCV_BRANCH, R_RISCV_CALL_PLT, R_RISCV_JAL, R_RISCV_PCREL_HI20,
    R_RISCV_PCREL_LO12_I,
};
use crate::labels::Labels;
use crate::named::PlacedUse;
use crate::names::index_of;
use crate::settling::{is_settled, section_number};
use asm_lines::Use;
use elf_write::{Form, ModRela};
use std::alloc::{AllocError, Global};
use std::collections::BTreeMap;

/// A field that a linker fills in: the number of its section and its place there, the type of the
/// relocation, the name of the symbol, and what is added to that symbol's address.
#[derive(Clone, Copy)]
pub struct Link<'a> {
    pub section: u8,
    pub offset: u64,
    pub kind: u32,
    pub name: &'a [u8],
    pub addend: i64,
}

// The number of the section of a name's label, if there is one.
fn section_named(labels: &Labels<'_>, name: &[u8]) -> Option<u8>
    ensures { result ≡ section_named name.now labels.now }
{
    let place = labels.place(name)?;
    Some(section_number(labels.entries()[place].section))
}

// So many bytes behind the place of a use, a field of this type.
fn link_at<'a>(
    more: u64,
    placed: &PlacedUse<'a>,
    kind: u32,
    name: &'a [u8],
    addend: i64,
) -> Link<'a>
    requires { (more ≤ 4) × (placed.now.offset ≤ 2 ^ 32) }
    ensures { link_value result ≡ link_at more (use_value placed.now) kind name.now addend }
{
    Link {
        section: section_number(placed.section),
        offset: placed.offset as u64 + more,
        kind,
        name,
        addend,
    }
}

// The number as an addend.
fn immediate(number: i128) -> i64
    ensures { result ≡ immediate number }
{
    i64::try_from(number).unwrap_or(i64::MAX)
}

// Adds the fields of a use.
#[tactic(auto, unfolding(crate::specs::Links::fields_by))]
fn push_fields<'a>(out: &mut Vec<Link<'a>>, placed: &PlacedUse<'a>) -> Result<(), AllocError>
    requires { placed.now.offset ≤ 2 ^ 32 }
    ensures { OnOk result (map link_value out.new.items
        ≡ map link_value out.old.items ++ fields_by placed.now.what (use_value placed.now)) }
{
    let name = placed.name;
    match placed.what {
        Use::Globl | Use::Size => Ok(()),
        Use::Address { width, addend } => {
            let kind = if width == 8 { R_RISCV_64 } else { R_RISCV_32 };
            Ok(out.push(link_at(0, placed, kind, name, immediate(addend)))?)
        }
        Use::Branch { .. } => Ok(out.push(link_at(0, placed, R_RISCV_BRANCH, name, 0))?),
        Use::Jal { .. } => Ok(out.push(link_at(0, placed, R_RISCV_JAL, name, 0))?),
        Use::Call => Ok(out.push(link_at(0, placed, R_RISCV_CALL_PLT, name, 0))?),
        Use::La { .. } => {
            out.push(link_at(0, placed, R_RISCV_PCREL_HI20, name, 0))?;
            let label = placed.label;
            Ok(out.push(link_at(4, placed, R_RISCV_PCREL_LO12_I, label, 0))?)
        }
    }
}

/// The fields that a linker fills in, in the order of lines.
pub fn links_of<'a>(
    alloc: Global,
    labels: &Labels<'a>,
    uses: &[PlacedUse<'a>],
) -> Result<Vec<Link<'a>>, AllocError>
    requires { AreCloseUses (use_values uses.now) }
    ensures { IfOk result
        (λ links. map link_value links.items ≡ links_of labels.now (use_values uses.now)) }
{
    let mut links = Vec::new(alloc);
    for placed in uses {
        let home = section_named(labels, placed.name);
        if !is_settled(Form::Object, placed.section, placed.what, home) {
            push_fields(&mut links, placed)?;
        }
    }
    Ok(links)
}

// The names of fields.
fn link_names<'a>(alloc: Global, links: &[Link<'a>]) -> Result<Vec<&'a [u8]>, AllocError>
    ensures { IfOk result
        (λ names. name_values names.items ≡ link_names (map link_value links.now)) }
{
    let mut names = Vec::new(alloc);
    for link in links {
        names.push(link.name)?;
    }
    Ok(names)
}

// Whether the name at a place among names, which are found in this map, is no label's and stands at
// none before.
fn is_first_outside(
    labels: &Labels<'_>,
    index: &BTreeMap<&[u8], usize>,
    names: &[&[u8]],
    place: usize,
    name: &[u8],
) -> bool
    requires { IsNameIndex index.now (name_values names.now) }
    ensures { result ≡ is_first_outside labels.now (name_values names.now) (place, name.now) }
{
    labels.place(name).is_none() && index.get(name).is_some_and(|first| *first == place)
}

// Adds the name at a place among names, if it is no label's and stands at none before.
fn push_outside<'a>(
    outside: &mut Vec<&'a [u8]>,
    labels: &Labels<'_>,
    index: &BTreeMap<&[u8], usize>,
    names: &[&'a [u8]],
    place: usize,
    name: &'a [u8],
) -> Result<(), AllocError>
    requires { IsNameIndex index.now (name_values names.now) }
    ensures { OnOk result (name_values outside.new.items ≡ name_values outside.old.items
        ++ map (λ p. p.1) (filter (is_first_outside labels.now (name_values names.now))
        ((place, name.now) ∷ []))) }
{
    if is_first_outside(labels, index, names, place, name) {
        outside.push(name)?;
    }
    Ok(())
}

/// The names of fields that are no label's, by first use.
pub fn outside_names<'a>(
    alloc: Global,
    labels: &Labels<'_>,
    links: &[Link<'a>],
) -> Result<Vec<&'a [u8]>, AllocError>
    ensures { IfOk result (λ outside. name_values outside.items
        ≡ outside_names labels.now (link_names (map link_value links.now))) }
{
    let names = link_names(alloc, links)?;
    let index = index_of(alloc, &names)?;
    let mut outside = Vec::new(alloc);
    for (place, name) in names.iter().enumerate() {
        push_outside(&mut outside, labels, &index, &names, place, name)?;
    }
    Ok(outside)
}

// The relocation of a field, where the symbols have these names, which are found in this map.
fn rela_of(index: &BTreeMap<&[u8], usize>, names: &[&[u8]], link: &Link<'_>) -> ModRela
    requires index { IsNameIndex index.now (name_values names.now) }
    requires few { length names.now < 2 ^ 32 }
    ensures { result ≡ rela_of (name_values names.now) (link_value link.now) }
{
    ModRela {
        section: link.section,
        offset: link.offset,
        kind: link.kind,
        symbol: index.get(link.name).copied().unwrap_or(0) as u32,
        addend: link.addend,
    }
}

// Adds the relocations of a section.
fn push_relas(
    out: &mut Vec<ModRela>,
    index: &BTreeMap<&[u8], usize>,
    names: &[&[u8]],
    section: u8,
    links: &[Link<'_>],
) -> Result<(), AllocError>
    requires index { IsNameIndex index.now (name_values names.now) }
    requires few { length names.now < 2 ^ 32 }
    ensures { OnOk result (out.new.items ≡ out.old.items
        ++ relas_for section (map (rela_of (name_values names.now)) (map link_value links.now))) }
{
    for link in links {
        if link.section == section {
            out.push(rela_of(index, names, link))?;
        }
    }
    Ok(())
}

/// The relocations of fields, by their sections, where the symbols have these names.
pub fn relas_of(
    alloc: Global,
    names: &[&[u8]],
    links: &[Link<'_>],
) -> Result<Vec<ModRela>, AllocError>
    requires { length names.now < 2 ^ 32 }
    ensures { IfOk result (λ relas. relas.items
        ≡ by_section (map (rela_of (name_values names.now)) (map link_value links.now))) }
{
    let index = index_of(alloc, names)?;
    let mut relas = Vec::new(alloc);
    push_relas(&mut relas, &index, names, 1, links)?;
    push_relas(&mut relas, &index, names, 2, links)?;
    push_relas(&mut relas, &index, names, 3, links)?;
    Ok(relas)
}
