//! Entries are applied.
ghost use Rattle.std.specs.Prelude.{◌≡◌, ◌<◌, ◌≤◌, ◌+◌, ◌*◌, ◌^◌, ◌++◌, Some, length, take, drop, IfOk, IfErr};
ghost use Rattle.byteorder.specs.Endian.{little_bytes};
ghost use Rattle.elf_fields.specs.Fields.{width_of};
ghost use Rattle.elf_read.specs.Relas.{symbol_number};
ghost use Rattle.elf_link.specs.Applied.{number_in_field, with_value, applied_as, applied};
ghost use Rattle.elf_fields.specs.declared.relocation.Relocation.TheVariants.{Put, Paired};
ghost use Rattle.elf_link.specs.Links.{place_in};
ghost use Rattle.elf_link.specs.Results.{Leaves};

use crate::linking::Linking;
use crate::values::within;
use byteorder::{ByteOrder, LittleEndian};
use elf_fields::{Bounds, Field, Formula, Relocation, relocation_of};
use elf_read::Rela;
use patch_rules::LinkRule;

// The number in the field at a place.
fn number_in(field: Field, bytes: &[u8], at: u64) -> u64
    requires { at + width_of field ≤ length bytes.now }
    ensures value { result ≡ number_in_field field bytes.now at }
    ensures fits { result < 2 ^ (8 * width_of field) }
{
    LittleEndian::read_uint(&bytes[at as usize..], field.width())
}

// The number in the field at a place, where the field is inside the bytes.
fn number_in_field(field: Field, bytes: &[u8], at: u64) -> Result<u64, LinkRule>
    ensures inside { IfOk result (λ number. at + width_of field ≤ length bytes.now) }
    ensures value { IfOk result (λ number. number ≡ number_in_field field bytes.now at) }
    ensures outside { IfErr result (λ rule. length bytes.now < at + width_of field) }
    ensures offset { IfErr result (λ rule. rule ≡ LinkRule.Offset) }
{
    let size = bytes.len() as u64;
    if size < at || size - at < field.width() as u64 {
        return Err(LinkRule::Offset);
    }
    Ok(number_in(field, bytes, at))
}

// The number is put at a place, in the bytes of a field.
fn put_number(field: Field, bytes: &mut [u8], at: u64, number: u64)
    requires inside { at + width_of field ≤ length bytes.old }
    requires fits { number < 2 ^ (8 * width_of field) }
    ensures { bytes.new ≡ take at bytes.old ++ little_bytes (width_of field) number
        ++ drop (at + width_of field) bytes.old }
{
    let start = at as usize;
    let part = &mut bytes[start..start + field.width()];
    LittleEndian::write_uint(part, number, field.width());
}

// The value is put into the field at a place.
fn put_value(field: Field, bytes: &mut [u8], at: u64, value: i128)
    requires { at + width_of field ≤ length bytes.old }
    ensures { bytes.new ≡ with_value field bytes.old at value }
{
    let old = number_in(field, bytes, at);
    put_number(field, bytes, at, field.put_in(value, old));
}

impl Linking<'_> {
    // The value of a formula is put into the entry's field, where the bounds have it.
    fn put(
        &self,
        bytes: &mut [u8],
        rela: &Rela,
        formula: Formula,
        field: Field,
        bounds: Bounds,
    ) -> Result<(), LinkRule>
        requires named { symbol_number rela.now < length self.now.object.symbols }
        requires low { place_in self.now + length bytes.old < 2 ^ 64 }
        ensures { Leaves result bytes.new
            (applied_as self.now bytes.old rela.now (Some (Put formula field bounds))) }
    {
        let old = number_in_field(field, bytes, rela.r_offset)?;
        let value = self.formula_value(formula, rela, self.place + rela.r_offset, old)?;
        put_value(field, bytes, rela.r_offset, within(bounds, value)?);
        Ok(())
    }

    // The value of the R_RISCV_PCREL_HI20 at its symbol's address is put into the entry's field.
    fn put_paired(&self, bytes: &mut [u8], rela: &Rela, field: Field) -> Result<(), LinkRule>
        requires { symbol_number rela.now < length self.now.object.symbols }
        ensures { Leaves result bytes.new
            (applied_as self.now bytes.old rela.now (Some (Paired field))) }
    {
        number_in_field(field, bytes, rela.r_offset)?;
        let value = self.paired_value(rela)?;
        put_value(field, bytes, rela.r_offset, within(Bounds::Pair, value)?);
        Ok(())
    }

    // One entry is applied.
    #[tactic(auto, unfolding(crate::specs::Applied::applied))]
    pub fn apply(&self, bytes: &mut [u8], rela: &Rela) -> Result<(), LinkRule>
        requires named { symbol_number rela.now < length self.now.object.symbols }
        requires low { place_in self.now + length bytes.old < 2 ^ 64 }
        ensures { Leaves result bytes.new (applied self.now bytes.old rela.now) }
    {
        match relocation_of(rela.kind()) {
            None => Err(LinkRule::Reloc { n: rela.kind() }),
            Some(Relocation::Nothing) => Ok(()),
            Some(
                Relocation::Put {
                    formula,
                    field,
                    bounds,
                },
            ) => self.put(bytes, rela, formula, field, bounds),
            Some(Relocation::Paired { field }) => self.put_paired(bytes, rela, field),
        }
    }
}
