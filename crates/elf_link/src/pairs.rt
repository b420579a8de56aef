//! The entries from which others take their values.
ghost use Rattle.std.specs.Prelude.{◌≡◌, ◌<◌, ℕ, [], ◌∷◌, length, OnOk, IfOk};
ghost use Rattle.std.specs.BTreeMap.{get};
ghost use Rattle.std.specs.List.{AllByRecursion};
ghost use Rattle.std.specs.Option.{option_or};
ghost use Rattle.std.specs.Ordering.{nat_cmp};
ghost use Rattle.elf_read.specs.Relas.{symbol_number};
ghost use Rattle.elf_link.specs.Links.{relas_for};
ghost use Rattle.elf_link.specs.Kept.{high_from};

use elf_fields::constants::R_RISCV_PCREL_HI20;
use elf_read::{Elf, Rela};
use std::alloc::Global;
use std::collections::BTreeMap;
use wf_outside::Memory;

// The entry is the one at its place, if it is an R_RISCV_PCREL_HI20 and the first there.
fn note(pairs: &mut BTreeMap<u64, Rela>, rela: &Rela) -> Result<(), Memory>
    ensures { OnOk result ((offset : ℕ) → get nat_cmp pairs.new offset
        ≡ option_or (get nat_cmp pairs.old offset) (high_from (rela.now ∷ []) offset)) }
{
    if rela.kind() == R_RISCV_PCREL_HI20 && !pairs.contains_key(&rela.r_offset) {
        pairs.insert(rela.r_offset, *rela)?;
    }
    Ok(())
}

// The same for entries in their order.
fn note_all(pairs: &mut BTreeMap<u64, Rela>, relas: &[Rela]) -> Result<(), Memory>
    ensures { OnOk result ((offset : ℕ) → get nat_cmp pairs.new offset
        ≡ option_or (get nat_cmp pairs.old offset) (high_from relas.now offset)) }
{
    for rela in relas {
        note(pairs, rela)?;
    }
    Ok(())
}

// The first R_RISCV_PCREL_HI20 at each place of a section.
pub fn pairs(alloc: Global, object: &Elf, section: u32) -> Result<BTreeMap<u64, Rela>, Memory>
    ensures pairs { IfOk result (λ pairs. (offset : ℕ) → get nat_cmp pairs offset
        ≡ high_from (relas_for object.now section) offset) }
    // The entries for the section name symbols that are there.
    ensures named { OnOk result
        (AllByRecursion (λ r. symbol_number r < length object.now.symbols)
        (relas_for object.now section)) }
{
    let mut pairs = BTreeMap::new(alloc);
    for group in object.relas() {
        if group.target == section {
            note_all(&mut pairs, &group.relas)?;
        }
    }
    Ok(pairs)
}
