//! A section is relocated.
ghost use Rattle.std.specs.Prelude.{◌≡◌, ◌<◌, ◌≤◌, ◌+◌, ◌^◌, Some, Ok, All, IsSome, IfOk, IfErr, length, vec_len};
ghost use Rattle.elf_read.specs.Relas.{IsRooted, symbol_number};
ghost use Rattle.elf_link.specs.Applied.{group_applied, all_applied, relocated, IsFaultOf};
ghost use Rattle.elf_link.specs.Links.{link_of, place_of, place_in, size_of, AreLow};
ghost use Rattle.elf_link.specs.Results.{Leaves};

use crate::LinkFault;
use crate::contents::contents;
use crate::linking::Linking;
use crate::pairs::pairs;
use crate::places::place_of;
use elf_read::{Elf, Rela, RelaGroup};
use elf_syms::Names;
use std::alloc::Global;

impl Linking<'_> {
    // The entries of a group are applied in their order.
    fn apply_group(&self, bytes: &mut [u8], group: u32, relas: &[Rela]) -> Result<(), LinkFault>
        requires named { All (λ r. symbol_number r < length self.now.object.symbols) relas.now }
        requires low { place_in self.now + length bytes.old < 2 ^ 64 }
        ensures { Leaves result bytes.new (group_applied self.now group 0 bytes.old relas.now) }
    {
        for (index, rela) in relas.iter().enumerate() {
            if let Err(rule) = self.apply(bytes, rela) {
                return Err(LinkFault::Rule {
                    group,
                    index: index as u64,
                    rule,
                });
            }
        }
        Ok(())
    }

    // The groups of the section are applied in the order of their numbers.
    fn apply_all(&self, bytes: &mut [u8]) -> Result<(), LinkFault>
        requires { place_in self.now + length bytes.old < 2 ^ 64 }
        ensures { Leaves result bytes.new
            (all_applied self.now bytes.old self.now.object.relas) }
    {
        for group in self.object.relas() {
            if group.target == self.section {
                self.apply_group(bytes, group.section, &group.relas)?;
            }
        }
        Ok(())
    }
}

/// The bytes of a section at its place in memory: those of the file, or zeros where it has none
/// there, with each of its relocation entries applied, in the order of the file and each to what
/// the earlier ones left; or the first entry that can't be applied. `places` has the address of
/// each section that is loaded, by number; `names` stand for symbols that the object does not
/// define.
///
/// The time is that of the section and of all entries of the object, times a logarithm of these and
/// of the names; the memory is that of the section and of its R_RISCV_PCREL_HI20.
///
/// System V ABI, "Relocation"; RISC-V ELF psABI, "Relocations".
pub fn relocate(
    alloc: Global,
    object: &Elf,
    section: u32,
    places: &[Option<u64>],
    names: &Names,
) -> Result<Vec<u8>, LinkFault>
    requires all { length places.now ≡ length object.now.sections }
    requires loaded { IsSome (place_of places.now section) }
    requires low { AreLow places.now object.now.sections }
    // They are as many as the section has.
    ensures size { IfOk result (λ bytes. vec_len bytes ≡ size_of object.now section) }
    // The bytes are those of the definition, where it has some, and the fault is its fault, unless
    // memory ran out.
    ensures bytes { IfOk result
        (λ bytes. relocated (link_of object.now places.now names.now section) ≡ Ok bytes.items) }
    ensures fault { IfErr result
        (IsFaultOf (link_of object.now places.now names.now section)) }
{
    let mut bytes = contents(alloc, object, section)?;
    let linking = Linking {
        object,
        places,
        names,
        section,
        place: place_of(places, section as usize).unwrap(),
        pairs: pairs(alloc, object, section)?,
    };
    linking.apply_all(&mut bytes)?;
    Ok(bytes)
}
