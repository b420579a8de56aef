//! A section while it is linked.
use elf_read::{Elf, Rela};
use elf_syms::Names;
use std::collections::BTreeMap;
use std::marker::Model;

// A section of an object while it is linked: the object, the places of its sections, the names, the
// section's number and place, and the first R_RISCV_PCREL_HI20 at each place in it.
#[derive(Drop)]
pub struct Linking<'a> {
    pub object: &'a Elf,
    pub places: &'a [Option<u64>],
    pub names: &'a Names,
    pub section: u32,
    pub place: u64,
    pub pairs: BTreeMap<u64, Rela>,
}

impl<'a> Model for Linking<'a> {
    ghost use Rattle.elf_link.specs.Links.{LinkValue, link_of};
    ghost use Rattle.elf_link.specs.Kept.{IsLinking};

    ghost Value = { LinkValue };

    ghost view = { λ l. link_of l.object.now l.places.now l.names.now l.section };

    ghost invariant = { λ l.
        IsLinking (link_of l.object.now l.places.now l.names.now l.section) l.place l.pairs };
}
