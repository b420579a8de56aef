//! The names of an image and of the patches behind it.
ghost use Rattle.std.specs.Prelude.{◌≡◌, OnOk, OnErr, IfOk};
ghost use Rattle.elf_syms.specs.Among.{among};
ghost use Rattle.elf_syms.specs.Names.{no_names, image_names, with_list, found_for, FindsAs};

use crate::Found;
use crate::among::Among;
use crate::telling::{found_at, reserve_all, told, told_of, write_all};
use std::alloc::Global;
use std::collections::BTreeMap;
use std::marker::Model;
use wf_outside::{Image, Memory, Name};

/// The names of an image and of the lists added behind it. Of all lists that have a name, the
/// newest added one decides, then the image's globals, then its locals.
#[derive(Drop)]
pub struct Names {
    alloc: Global,
    entries: BTreeMap<Vec<u8>, Found>,
}

impl Model for Names {
    ghost use Rattle.elf_syms.specs.Names.{NamesValue};
    ghost use Rattle.elf_syms.specs.Maps.{names_in};

    ghost Value = { NamesValue };

    ghost view = { λ n. names_in n.entries };
}

impl Names {
    /// The names of an image.
    pub fn new(alloc: Global, image: &Image) -> Result<Names, Memory>
        ensures { IfOk result (λ names. FindsAs names (image_names image.now.names)) }
    {
        let mut names = Names::none(alloc);
        names.put(&image.names, Among::Locals)?;
        names.put(&image.names, Among::Globals)?;
        Ok(names)
    }

    /// Adds a list, which decides before those that are there. Globals and locals count alike in
    /// it.
    pub fn add(&mut self, names: Vec<Name>) -> Result<(), Memory>
        ensures ok { OnOk result (FindsAs self.new (with_list names.items (found_for self.old))) }
        ensures memory { OnErr result (FindsAs self.new (found_for self.old)) }
    {
        self.put(&names, Among::All)
    }

    /// What is found of a name, where these own names decide first. The time is that of one pass
    /// over the own names, and a logarithm of all others.
    pub fn find(&self, own: &[Name], name: &[u8]) -> Found
        ensures { result ≡ with_list own.now (found_for self.now) name.now }
    {
        told_of(own, name).or_else(found_at(&self.entries, name))
    }

    /// No names.
    pub fn none(alloc: Global) -> Names
        ensures { FindsAs result no_names }
    {
        Names {
            alloc,
            entries: BTreeMap::new(alloc),
        }
    }

    // The names of a list that count decide before those that are there.
    fn put(&mut self, names: &[Name], which: Among) -> Result<(), Memory>
        ensures ok { OnOk result (FindsAs self.new
            (with_list (among which names.now) (found_for self.old))) }
        ensures memory { OnErr result (FindsAs self.new (found_for self.old)) }
    {
        let told = told(self.alloc, names, which)?;
        reserve_all(self.alloc, &mut self.entries, names, which)?;
        write_all(&mut self.entries, names, which, &told);
        Ok(())
    }
}
