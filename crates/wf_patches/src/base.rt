//! What patches are built over.
ghost use Rattle.std.specs.Prelude.{◌≡◌, IfOk};
ghost use Rattle.patch_build.specs.Fits.{next_behind, FitsArea};
ghost use Rattle.wf_patches.specs.Bases.{base_over, base_with, IsSameBase};

use elf_syms::Names;
use patch_build::{Area, Built};
use std::alloc::Global;
use std::marker::Model;
use wf_outside::{Delta, Image, Memory};

// What a patch is built over: the names of the image and of the patches before, and the area.
#[derive(Drop)]
pub struct Base {
    pub names: Names,
    pub area: Area,
}

impl Model for Base {
    ghost use Rattle.wf_patches.specs.Bases.{BaseValue};

    ghost Value = { BaseValue };

    ghost view = { λ g. record { names = g.names; area = g.area } };
}

impl Base {
    // An image without a patch.
    pub fn over(alloc: Global, image: &Image) -> Result<Base, Memory>
        ensures { IfOk result (λ base. IsSameBase base (base_over image.now)) }
    {
        Ok(Base {
            names: Names::new(alloc, image)?,
            area: Area::over(alloc, image)?,
        })
    }

    // What a patch that was built over this brings, and what the next is built over.
    pub fn with(self, built: Built) -> Result<(Base, Delta), Memory>
        requires fits { FitsArea self.area built.delta }
        requires next { built.next ≡ next_behind self.area.next built.delta }
        ensures base { IfOk result (λ next. IsSameBase next.0 (base_with self built)) }
        ensures delta { IfOk result (λ next. next.1 ≡ built.delta) }
    {
        let area = self.area.with(&built)?;
        let mut names = self.names;
        names.add(built.names)?;
        Ok((Base { names, area }, built.delta))
    }
}
