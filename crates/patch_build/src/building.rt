//! Patches are built.
ghost use Rattle.std.specs.Prelude.{◌≡◌, ◌≤◌, None, Ok, [], length, IfOk, IfErr, OnOk};
ghost use Rattle.elf_link.specs.Links.{AreLow};
ghost use Rattle.elf_syms.specs.Telling.{told_of};
ghost use Rattle.patch_build.specs.Builds.{built_of, built_with, IsFault, IsFound};
ghost use Rattle.patch_build.specs.Fits.{next_behind, FitsArea};
ghost use Rattle.patch_build.specs.Jumps.{jumps_behind};
ghost use Rattle.patch_build.specs.Layout.{all_pages, AreStarts};
ghost use Rattle.patch_build.specs.Links.{linked_of, link_fault, HasPlaces};
ghost use Rattle.patch_build.specs.Names.{names_of};
ghost use Rattle.patch_build.specs.declared.constants.TheConstants.{MOST_PATCH_PAGES};

use crate::checking::{check_sections, check_symbols};
use crate::jumps::noted;
use crate::layout::{Starts, lay_out, places_of};
use crate::lines::Lookup;
use crate::linking::{check_links, linked_of};
use crate::naming::{Wanted, functions_of, names_of};
use crate::paging::delta_with;
use crate::{Area, BuildFault, Built};
use elf_read::Elf;
use elf_syms::Names;
use patch_file::PatchFile;
use std::alloc::Global;
use wf_outside::Jump;

// The jumps of a patch whose sections stand at these places.
fn jumps_of(
    alloc: Global,
    patch: &PatchFile,
    object: &Elf,
    names: &Names,
    area: &Area,
    places: &[Option<u64>],
) -> Result<Vec<Jump>, BuildFault>
    ensures jumps { IfOk result (λ jumps. jumps_behind
        (told_of (names_of Wanted.Functions object.now places.now)) names.now area.now []
        patch.now.replaces ≡ Ok jumps.items) }
    ensures fault { IfErr result (IsFault (jumps_behind
        (told_of (names_of Wanted.Functions object.now places.now)) names.now area.now []
        patch.now.replaces)) }
{
    let functions = functions_of(alloc, object, places)?;
    let lookup = Lookup {
        functions: &functions,
        names,
        area,
        earlier: noted(alloc, &area.jumps)?,
    };
    lookup.jumps_of(alloc, &patch.replaces)
}

// What is built of an object whose sections stand at these places, with these jumps.
fn built_with(
    alloc: Global,
    object: &Elf,
    names: &Names,
    starts: Starts,
    places: &[Option<u64>],
    jumps: Vec<Jump>,
) -> Result<Built, BuildFault>
    requires few { all_pages object.now.sections ≤ MOST_PATCH_PAGES }
    requires fit { AreStarts starts object.now.sections }
    requires all { length places.now ≡ length object.now.sections }
    requires placed { HasPlaces object.now.sections places.now }
    requires low { AreLow places.now object.now.sections }
    ensures links { OnOk result
        (link_fault (linked_of object.now places.now names.now) object.now.relas ≡ None) }
    ensures built { IfOk result (λ built. built ≡ built_with object.now starts places.now
        (linked_of object.now places.now names.now) jumps.items) }
    ensures fault { IfErr result (IsFound
        (link_fault (linked_of object.now places.now names.now) object.now.relas)) }
{
    let sections = object.sections();
    let linked = linked_of(alloc, object, places, names)?;
    check_links(&linked, object.relas())?;
    Ok(Built {
        delta: delta_with(alloc, starts, sections, &linked, jumps)?,
        names: names_of(alloc, Wanted::Every, object, places)?,
        next: starts.end,
    })
}

/// What a patch means, of its file and its object, over an area and with the names of the image and
/// of the patches before it: its pages, its jumps and its names; or the first fault, of its
/// sections, its symbols, the area, its lines, its relocations, in this order.
///
/// The time is that of the object, its sections times its relocation sections, and its lines, times
/// a logarithm of the names and jumps; the memory is that of the pages and the names.
pub fn build(
    alloc: Global,
    patch: &PatchFile,
    object: &Elf,
    names: &Names,
    area: &Area,
) -> Result<Built, BuildFault>
    // What is built is that of the definition, where it has some, and the fault is its fault,
    // unless memory ran out.
    ensures built { IfOk result
        (λ built. built_of patch.now object.now names.now area.now ≡ Ok built) }
    ensures fault { IfErr result (IsFault (built_of patch.now object.now names.now area.now)) }
    // What is built fits the area, and its pages end there.
    ensures fits { IfOk result (λ built. FitsArea area.now built.delta) }
    ensures next { IfOk result (λ built. built.next ≡ next_behind area.now.next built.delta) }
{
    check_sections(object)?;
    check_symbols(object)?;
    let starts = lay_out(area.next(), object.sections())?;
    let placed = places_of(alloc, starts, object.sections())?;
    let places = placed.as_slice();
    let jumps = jumps_of(alloc, patch, object, names, area, places)?;
    built_with(alloc, object, names, starts, places, jumps)
}
