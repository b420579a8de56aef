//! Where the sections of an object are loaded.
ghost use Rattle.std.specs.Prelude.{◌≡◌, ◌≤◌, ◌+◌, ◌↔◌, ℕ, Some, IsTrue};
ghost use Rattle.elf_link.specs.Links.{place_of, AreLow};

use elf_read::Elf;
use wf_outside::DATA_END;

// The address of the section with this number, where it is loaded.
pub fn place_of(places: &[Option<u64>], section: usize) -> Option<u64>
    ensures { result ≡ place_of places.now section }
{
    match places.get(section) {
        None => None,
        Some(place) => *place,
    }
}

// A section of so many bytes ends low enough, if it is loaded.
fn ends_low(place: Option<u64>, size: u64) -> bool
    ensures { IsTrue result ↔ ((at : ℕ) → place ≡ Some at → at + size ≤ DATA_END) }
{
    match place {
        None => true,
        Some(place) => place <= DATA_END && size <= DATA_END - place,
    }
}

/// Each section that is loaded, at these addresses by number, ends at `DATA_END` or below.
pub fn are_low(object: &Elf, places: &[Option<u64>]) -> bool
    ensures { IsTrue result ↔ AreLow places.now object.now.sections }
{
    for (number, section) in object.sections().iter().enumerate() {
        if !ends_low(place_of(places, number), section.sh_size) {
            return false;
        }
    }
    true
}
