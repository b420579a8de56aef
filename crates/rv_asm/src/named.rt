//! What names stand for.
ghost use Rattle.std.specs.Prelude.{◌≤◌, ◌<◌, ◌^◌};

use asm_lines::{SectionId, Use};

/// A label: its name, the section in which it stands, and how many bytes of that section stand
/// before it.
#[derive(Clone, Copy)]
pub struct Label<'a> {
    pub name: &'a [u8],
    pub section: SectionId,
    pub offset: u128,
    ghost counted: { offset ≤ 2 ^ 100 },
}

/// A symbol: its name, its section, its address, its size in bytes, and whether other files see it.
#[derive(Clone, Copy)]
pub struct Symbol<'a> {
    pub name: &'a [u8],
    pub section: SectionId,
    pub address: u128,
    pub size: u128,
    pub global: bool,
    ghost low: { address < 2 ^ 104 },
}

/// A use of a name: the section and the place in it at which it puts bytes, what it is for, the
/// name, and the name of the local label there, which `la` alone has.
#[derive(Clone, Copy)]
pub struct PlacedUse<'a> {
    pub section: SectionId,
    pub offset: u128,
    pub what: Use,
    pub name: &'a [u8],
    pub label: &'a [u8],
}
