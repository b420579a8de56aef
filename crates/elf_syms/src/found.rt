//! What is found of a name.
ghost use Rattle.std.specs.Prelude.{◌≡◌};
ghost use Rattle.elf_syms.specs.Telling.{joined, or_else};

use wf_outside::Name;

/// What is found of a name.
#[derive(Clone, Copy, Debug, PartialEq, Eq)]
pub enum Found {
    /// One address, and the size in bytes of the first entry that has it.
    One { addr: u64, size: u64 },
    /// No list has the name.
    None,
    /// The list that decides has the name at two addresses.
    Several,
}

impl Found {
    // What is told behind one more entry of the name.
    pub fn joined(self, entry: &Name) -> Found
        ensures { result ≡ joined self entry.now }
    {
        match self {
            Found::None => Found::One {
                addr: entry.addr,
                size: entry.size,
            },
            Found::One { addr, size } => {
                if entry.addr == addr {
                    Found::One { addr, size }
                } else {
                    Found::Several
                }
            }
            Found::Several => Found::Several,
        }
    }

    // What is found, or else what another list tells.
    pub fn or_else(self, other: Found) -> Found
        ensures { result ≡ or_else self other }
    {
        match self {
            Found::None => other,
            Found::One { addr, size } => Found::One { addr, size },
            Found::Several => Found::Several,
        }
    }
}
