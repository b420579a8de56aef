//! The addresses of symbols.
ghost use Rattle.std.specs.Prelude.{◌≡◌, ◌<◌, length};
ghost use Rattle.elf_read.specs.Elf.{IsNamed};
ghost use Rattle.elf_link.specs.Symbols.{is_weak, found_address, undefined_address, address_of, symbol_address};

use crate::linking::Linking;
use crate::places::place_of;
use elf_read::Symbol;
use elf_read::constants::{SHN_ABS, SHN_UNDEF};
use elf_syms::Found;
use patch_rules::LinkRule;

/// The binding of a weak symbol.
///
/// System V ABI, "Symbol Table", `st_info`.
pub const STB_WEAK: u8 = 2;

// The address of what is found of a name.
fn found_address(weak: bool, found: Found) -> Result<u64, LinkRule>
    ensures { result ≡ found_address weak found }
{
    match found {
        Found::One { addr, size: _ } => Ok(addr),
        Found::None if weak => Ok(0),
        Found::None => Err(LinkRule::NoSymbol),
        Found::Several => Err(LinkRule::Several),
    }
}

impl Linking<'_> {
    // The address of a symbol that its file does not define.
    fn undefined_address(&self, symbol: &Symbol) -> Result<u64, LinkRule>
        requires { IsNamed (length self.now.object.bytes) symbol.now }
        ensures { result ≡ undefined_address self.now symbol.now }
    {
        if symbol.st_name.len == 0 {
            return Err(LinkRule::NoSymbol);
        }
        let name = self.object.bytes(symbol.st_name);
        found_address(symbol.st_info / 16 == STB_WEAK, self.names.find(&[], name))
    }

    // The address of a symbol.
    fn address_of(&self, symbol: &Symbol) -> Result<u64, LinkRule>
        requires { IsNamed (length self.now.object.bytes) symbol.now }
        ensures { result ≡ address_of self.now symbol.now }
    {
        if symbol.st_shndx == SHN_ABS {
            return Ok(symbol.st_value);
        }
        if symbol.st_shndx == SHN_UNDEF {
            return self.undefined_address(symbol);
        }
        match place_of(self.places, usize::from(symbol.st_shndx)) {
            None => Err(LinkRule::NoSymbol),
            Some(place) => Ok(place.wrapping_add(symbol.st_value)),
        }
    }

    // The address of the symbol with this number.
    pub fn symbol_address(&self, number: u32) -> Result<u64, LinkRule>
        requires { number < length self.now.object.symbols }
        ensures { result ≡ symbol_address self.now number }
    {
        if number == 0 {
            return Ok(0);
        }
        self.address_of(&self.object.symbols()[number as usize])
    }
}
