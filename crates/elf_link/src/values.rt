//! The values of entries.
ghost use Rattle.std.specs.Prelude.{◌≡◌, ◌<◌, length, IfSome};
ghost use Rattle.elf_read.specs.Relas.{symbol_number};
ghost use Rattle.elf_link.specs.Values.{formula_value, high_at, without_addend, paired_value, within};

use crate::linking::Linking;
use elf_fields::{Bounds, Formula, Operands};
use elf_read::Rela;
use patch_rules::LinkRule;

// The value, where the bounds have it.
pub fn within(bounds: Bounds, value: i128) -> Result<i128, LinkRule>
    ensures { result ≡ within bounds value }
{
    match bounds.refusal(value) {
        None => Ok(value),
        Some(rule) => Err(rule),
    }
}

// The value, where the entry that takes it has no addend of its own.
fn without_addend(rela: &Rela, value: i128) -> Result<i128, LinkRule>
    ensures { result ≡ without_addend rela.now value }
{
    if rela.r_addend.unsigned_abs() == 0 {
        Ok(value)
    } else {
        Err(LinkRule::NoPair)
    }
}

impl Linking<'_> {
    // The value of a formula for an entry at an address, with this number in its field.
    pub fn formula_value(
        &self,
        formula: Formula,
        rela: &Rela,
        place: u64,
        old: u64,
    ) -> Result<i128, LinkRule>
        requires { symbol_number rela.now < length self.now.object.symbols }
        ensures { result ≡ formula_value self.now formula rela.now place old }
    {
        let symbol = self.symbol_address(rela.symbol())?;
        Ok(formula.value(Operands {
            symbol,
            addend: rela.r_addend,
            place,
            old,
        }))
    }

    // The first R_RISCV_PCREL_HI20 at an address.
    fn high_at(&self, label: u64) -> Option<Rela>
        ensures value { result ≡ high_at self.now label }
        ensures named { IfSome result
            (λ high. symbol_number high < length self.now.object.symbols) }
    {
        if label < self.place {
            return None;
        }
        self.pairs.get(&(label - self.place)).copied()
    }

    // The value for an entry that takes it from the R_RISCV_PCREL_HI20 at its symbol's address.
    pub fn paired_value(&self, rela: &Rela) -> Result<i128, LinkRule>
        requires { symbol_number rela.now < length self.now.object.symbols }
        ensures { result ≡ paired_value self.now rela.now }
    {
        let label = self.symbol_address(rela.symbol())?;
        match self.high_at(label) {
            None => Err(LinkRule::NoPair),
            Some(high) => {
                let value = self.formula_value(Formula::Relative, &high, label, 0)?;
                without_addend(rela, value)
            }
        }
    }
}
