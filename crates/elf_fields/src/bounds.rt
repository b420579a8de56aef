//! The values that a relocation takes.
ghost use Rattle.std.specs.Prelude.{◌≡◌};
ghost use Rattle.elf_fields.specs.Bounds.{is_odd, is_even_only, reaches, refusal_of};

use patch_rules::LinkRule;

/// The values that a relocation takes.
///
/// RISC-V ELF psABI, "Relocations".
#[derive(Clone, Copy, Debug, PartialEq, Eq)]
pub enum Bounds {
    /// Any: the field takes the low bits.
    Any,
    /// -2^31 to 2^32 - 1.
    Word,
    /// -2^31 to 2^31 - 1.
    SignedWord,
    /// Even, -4096 to 4094.
    Branch,
    /// Even, -2^20 to 2^20 - 2.
    Jump,
    /// -2^31 - 2^11 to 2^31 - 2^11 - 1, the reach of two instructions.
    Pair,
    /// The same, and even.
    EvenPair,
}

impl Bounds {
    // It is a distance of a jump or a branch.
    fn is_even_only(self) -> bool
        ensures { result ≡ is_even_only self }
    {
        match self {
            Bounds::Any | Bounds::Word | Bounds::SignedWord | Bounds::Pair => false,
            Bounds::Branch | Bounds::Jump | Bounds::EvenPair => true,
        }
    }

    // The value is neither too low nor too high.
    fn reaches(self, value: i128) -> bool
        ensures { result ≡ reaches self value }
    {
        match self {
            Bounds::Any => true,
            Bounds::Word => -(1 << 31) <= value && value <= (1 << 32) - 1,
            Bounds::SignedWord => -(1 << 31) <= value && value <= (1 << 31) - 1,
            Bounds::Branch => -4096 <= value && value <= 4094,
            Bounds::Jump => -(1 << 20) <= value && value <= (1 << 20) - 2,
            Bounds::Pair | Bounds::EvenPair => {
                -(1 << 31) - (1 << 11) <= value && value <= (1 << 31) - (1 << 11) - 1
            }
        }
    }

    /// Why the value is refused: `Odd` where it must be even, else `Reach`; `None` where it is
    /// taken.
    pub fn refusal(self, value: i128) -> Option<LinkRule>
        ensures { result ≡ refusal_of self value }
    {
        if self.is_even_only() && value.unsigned_abs() % 2 == 1 {
            return Some(LinkRule::Odd);
        }
        if !self.reaches(value) {
            return Some(LinkRule::Reach { value });
        }
        None
    }
}
