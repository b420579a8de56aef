//! The rules of entries.
use std::fmt;

/// Why a relocation entry can't be applied, in the order in which the rules are looked at.
#[derive(Clone, Copy, Debug, PartialEq, Eq)]
pub enum LinkRule {
    /// Its type has number `n`, which isn't one of the table.
    Reloc { n: u32 },
    /// Its field isn't inside its section.
    Offset,
    /// Its symbol, or that of its R_RISCV_PCREL_HI20, stands for no address.
    NoSymbol,
    /// The name of its symbol, or of that of its R_RISCV_PCREL_HI20, is there at two addresses.
    Several,
    /// It takes its value from an R_RISCV_PCREL_HI20, and none stands at its label, or it has an
    /// addend.
    NoPair,
    /// The value is odd, and the instruction goes to even distances alone.
    Odd,
    /// The value is out of the reach of the instruction or the field.
    Reach { value: i128 },
}

impl fmt::Display for LinkRule {
    ghost use Rattle.std.specs.Prelude.{Some};
    ghost use Rattle.patch_rules.specs.RuleText.{link_rule_text};

    ghost output = { λ rule. Some (link_rule_text rule) };

    fn fmt<W: fmt::Write>(&self, f: &mut fmt::Formatter<W>) -> fmt::Result {
        match *self {
            LinkRule::Reloc { n } => write!(f, "reloc {n}"),
            LinkRule::Offset => write!(f, "offset"),
            LinkRule::NoSymbol => write!(f, "nosymbol"),
            LinkRule::Several => write!(f, "several"),
            LinkRule::NoPair => write!(f, "nopair"),
            LinkRule::Odd => write!(f, "odd"),
            LinkRule::Reach { value } => write!(f, "reach {value}"),
        }
    }
}
