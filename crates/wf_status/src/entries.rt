//! The rules that entries of a journal break.
use std::fmt;

/// What a journal breaks: the rule of one of its entries, which stands where the machine does not
/// allow it, or that of its final lines, which do not show the machine at its end.
#[derive(Clone, Copy, Debug, PartialEq, Eq)]
pub enum EntryRule {
    /// The rule of a fetch.
    Fetch,
    /// The rule of a load.
    Look,
    /// The rule of the taking of a page.
    Take,
    /// The rule of a store.
    Put,
    /// The rule of an atomic memory operation.
    Swap,
    /// The rule of a store-conditional that misses.
    Miss,
    /// The rule of the end of an instruction or a call.
    End,
    /// The rule of a try that is to be made again.
    Again,
    /// The rule of a wait.
    Wait,
    /// The rule of an entry into the kernel.
    Enter,
    /// The rule of the meeting of a page.
    Sync,
    /// The rule of a trap.
    Trap,
    /// The rule of an exit.
    Exit,
    /// The rule of a byte that is put.
    Out,
    /// The rule of an idle.
    Idle,
    /// The rule of the mapping of pages.
    Map,
    /// The rule of the beginning of an unmap.
    Going,
    /// The rule of a page that is left to its holder.
    Ending,
    /// The rule of a page that has left.
    Gone,
    /// The rule of the birth of a generation.
    Born,
    /// The rule of a move to a generation.
    Move,
    /// The rule of the end of a generation.
    Dead,
    /// The rule of a refusal.
    Refused,
    /// The rule of the final lines.
    Final,
}

impl fmt::Display for EntryRule {
    ghost use Rattle.std.specs.Prelude.{Some};
    ghost use Rattle.wf_status.specs.StatusText.{entry_rule_text};

    ghost output = { λ rule. Some (entry_rule_text rule) };

    fn fmt<W: fmt::Write>(&self, f: &mut fmt::Formatter<W>) -> fmt::Result {
        match self {
            EntryRule::Fetch => write!(f, "fetch"),
            EntryRule::Look => write!(f, "look"),
            EntryRule::Take => write!(f, "take"),
            EntryRule::Put => write!(f, "put"),
            EntryRule::Swap => write!(f, "swap"),
            EntryRule::Miss => write!(f, "miss"),
            EntryRule::End => write!(f, "end"),
            EntryRule::Again => write!(f, "again"),
            EntryRule::Wait => write!(f, "wait"),
            EntryRule::Enter => write!(f, "enter"),
            EntryRule::Sync => write!(f, "sync"),
            EntryRule::Trap => write!(f, "trap"),
            EntryRule::Exit => write!(f, "exit"),
            EntryRule::Out => write!(f, "out"),
            EntryRule::Idle => write!(f, "idle"),
            EntryRule::Map => write!(f, "map"),
            EntryRule::Going => write!(f, "going"),
            EntryRule::Ending => write!(f, "ending"),
            EntryRule::Gone => write!(f, "gone"),
            EntryRule::Born => write!(f, "born"),
            EntryRule::Move => write!(f, "move"),
            EntryRule::Dead => write!(f, "dead"),
            EntryRule::Refused => write!(f, "refused"),
            EntryRule::Final => write!(f, "final"),
        }
    }
}
