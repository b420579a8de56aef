//! Laws of the table of instructions.
ghost use Rattle.std.specs.Prelude.{◌≡◌, ◌≢◌, ◌<◌, ◌^◌, ◌↔◌, ℕ, Bool, Some, None};
ghost use Rattle.rv_inst.specs.Rows.{IsRow, IsWidth, load_code, store_code};
ghost use Rattle.rv_inst.specs.Decoding.{inst_of};
ghost use Rattle.rv_inst.specs.Meanings.{atomic_width};
ghost use Rattle.rv_inst.specs.Spelling.{IsSpelled, word_of};
ghost use Rattle.rv_inst.specs.declared.inst.Inst.{Inst};

/// A word has at most one instruction, that of its row, and an instruction has at most one word;
/// and the instructions whose fields are in range are exactly those that some word is.
pub fn words_are_rows()
    ensures row { (word : ℕ) (inst : Inst) → (inst_of word ≡ Some inst) ↔ IsRow word inst }
    ensures spelled { (word : ℕ) (inst : Inst) → word < 2 ^ 32 → IsRow word inst → IsSpelled inst }
    ensures one { (word : ℕ) (inst : Inst) → word < 2 ^ 32 → IsRow word inst → word ≡ word_of inst }
    ensures spells { (inst : Inst) → IsSpelled inst → IsRow (word_of inst) inst }
    ensures fits { (inst : Inst) → IsSpelled inst → word_of inst < 2 ^ 32 }
{}

/// Each load, store and atomic instruction that there is has a width of 1, 2, 4 or 8 bytes.
pub fn accesses_have_widths()
    ensures load { (width : ℕ) (sign : Bool) → load_code width sign ≢ None → IsWidth width }
    ensures store { (width : ℕ) → store_code width ≢ None → IsWidth width }
    ensures atomic { (wide : Bool) → IsWidth (atomic_width wide) }
{}
