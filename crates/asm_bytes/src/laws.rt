//! What the instructions of short forms do.
ghost use Rattle.std.specs.Prelude.{◌≡◌, ◌<◌, ◌%◌, ◌^◌, ◌↔◌, IsSome, ℕ, ℤ, List, ◌∷◌, Some, true, length, take, drop};
ghost use Rattle.std.specs.Bool.{Decides};
ghost use Rattle.std.specs.Int.{from_le_bytes, w32};
ghost use Rattle.rv_alu.specs.Arithmetic.{wrapped};
ghost use Rattle.rv_encode.specs.Jumps.{IsInReach, distance};
ghost use Rattle.rv_inst.specs.Arch.{ArchState, IsArch};
ghost use Rattle.rv_inst.specs.Decoding.{inst_of};
ghost use Rattle.rv_inst.specs.Spelling.{IsNumber, IsSpelled};
ghost use Rattle.rv_inst.specs.declared.inst.Inst.{Inst};
ghost use Rattle.asm_bytes.specs.Bytes.{li_bytes};
ghost use Rattle.asm_bytes.specs.Laws.{after_all, at_target, one_on, two_on};
ghost use Rattle.asm_bytes.specs.Shorts.{call_code, la_code, long_li, short_li};
ghost use Rattle.asm_bytes.specs.Words.{code_bytes, has_word, is_number};

use rv_inst::words_are_rows;

/// The instructions that have bytes are those that some word is; and bytes of instructions decode
/// to them, four at a time.
pub fn code_decodes()
    ensures words { (inst : Inst) → Decides (has_word inst) (IsSpelled inst) }
    ensures first { (inst : Inst) (rest : List Inst) (bytes : List ℕ)
        → code_bytes (inst ∷ rest) ≡ Some bytes
        → inst_of (from_le_bytes w32 (take 4 bytes)) ≡ Some inst }
    ensures rest { (inst : Inst) (rest : List Inst) (bytes : List ℕ)
        → code_bytes (inst ∷ rest) ≡ Some bytes
        → code_bytes rest ≡ Some (drop 4 bytes) }
{
    words_are_rows();
}

/// `li` leaves its number in its register, and has bytes where the number is one of 32 bits.
pub fn li_loads()
    ensures fits { (rd : ℕ) (value : ℤ) → rd < 32
        → IsSome (li_bytes rd value) ↔ IsNumber 32 value }
    ensures short { (rd : ℕ) (value : ℤ) (arch : ArchState) → IsArch arch.x
        → is_number 12 value ≡ true
        → after_all (short_li rd value) arch ≡ one_on rd (wrapped value) arch }
    ensures long { (rd : ℕ) (value : ℤ) (arch : ArchState) → rd < length arch.x
        → is_number 32 value ≡ true
        → after_all (long_li rd value) arch ≡ two_on rd (wrapped value) arch }
{}

/// `la` leaves the address of its label in its register, and has bytes where the label is in reach:
/// from -2^31 - 2^11 to 2^31 - 2^11 - 1 bytes away.
pub fn la_finds()
    ensures reach { (rd : ℕ) (far : ℤ) → rd < 32
        → IsSome (code_bytes (la_code rd far)) ↔ IsInReach far }
    ensures finds { (rd target : ℕ) (arch : ArchState) → rd < length arch.x
        → arch.pc < 2 ^ 64 → target < 2 ^ 64 → IsInReach (distance arch.pc target)
        → after_all (la_code rd (distance arch.pc target)) arch ≡ two_on rd target arch }
{}

/// `call` leads to its label, which is even, leaves the address behind it in x1, and has bytes
/// where the label is in that reach.
pub fn call_leads()
    ensures reach { (far : ℤ) → IsSome (code_bytes (call_code far)) ↔ IsInReach far }
    ensures leads { (target : ℕ) (arch : ArchState) → 1 < length arch.x
        → arch.pc < 2 ^ 64 → target < 2 ^ 64 → target % 2 ≡ 0 → IsInReach (distance arch.pc target)
        → after_all (call_code (distance arch.pc target)) arch ≡ at_target target arch }
{}
