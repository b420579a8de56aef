//! Instructions with another immediate.
//!
//! RISC-V unprivileged ISA, "Base Instruction Formats" and "Immediate Encoding Variants".
ghost use Rattle.std.specs.Prelude.{◌≡◌};
ghost use Rattle.elf_fields.specs.Fields.{with_u, with_i, with_s, with_b, with_j};
ghost use Rattle.rv_encode.specs.Jumps.{high_part, low_part};

use crate::numbers::low_bits;
use rv_inst::bits;

// Format U with the high part of a value.
#[tactic(auto, using(crate::proofs::FormatLemmas::upper))]
pub fn with_upper(word: u32, value: i128) -> u32
    ensures { result ≡ with_u (high_part value) word }
{
    let n = ((low_bits(32, value) + 0x800) % (1 << 32)) as u32;
    (bits(n, 31, 12) << 12) + bits(word, 11, 0)
}

// Format I with the low part of a value.
#[tactic(auto, using(crate::proofs::FormatLemmas::lower))]
pub fn with_immediate(word: u32, value: i128) -> u32
    ensures { result ≡ with_i (low_part value) word }
{
    let n = low_bits(12, value) as u32;
    (n << 20) + bits(word, 19, 0)
}

// Format S with the low part of a value.
#[tactic(auto, using(crate::proofs::FormatLemmas::lower))]
pub fn with_store(word: u32, value: i128) -> u32
    ensures { result ≡ with_s (low_part value) word }
{
    let n = low_bits(12, value) as u32;
    let low = (bits(n, 4, 0) << 7) + bits(word, 6, 0);
    (bits(n, 11, 5) << 25) + (bits(word, 24, 12) << 12) + low
}

// Format B with an offset.
pub fn with_branch(word: u32, value: i128) -> u32
    ensures { result ≡ with_b value word }
{
    let n = low_bits(13, value) as u32;
    let high = (bits(n, 12, 12) << 31) + (bits(n, 10, 5) << 25);
    let low = (bits(n, 4, 1) << 8) + (bits(n, 11, 11) << 7);
    high + (bits(word, 24, 12) << 12) + low + bits(word, 6, 0)
}

// Format J with an offset.
pub fn with_jump(word: u32, value: i128) -> u32
    ensures { result ≡ with_j value word }
{
    let n = low_bits(21, value) as u32;
    let high = (bits(n, 20, 20) << 31) + (bits(n, 10, 1) << 21);
    let low = (bits(n, 11, 11) << 20) + (bits(n, 19, 12) << 12);
    high + low + bits(word, 11, 0)
}
