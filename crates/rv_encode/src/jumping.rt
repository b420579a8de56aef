//! The jump that a patch puts over the first eight bytes of a function.
ghost use Rattle.std.specs.Prelude.{◌≡◌, ◌++◌, ℕ, List, length, Some, IfSome};
ghost use Rattle.std.specs.Int.{to_le_bytes, w32};
ghost use Rattle.std.specs.Option.{SomeIff};
ghost use Rattle.rv_encode.specs.Jumps.{distance, IsInReach, CanJump, high_part, low_part};
ghost use Rattle.rv_encode.specs.Jumps.{first_inst, second_inst, jump_words, jump_bytes, LeadsTo};
ghost use Rattle.rv_inst.specs.Decoding.{inst_of};
ghost use Rattle.rv_inst.specs.Spelling.{IsSpelled, word_of};

use crate::encode;
use rv_inst::Inst;

/// The eight bytes, the lowest of each word first, that jump from one address to another by way of
/// x6: `auipc` of x6 and `jalr` through it, which keeps no address to return to. `None` where the
/// target is odd, or is farther than -2^31 - 2^11 to 2^31 - 2^11 - 1 bytes.
///
/// RISC-V unprivileged ISA, "Integer Register-Immediate Instructions" and "Unconditional Jumps".
pub fn jump(from: u64, to: u64) -> Option<[u8; 8]>
    ensures bytes { SomeIff result (CanJump from to) (jump_bytes from to) }
    // Run at the address, whatever the registers hold, they lead to the target and change x6 alone.
    ensures goes { IfSome result (λ bytes. (x : List ℕ) → length x ≡ 32 → LeadsTo bytes from to x) }
{
    if to % 2 != 0 {
        return None;
    }
    let (auipc, jalr) = words(to.checked_signed_diff(from)?)?;
    Some(bytes_of(auipc, jalr))
}

// The words of `auipc` and `jalr`, where the distance is in reach.
fn words(distance: i64) -> Option<(u32, u32)>
    ensures value { SomeIff result (IsInReach distance) (jump_words distance) }
    ensures first { IfSome result (λ words. inst_of words.0 ≡ Some (first_inst distance)) }
    ensures second { IfSome result (λ words. inst_of words.1 ≡ Some (second_inst distance)) }
{
    let (high, low) = parts(distance)?;
    let auipc = word(Inst::Auipc { rd: 6, imm: high });
    let jalr = word(Inst::Jalr {
        rd: 0,
        rs1: 6,
        off: low,
    });
    Some((auipc, jalr))
}

// The word of an instruction that has one.
fn word(inst: Inst) -> u32
    requires { IsSpelled inst }
    ensures value { result ≡ word_of inst }
    ensures decoded { inst_of result ≡ Some inst }
{
    encode(inst).unwrap()
}

// What `auipc` and what `jalr` add, where the distance is in reach.
fn parts(distance: i64) -> Option<(i64, i64)>
    ensures value { SomeIff result (IsInReach distance) (high_part distance, low_part distance) }
    ensures first { IfSome result (λ parts. IsSpelled (first_inst distance)) }
    ensures second { IfSome result (λ parts. IsSpelled (second_inst distance)) }
{
    let end = (1 << 31) - (1 << 11);
    if distance < -(1 << 31) - (1 << 11) || end <= distance {
        return None;
    }
    let high = (distance + 0x800).div_euclid(1 << 12) * (1 << 12);
    Some((high, distance - high))
}

// Two words, the lowest byte of each first.
fn bytes_of(first: u32, second: u32) -> [u8; 8]
    ensures { result ≡ to_le_bytes w32 first ++ to_le_bytes w32 second }
{
    let [a, b, c, d] = first.to_le_bytes();
    let [e, f, g, h] = second.to_le_bytes();
    [a, b, c, d, e, f, g, h]
}
