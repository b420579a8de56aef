//! Instructions, alone and in pairs.
ghost use Rattle.std.specs.Prelude.{◌≡◌, ◌<◌, ◌≤◌, ◌≤ℤ◌, ◌^◌, ℤ, pos, negsuc, [], ◌∷◌, IfOk, IfErr};
ghost use Rattle.byteorder.specs.Endian.{little_bytes};
ghost use Rattle.rv_alu.specs.Arithmetic.{signed};
ghost use Rattle.rv_encode.specs.Jumps.{distance, high_part, low_part};
ghost use Rattle.rv_inst.specs.Spelling.{low_bits, word_of};
ghost use Rattle.asm_lines.specs.Choice.{when};
ghost use Rattle.asm_bytes.specs.Bytes.{IsPut, li_bytes};
ghost use Rattle.asm_bytes.specs.Shorts.{call_code, la_code, long_li};
ghost use Rattle.asm_bytes.specs.Words.{code_bytes, has_word, is_number};
ghost use Rattle.asm_bytes.specs.declared.fault.PutFault.TheVariants as fault;

use crate::PutFault;
use rv_alu::AluOp;
use rv_encode::encode;
use rv_inst::Inst;

// The word of an instruction that has one.
#[tactic(auto, using(crate::proofs::WordLemmas::word_answer))]
fn word(inst: Inst) -> Option<u32>
    ensures { result ≡ when (has_word inst) (word_of inst) }
{
    encode(inst)
}

// The bytes of an instruction that has a word.
fn word_bytes(inst: Inst) -> Option<[u8; 4]>
    ensures { result ≡ when (has_word inst) (little_bytes 4 (word_of inst)) }
{
    let word = word(inst)?;
    Some(word.to_le_bytes())
}

// Adds an instruction.
#[tactic(auto, unfolding(crate::specs::Words::code_bytes))]
pub fn put_one(out: &mut Vec<u8>, inst: Inst) -> Result<(), PutFault>
    ensures { IsPut result out.old.items out.new.items (code_bytes (inst ∷ [])) }
{
    match word_bytes(inst) {
        Some(bytes) => Ok(out.extend_from_slice(&bytes)?),
        None => Err(PutFault::Range),
    }
}

// The bytes of two instructions that have words.
#[tactic(auto, unfolding(crate::specs::Words::code_bytes))]
fn pair_bytes(first: Inst, second: Inst) -> Option<[u8; 8]>
    ensures { result ≡ code_bytes (first ∷ second ∷ []) }
{
    let [a, b, c, d] = word_bytes(first)?;
    let [e, f, g, h] = word_bytes(second)?;
    Some([a, b, c, d, e, f, g, h])
}

// Adds two instructions.
pub fn put_two(out: &mut Vec<u8>, first: Inst, second: Inst) -> Result<(), PutFault>
    ensures { IsPut result out.old.items out.new.items (code_bytes (first ∷ second ∷ [])) }
{
    match pair_bytes(first, second) {
        Some(bytes) => Ok(out.extend_from_slice(&bytes)?),
        None => Err(PutFault::Range),
    }
}

// What the first of two instructions adds, a multiple of 4,096, and what is left for the second.
fn parts(distance: i64) -> (i64, i64)
    requires { (negsuc (2 ^ 33) ≤ℤ distance) × (distance ≤ℤ pos (2 ^ 33)) }
    ensures { result ≡ (high_part distance, low_part distance) }
{
    let high = (distance + 0x800).div_euclid(0x1000) * 0x1000;
    (high, distance - high)
}

// The low 32 bits, sign-extended.
fn low_word(number: i64) -> i64
    ensures { result ≡ signed 32 (low_bits 32 number) }
{
    let low = number.rem_euclid(1 << 32);
    if low < 1 << 31 { low } else { low - (1 << 32) }
}

/// Whether a number is a two's complement number of so many bits.
pub fn is_number(bits: u32, value: i128) -> bool
    requires { (0 < bits) × (bits ≤ 32) }
    ensures { result ≡ is_number bits value }
{
    let end = i128::from(1u32 << (bits - 1));
    -end <= value && value < end
}

// Adds `li` of a number of 32 bits.
#[tactic(auto, unfolding(crate::specs::Shorts::long_li))]
fn put_long_li(out: &mut Vec<u8>, rd: u8, value: i64) -> Result<(), PutFault>
    requires { (negsuc (2 ^ 33) ≤ℤ value) × (value ≤ℤ pos (2 ^ 33)) }
    ensures { IsPut result out.old.items out.new.items (code_bytes (long_li rd value)) }
{
    let (high, low) = parts(value);
    let lui = Inst::Lui {
        rd,
        imm: low_word(high),
    };
    let addiw = Inst::AluImm {
        op: AluOp::Addw,
        rd,
        rs1: rd,
        imm: low,
    };
    put_two(out, lui, addiw)
}

/// Adds `li`.
#[tactic(auto, unfolding(crate::specs::Bytes::li_bytes))]
pub fn put_li(out: &mut Vec<u8>, rd: u8, value: i128) -> Result<(), PutFault>
    ensures { IsPut result out.old.items out.new.items (li_bytes rd value) }
{
    if is_number(12, value) {
        let addi = Inst::AluImm {
            op: AluOp::Add,
            rd,
            rs1: 0,
            imm: value as i64,
        };
        put_one(out, addi)
    } else if is_number(32, value) {
        put_long_li(out, rd, value as i64)
    } else {
        Err(PutFault::Range)
    }
}

// Adds `call` of a label so far away.
#[tactic(auto, unfolding(crate::specs::Shorts::call_code))]
pub fn put_call(out: &mut Vec<u8>, distance: i64) -> Result<(), PutFault>
    requires { (negsuc (2 ^ 33) ≤ℤ distance) × (distance ≤ℤ pos (2 ^ 33)) }
    ensures { IsPut result out.old.items out.new.items (code_bytes (call_code distance)) }
{
    let (high, low) = parts(distance);
    let auipc = Inst::Auipc { rd: 1, imm: high };
    let jalr = Inst::Jalr {
        rd: 1,
        rs1: 1,
        off: low,
    };
    put_two(out, auipc, jalr)
}

// Adds `la` of a label so far away.
#[tactic(auto, unfolding(crate::specs::Shorts::la_code))]
pub fn put_la(out: &mut Vec<u8>, rd: u8, distance: i64) -> Result<(), PutFault>
    requires { (negsuc (2 ^ 33) ≤ℤ distance) × (distance ≤ℤ pos (2 ^ 33)) }
    ensures { IsPut result out.old.items out.new.items (code_bytes (la_code rd distance)) }
{
    let (high, low) = parts(distance);
    let auipc = Inst::Auipc { rd, imm: high };
    let addi = Inst::AluImm {
        op: AluOp::Add,
        rd,
        rs1: rd,
        imm: low,
    };
    put_two(out, auipc, addi)
}
