//! Atomic instructions.
ghost use Rattle.std.specs.Prelude.{◌≡◌, ◌≤◌, find, length};
ghost use Rattle.std.specs.Str.{bytes_eq};
ghost use Rattle.rv_encode.specs.Texts as texts;
ghost use Rattle.asm_lines.specs.Atomics.{order_of, lr, three_with_address, sc, amo, atomic_named, head_len, atomic};

use crate::bytes::place_of;
use crate::operands::{in_parentheses, pair};
use crate::registers::register_of;
use rv_alu::AmoOp;
use rv_encode::amo_name;
use rv_inst::Inst;

const AMO_OPS: [AmoOp; 9] = [
    AmoOp::Swap,
    AmoOp::Add,
    AmoOp::Xor,
    AmoOp::And,
    AmoOp::Or,
    AmoOp::Min,
    AmoOp::Max,
    AmoOp::Minu,
    AmoOp::Maxu,
];

// Whether an atomic instruction is of 64 bits, and the bits that order it.
#[derive(Clone, Copy)]
pub struct Order {
    pub wide: bool,
    pub aq: bool,
    pub rl: bool,
}

// The width and order of a suffix.
fn order_of(suffix: &[u8]) -> Option<Order>
    ensures { result ≡ order_of suffix.now }
{
    let (wide, aq, rl) = if suffix == b".w".as_slice() {
        (false, false, false)
    } else if suffix == b".w.aq".as_slice() {
        (false, true, false)
    } else if suffix == b".w.rl".as_slice() {
        (false, false, true)
    } else if suffix == b".w.aqrl".as_slice() {
        (false, true, true)
    } else if suffix == b".d".as_slice() {
        (true, false, false)
    } else if suffix == b".d.aq".as_slice() {
        (true, true, false)
    } else if suffix == b".d.rl".as_slice() {
        (true, false, true)
    } else if suffix == b".d.aqrl".as_slice() {
        (true, true, true)
    } else {
        return None;
    };
    Some(Order { wide, aq, rl })
}

// `lr`.
#[tactic(auto, unfolding(crate::specs::Atomics::lr))]
fn lr(order: Order, args: &[u8]) -> Option<Inst>
    ensures { result ≡ lr order args.now }
{
    let (rd, address) = pair(args)?;
    let rd = register_of(rd)?;
    let rs1 = in_parentheses(address)?;
    Some(Inst::Lr {
        wide: order.wide,
        aq: order.aq,
        rl: order.rl,
        rd,
        rs1,
    })
}

// Two registers and an address.
#[tactic(auto, unfolding(crate::specs::Atomics::three_with_address))]
fn three_with_address(args: &[u8]) -> Option<(u8, u8, u8)>
    ensures { result ≡ three_with_address args.now }
{
    let (rd, rest) = pair(args)?;
    let rd = register_of(rd)?;
    let (rs2, address) = pair(rest)?;
    let rs2 = register_of(rs2)?;
    let rs1 = in_parentheses(address)?;
    Some((rd, rs2, rs1))
}

// `sc`.
#[tactic(auto, unfolding(crate::specs::Atomics::sc))]
fn sc(order: Order, args: &[u8]) -> Option<Inst>
    ensures { result ≡ sc order args.now }
{
    let (rd, rs2, rs1) = three_with_address(args)?;
    Some(Inst::Sc {
        wide: order.wide,
        aq: order.aq,
        rl: order.rl,
        rd,
        rs1,
        rs2,
    })
}

// An atomic memory operation.
#[tactic(auto, unfolding(crate::specs::Atomics::amo))]
fn amo(op: AmoOp, order: Order, args: &[u8]) -> Option<Inst>
    ensures { result ≡ amo op order args.now }
{
    let (rd, rs2, rs1) = three_with_address(args)?;
    Some(Inst::Amo {
        op,
        wide: order.wide,
        aq: order.aq,
        rl: order.rl,
        rd,
        rs1,
        rs2,
    })
}

// The operation of a name without width and order.
fn amo_op(name: &[u8]) -> Option<AmoOp>
    ensures { result ≡ find (λ op. bytes_eq (texts.amo_name op) name.now) AMO_OPS }
{
    AMO_OPS
        .iter()
        .copied()
        .find(|op| amo_name(*op).as_bytes() == name)
}

// By what stands before the first point.
#[tactic(auto, unfolding(crate::specs::Atomics::atomic_named))]
fn atomic_named(name: &[u8], order: Order, args: &[u8]) -> Option<Inst>
    ensures { result ≡ atomic_named name.now order args.now }
{
    if name == b"lr".as_slice() {
        lr(order, args)
    } else if name == b"sc".as_slice() {
        sc(order, args)
    } else {
        let op = amo_op(name)?;
        amo(op, order, args)
    }
}

// How many bytes stand before the first point.
fn head_len(mnemonic: &[u8]) -> usize
    ensures value { result ≡ head_len mnemonic.now }
    ensures bound { result ≤ length mnemonic.now }
{
    match place_of(b'.', mnemonic) {
        Some(at) => at,
        None => mnemonic.len(),
    }
}

// An atomic instruction.
#[tactic(auto, unfolding(crate::specs::Atomics::atomic))]
pub fn atomic(mnemonic: &[u8], args: &[u8]) -> Option<Inst>
    ensures { result ≡ atomic mnemonic.now args.now }
{
    let head = head_len(mnemonic);
    let order = order_of(&mnemonic[head..])?;
    atomic_named(&mnemonic[..head], order, args)
}
