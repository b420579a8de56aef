//! The answers of refused calls.
ghost use Rattle.std.specs.Prelude.{◌≡◌, ◌≢◌, ℕ, pos, ◌-ℤ◌};
ghost use Rattle.wf_outside.specs.Refusals.{refusal_number};

use wf_outside::Refusal;

/// What a refused call of a hart answers in a0: the number of its refusal, negated. No call of a hart
/// lacks a patch.
pub fn number_of(refusal: Refusal) -> i64
    requires { (n : ℕ) → refusal ≢ Refusal.Lacks n }
    ensures { result ≡ (pos 0 -ℤ pos (refusal_number refusal)) }
{
    match refusal {
        Refusal::Argument => -1,
        Refusal::Overlap { .. } => -2,
        Refusal::Absent { .. } => -3,
        Refusal::Leaving { .. } => -4,
        Refusal::NoFrames { .. } => -5,
        Refusal::NoView { .. } => -6,
        Refusal::NotEmpty { .. } => -7,
        Refusal::Inside { .. } => -8,
        Refusal::Views => -9,
        Refusal::Number { .. } => -10,
        Refusal::Lacks { .. } => unreachable!(),
    }
}
