//! The lines of a text, one after the other, with their numbers.
ghost use Rattle.std.specs.Prelude.{◌≡◌, ◌<◌, ◌≤◌, ◌+◌, ◌^◌, ◌∷◌, [], IfOk, IfErr, length};
ghost use Rattle.wf_text.specs.Lines.{lines_of};
ghost use Rattle.patch_file.specs.declared.patch.PatchFault.TheVariants as fault;
ghost use Rattle.patch_file.specs.Reading.{unpassed};

use crate::PatchFault;
use crate::words::is_passed;
use wf_text::split_line;

/// A line that is not passed over: its number, its bytes, and what stands behind it.
#[derive(Clone, Copy)]
pub struct Line<'a> {
    pub number: u64,
    pub bytes: &'a [u8],
    pub behind: &'a [u8],
}

/// The next line that is not passed over, where the first has this number; or else the fault of the
/// line that is missing.
#[tactic(auto, using(crate::proofs::LineLemmas::next_steps))]
pub fn next_line(bytes: &[u8], first: u64) -> Result<Line<'_>, PatchFault>
    requires { first + length bytes.now < 2 ^ 64 }
    ensures found { IfOk result (λ line. unpassed first (lines_of bytes.now)
        ≡ (line.number, line.bytes.now) ∷ unpassed (line.number + 1) (lines_of line.behind.now)) }
    ensures last { IfOk result (λ line. line.number + 1 + length (lines_of line.behind.now)
        ≡ first + length (lines_of bytes.now)) }
    ensures place { IfOk result
        (λ line. line.number + 1 + length line.behind.now ≤ first + length bytes.now) }
    ensures shorter { IfOk result (λ line. length line.behind.now < length bytes.now) }
    ensures none { IfErr result (λ _. unpassed first (lines_of bytes.now) ≡ []) }
    ensures missing { IfErr result
        (λ error. error ≡ fault.Line (first + length (lines_of bytes.now))) }
{
    let mut rest = bytes;
    let mut number = first;
    while !rest.is_empty() {
        let (line, behind) = split_line(rest);
        if !is_passed(line) {
            return Ok(Line {
                number,
                bytes: line,
                behind,
            });
        }
        number += 1;
        rest = behind;
    }
    Err(PatchFault::Line { line: number })
}
