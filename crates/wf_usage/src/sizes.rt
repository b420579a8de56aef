//! The numbers of commands: the sizes of a run, and the functions of a program that is made.
ghost use Rattle.std.specs.Prelude.{◌≡◌, ◌≤◌, IfSome, option_map};
ghost use Rattle.wf_usage.specs.Words.{AreSizes, functions_by, number_or, number_within, sizes_by};

use wf_outside::{LEAST_FRAMES, MOST_FRAMES};
use wf_text::decimal_of;

// The most harts of a run.
const MOST_HARTS: u64 = 64;

// The most functions of a program that is made.
const MOST_FUNCTIONS: u64 = 10_000;

/// The sizes of a run where its words tell no others.
pub const USUAL: Sizes = Sizes {
    harts: 1,
    frames: 1024,
};

/// How many harts a run has, 1 to 64, and how many frames, 64 to 65,536.
#[derive(Clone, Copy, Debug, PartialEq, Eq)]
pub struct Sizes {
    pub harts: u8,
    pub frames: u32,
}

// The number that a word spells, in decimal digits without a leading zero, from the least to the
// most.
fn number_within(least: u64, most: u64, word: &str) -> Option<u64>
    ensures value { result ≡ number_within least most word.now }
    ensures within { IfSome result (λ n. (least ≤ n) × (n ≤ most)) }
{
    let n = decimal_of(word.as_bytes(), most)?;
    if n < least { None } else { Some(n) }
}

// The number that an option's value spells, from the least to the most; the usual one where there is
// no value.
fn number_or(usual: u64, least: u64, most: u64, value: Option<&str>) -> Option<u64>
    requires least { least ≤ usual }
    requires most { usual ≤ most }
    ensures value { result ≡ number_or usual least most (option_map (λ v. v.now) value.entry) }
    ensures within { IfSome result (λ n. (least ≤ n) × (n ≤ most)) }
{
    match value {
        Some(word) => number_within(least, most, word),
        None => Some(usual),
    }
}

/// The sizes of a run, by the values of its options; `None` where a value spells no number of its
/// range.
pub(crate) fn sizes_by(harts: Option<&str>, frames: Option<&str>) -> Option<Sizes>
    ensures value { result ≡ sizes_by (option_map (λ v. v.now) harts.entry)
        (option_map (λ v. v.now) frames.entry) }
    ensures sized { IfSome result AreSizes }
{
    let harts = number_or(u64::from(USUAL.harts), 1, MOST_HARTS, harts)? as u8;
    let (least, most) = (u64::from(LEAST_FRAMES), u64::from(MOST_FRAMES));
    let frames = number_or(u64::from(USUAL.frames), least, most, frames)? as u32;
    Some(Sizes { harts, frames })
}

/// The number of functions that a word spells, from 1 to 10,000.
pub(crate) fn functions_by(word: &str) -> Option<u64>
    ensures value { result ≡ functions_by word.now }
    ensures within { IfSome result (λ n. (1 ≤ n) × (n ≤ 10000)) }
{
    number_within(1, MOST_FUNCTIONS, word)
}
