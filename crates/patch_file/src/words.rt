//! What a line says.
ghost use Rattle.std.specs.Prelude.{◌≡◌, option_map};
ghost use Rattle.patch_file.specs.Words.{is_passed, behind_word, next_name, is_ended, header_in, object_in, replace_in};

use wf_text::{name_of, split_word, without_spaces};

/// Whether a line has no word, or its first word begins with `#`.
pub fn is_passed(line: &[u8]) -> bool
    ensures { result ≡ is_passed line.now }
{
    let rest = without_spaces(line);
    rest.is_empty() || rest[0] == b'#'
}

// What stands behind the next word, where it is this one.
#[tactic(auto, unfolding(crate::specs::Words::behind_word))]
fn behind_word<'a>(rest: &'a [u8], word: &[u8]) -> Option<&'a [u8]>
    ensures { option_map (λ rest. rest.now) result ≡ behind_word word.now rest.now }
{
    let (next, rest) = split_word(without_spaces(rest));
    if next == word {
        return Some(rest);
    }
    None
}

// The next word, where it is a name, and what stands behind it.
#[tactic(auto, unfolding(crate::specs::Words::next_name))]
fn next_name(rest: &[u8]) -> Option<(&[u8], &[u8])>
    ensures { option_map (λ x. (x.0.now, x.1.now)) result ≡ next_name rest.now }
{
    let (next, rest) = split_word(without_spaces(rest));
    let name = name_of(next)?;
    Some((name, rest))
}

// Whether no word is left.
fn is_ended(rest: &[u8]) -> bool
    ensures { result ≡ is_ended rest.now }
{
    without_spaces(rest).is_empty()
}

/// The format and its version.
#[tactic(auto, unfolding(crate::specs::Words::header_in))]
pub fn header_in(line: &[u8]) -> Option<()>
    ensures { result ≡ header_in line.now }
{
    let rest = behind_word(line, b"wfpatch")?;
    let rest = behind_word(rest, b"1")?;
    if is_ended(rest) {
        return Some(());
    }
    None
}

/// The name of the object.
#[tactic(auto, unfolding(crate::specs::Words::object_in))]
pub fn object_in(line: &[u8]) -> Option<&[u8]>
    ensures { option_map (λ name. name.now) result ≡ object_in line.now }
{
    let rest = behind_word(line, b"object")?;
    let (name, rest) = next_name(rest)?;
    if is_ended(rest) {
        return Some(name);
    }
    None
}

/// The names of what is replaced and of what replaces it.
#[tactic(auto, unfolding(crate::specs::Words::replace_in))]
pub fn replace_in(line: &[u8]) -> Option<(&[u8], &[u8])>
    ensures { option_map (λ x. (x.0.now, x.1.now)) result ≡ replace_in line.now }
{
    let rest = behind_word(line, b"replace")?;
    let (old, rest) = next_name(rest)?;
    let (new, rest) = next_name(rest)?;
    if is_ended(rest) {
        return Some((old, new));
    }
    None
}
