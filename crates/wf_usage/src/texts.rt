//! Words as text.
ghost use Rattle.std.specs.Prelude.{◌≡◌, IfOk, MatchOption, false, map, true};
ghost use Rattle.wf_usage.specs.Words.{are_texts};

use std::alloc::Global;
use std::str;
use wf_outside::{Memory, Text};

/// The words as text; `None` where one is not UTF-8.
pub(crate) fn texts_of<'a>(alloc: Global, words: &'a [Text]) -> Result<Option<Vec<&'a str>>, Memory>
    ensures { IfOk result (λ texts. MatchOption texts (are_texts words.now ≡ false)
        (λ texts. (are_texts words.now ≡ true) × (map (λ t. t.now) texts.items ≡ words.now))) }
{
    let mut texts = Vec::new(alloc);
    for word in words {
        match str::from_utf8(word.bytes()) {
            Ok(text) => texts.push(text)?,
            Err(_) => return Ok(None),
        }
    }
    Ok(Some(texts))
}
