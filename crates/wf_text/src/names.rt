//! Names of files in scripts and journals.
ghost use Rattle.std.specs.Prelude.{◌≡◌, option_map};
ghost use Rattle.wf_text.specs.Lines.{are_graphic, name_of};

// Each byte is printed, and is no space.
#[tactic(auto, using(crate::proofs::LineLemmas::graphic_steps))]
fn are_graphic(word: &[u8]) -> bool
    ensures { result ≡ are_graphic word.now }
{
    for byte in word {
        if *byte < 0x21 || *byte > 0x7E {
            return false;
        }
    }
    true
}

/// The name of a file.
#[tactic(auto, unfolding(crate::specs::Lines::name_of))]
pub fn name_of(word: &[u8]) -> Option<&[u8]>
    ensures { option_map (λ name. name.now) result ≡ name_of word.now }
{
    if word.is_empty() || !are_graphic(word) {
        return None;
    }
    Some(word)
}
