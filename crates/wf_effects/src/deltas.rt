//! The patches of a run.
ghost use Rattle.std.specs.Prelude.{◌≡◌, ◌++◌, IfOk, OnOk, nat_eq, option_copied};
ghost use Rattle.std.specs.List.{IsDistinct};
ghost use Rattle.wf_outside.specs.Images.{data_numbers, text_numbers};
ghost use Rattle.wf_effects.specs.Effects as effects;
ghost use Rattle.wf_effects.specs.Texts as texts;

use std::alloc::Global;
use wf_outside::{DataPage, Delta, Memory, Page};

/// The patch of the run that an entry names, if it names one that the run has.
pub fn delta_of(deltas: &[Delta], patch: Option<u32>) -> Option<&Delta>
    ensures { option_copied result ≡ effects.delta_of deltas.now patch }
{
    match patch {
        Some(k) => deltas.get(k as usize),
        None => None,
    }
}

// The numbers of pages of text come behind those that are there.
fn push_text(numbers: &mut Vec<u32>, pages: &[Page]) -> Result<(), Memory>
    ensures { OnOk result (numbers.new.items ≡ numbers.old.items ++ text_numbers pages.now) }
{
    for page in pages {
        numbers.push(page.number)?;
    }
    Ok(())
}

// The numbers of pages of data come behind those that are there.
fn push_data(numbers: &mut Vec<u32>, pages: &[DataPage]) -> Result<(), Memory>
    ensures { OnOk result (numbers.new.items ≡ numbers.old.items ++ data_numbers pages.now) }
{
    for page in pages {
        numbers.push(page.number)?;
    }
    Ok(())
}

/// The numbers of the pages that a patch brings, private and shared ones, rising.
pub fn pages_of(alloc: Global, delta: &Delta) -> Result<Vec<u32>, Memory>
    requires { IsDistinct nat_eq
        (text_numbers delta.now.private ++ data_numbers delta.now.shared) }
    ensures { IfOk result (λ numbers. numbers.items ≡ texts.pages_of delta.now) }
{
    let mut numbers = Vec::new(alloc);
    push_text(&mut numbers, &delta.private)?;
    push_data(&mut numbers, &delta.shared)?;
    numbers.sort_by_key(|n| *n)?;
    Ok(numbers)
}
