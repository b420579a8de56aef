//! Views by the numbers that harts give, and the views that harts are in.
ghost use Rattle.std.specs.Prelude.{◌≡◌, None, IfSome, IsSome, option_copied};
ghost use Rattle.std.specs.List.{find};
ghost use Rattle.wf_views.specs.Views.{view_of};
ghost use Rattle.wf_residents.specs.Refusals as refusals;

use wf_views::{Records, View};

/// The view of a generation, whose number may be any; `None` where it has none.
pub(crate) fn view_at(records: &Records, generation: u64) -> Option<&View>
    ensures { option_copied result ≡ view_of records.now.views generation }
{
    let _count = records.views.len();
    let last = records.views.last()?;
    if generation <= u64::from(last) {
        records.views.find(generation as u32)
    } else {
        None
    }
}

// The generation of a view.
fn number_of(view: &View) -> u32
    ensures { result ≡ view.now.generation }
{
    view.generation
}

/// The number of a generation, if it lives.
pub(crate) fn live_number(records: &Records, generation: u64) -> Option<u32>
    ensures there { IfSome result
        (λ number. (number ≡ generation) × IsSome (view_of records.now.views generation)) }
    ensures none { result ≡ None → view_of records.now.views generation ≡ None }
{
    let view = view_at(records, generation)?;
    Some(number_of(view))
}

// Whether a hart is among the residents of a view.
fn has_resident(view: &View, hart: u8) -> bool
    ensures { result ≡ refusals.has_resident hart view.now }
{
    view.residents.contains(u32::from(hart))
}

/// The generation in whose view a hart is; `None` where it is in none. It takes one pass over the
/// views.
pub(crate) fn residence_of(records: &Records, hart: u8) -> Option<u32>
    ensures { result ≡ refusals.residence_of records.now hart }
{
    for i in 0..records.views.len() {
        let view = records.views.at(i);
        if has_resident(view, hart) {
            return Some(number_of(view));
        }
    }
    None
}
