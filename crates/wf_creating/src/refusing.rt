//! What a birth is refused for.
ghost use Rattle.std.specs.Prelude.{◌≡◌, is_some};
ghost use Rattle.wf_views.specs.Views.{view_of};
ghost use Rattle.wf_creating.specs.Layout.{need_at_birth};
ghost use Rattle.wf_creating.specs.Refusals.{birth_refusal, views_in};

use wf_mapping::no_frames;
use wf_outside::Refusal;
use wf_verdict::MOST_GENERATIONS;
use wf_views::Records;

/// Whether there is a view of a generation.
pub fn has_view(records: &Records, generation: u32) -> bool
    ensures { result ≡ is_some (view_of records.now.views generation) }
{
    records.views.find(generation).is_some()
}

/// Views, where as many generations were born as may be.
pub fn no_more_views(records: &Records) -> Option<Refusal>
    ensures { result ≡ views_in records.now }
{
    if (records.born.as_slice().len() as u64) < MOST_GENERATIONS {
        None
    } else {
        Some(Refusal::Views)
    }
}

/// What a birth, which needs so many frames, is refused for.
pub(crate) fn create_refusal(records: &Records, parent: u32, need: u64) -> Option<Refusal>
    requires { need ≡ need_at_birth records.now parent }
    ensures { result ≡ birth_refusal records.now parent }
{
    if !has_view(records, parent) {
        return Some(Refusal::NoView {
            generation: u64::from(parent),
        });
    }
    if let Some(reason) = no_more_views(records) {
        return Some(reason);
    }
    no_frames(records, need)
}
