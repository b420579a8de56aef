//! Whole reports.
ghost use Rattle.std.specs.Prelude.{◌≡◌, ◌++◌, ◌-◌, IfOk, OnOk, drop, take};
ghost use Rattle.std.specs.List.{flat_map};
ghost use Rattle.wf_journal.specs.Lines.{entry_line};
ghost use Rattle.wf_report.specs.Reports.{body_from, report_bytes};

use crate::Listing;
use std::alloc::Global;
use wf_flat::{Entry, Flat};
use wf_journal::{final_text, push_entries, push_header, push_lines};
use wf_outside::{Memory, Text};

// The entries that stand before a listing, of which so many stand before these, and the listing;
// what is left are the entries behind it, and the listing's place.
fn push_listing<'a>(
    out: &mut Vec<u8>,
    entries: &'a [Entry],
    done: u64,
    listing: &Listing,
) -> Result<(&'a [Entry], u64), Memory>
    ensures text { OnOk result
        (out.new.items
        ≡ out.old.items ++ flat_map entry_line (take (listing.now.place - done) entries.now)
        ++ listing.now.lines) }
    ensures left { IfOk result
        (λ left. left.0.now ≡ drop (listing.now.place - done) entries.now) }
    ensures place { IfOk result (λ left. left.1 ≡ listing.now.place) }
{
    let n = (listing.place.saturating_sub(done) as usize).min(entries.len());
    let (before, behind) = entries.split_at(n);
    push_entries(out, before)?;
    out.extend_from_slice(&listing.lines)?;
    Ok((behind, listing.place))
}

// The entries, each listing behind those that stand before it.
#[tactic(auto, using(crate::proofs::ListingLemmas::last_steps))]
fn push_body(out: &mut Vec<u8>, entries: &[Entry], listings: &[Listing]) -> Result<(), Memory>
    ensures { OnOk result
        (out.new.items ≡ out.old.items ++ body_from 0 entries.now listings.now) }
{
    let mut rest = entries;
    let mut done = 0;
    for listing in listings {
        (rest, done) = push_listing(out, rest, done, listing)?;
    }
    push_entries(out, rest)
}

/// The report of a run: the first lines with the names of its patches, its
/// entries and listings, and the final lines of the state at its end.
pub fn report(
    alloc: Global,
    patches: &[Text],
    entries: &[Entry],
    listings: &[Listing],
    flat: &Flat,
) -> Result<Vec<u8>, Memory>
    ensures { IfOk result
        (λ text. text.items ≡ report_bytes patches.now entries.now listings.now flat.now) }
{
    let mut out = Vec::new(alloc);
    push_header(
        &mut out,
        flat.harts.len() as u64,
        flat.limits.frames,
        patches,
    )?;
    push_body(&mut out, entries, listings)?;
    push_lines(&mut out, &final_text(alloc, flat)?)?;
    Ok(out)
}
