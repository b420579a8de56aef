//! A listing at its place.
use std::marker::Model;

/// A listing of a script: how many entries stand before it, and its lines, each with its newline.
#[derive(Drop)]
pub struct Listing {
    pub place: u64,
    pub lines: Vec<u8>,
}

impl Model for Listing {
    ghost use Rattle.wf_report.specs.Listings.{ListingValue};

    ghost Value = { ListingValue };

    ghost view = { λ l. record { place = l.place; lines = l.lines.items } };
}
