//! The record of a view: the page table of one live generation.
use crate::{Numbers, Roomy};
use std::marker::Model;
use wf_outside::Jump;

/// A node of a view's page table: its level, 2, 1 or 0; its prefix, which is the number of any page
/// below it, divided by 512 once at level 0, twice at level 1 and three times at level 2, where it
/// is 0; and its frame.
///
/// RISC-V privileged ISA, "Sv39: Page-Based 39-bit Virtual-Memory System".
#[derive(Clone, Copy, Debug, PartialEq, Eq)]
pub struct NodeAt {
    pub level: u8,
    pub prefix: u32,
    pub frame: u32,
}

/// A page of a view's own text: its number, an address divided by 4,096, and its frame.
#[derive(Clone, Copy, Debug, PartialEq, Eq)]
pub struct TextAt {
    pub page: u32,
    pub frame: u32,
}

/// A view: the page table of one live generation.
#[derive(Drop)]
pub struct View {
    pub generation: u32,
    /// The generation from which it was cloned; that of the start was cloned from none.
    pub parent: Option<u32>,
    /// The frame of the node at level 2.
    pub root: u32,
    pub nodes: Roomy<NodeAt>,
    pub text: Vec<TextAt>,
    /// The jumps that patches have put into its text.
    pub jumps: Vec<Jump>,
    /// How many patches of the script it has.
    pub patches: u32,
    /// The numbers of pages that it has nodes for, divided by 512.
    pub reach: Numbers,
    /// The data pages that it has a leaf for.
    pub met: Numbers,
    /// The harts that are in it.
    pub residents: Numbers,
}

impl Model for View {
    ghost use Rattle.wf_views.specs.Views.{ViewValue};

    ghost Value = { ViewValue };

    ghost view = { λ v. record {
      generation = v.generation;
      parent = v.parent;
      root = v.root;
      nodes = v.nodes;
      text = v.text.items;
      jumps = v.jumps.items;
      patches = v.patches;
      reach = v.reach;
      met = v.met;
      residents = v.residents;
    } };
}
