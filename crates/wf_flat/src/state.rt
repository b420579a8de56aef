//! The state of the flat machine.
use crate::Actor;
use rv_inst::Arch;
use std::marker::Model;
use wf_outside::{Jump, Limits, Page};

/// How far an unmap of a data page has come.
#[derive(Clone, Copy, Debug, PartialEq, Eq)]
pub enum Stage {
    /// It is mapped.
    Here,
    /// An unmap call runs; every hart may still access it.
    Going,
    /// Its holder alone may finish the try that it is in.
    Ending,
}

/// Whether a hart runs.
#[derive(Clone, Copy, Debug, PartialEq, Eq)]
pub enum Life {
    /// It runs.
    Running,
    /// It stopped at its exit, with this code.
    Exited { code: u64 },
    /// It stopped at a trap, with its cause and value.
    Trapped { cause: u8, value: u64 },
}

/// A page of data: its number, its right, its stage, the hart that holds it, its 512 words, how
/// often it was written since it was mapped, and the number of that mapping.
#[derive(Drop)]
pub struct FlatPage {
    pub number: u32,
    pub write: bool,
    pub stage: Stage,
    pub holder: Option<u8>,
    pub words: Vec<u64>,
    pub writes: u64,
    pub birth: u64,
}

impl Model for FlatPage {
    ghost use Rattle.wf_outside.specs.Pages.{IsPage};
    ghost use Rattle.wf_flat.specs.State.{PageState};

    ghost Value = { PageState };

    ghost view = { λ p.
        record {
          number = p.number;
          write = p.write;
          stage = p.stage;
          holder = p.holder;
          words = p.words.items;
          writes = p.writes;
          birth = p.birth;
        } };

    ghost invariant = { λ p. IsPage p.number p.words.items };
}

/// A generation of the text: its pages by rising number, the jumps that patches put into it, how
/// many of the script's patches it has, and the places of 512 pages in which its pages lie, rising.
#[derive(Drop)]
pub struct Gen {
    pub number: u32,
    pub parent: Option<u32>,
    pub text: Vec<Page>,
    pub jumps: Vec<Jump>,
    pub patches: u32,
    pub reach: Vec<u32>,
    pub live: bool,
}

impl Model for Gen {
    ghost use Rattle.wf_flat.specs.Ordered.{IsGen};
    ghost use Rattle.wf_flat.specs.State.{GenState};

    ghost Value = { GenState };

    ghost view = { λ g.
        record {
          number = g.number;
          parent = g.parent;
          text = g.text.items;
          jumps = g.jumps.items;
          patches = g.patches;
          reach = g.reach.items;
          live = g.live;
        } };

    ghost invariant = { λ g. IsGen g.text.items g.reach.items };
}

/// What a load-reserved left: its address and width, and the mapping and the count of writes of its
/// page.
#[derive(Clone, Copy, Debug, PartialEq, Eq)]
pub struct Reservation {
    pub va: u64,
    pub width: u8,
    pub birth: u64,
    pub writes: u64,
}

/// A hart: its generation and registers; in a try the word that it fetched, the answer of its
/// access or call, whether its write was made, and the pages that moved since the fetch; its
/// reservation.
#[derive(Drop)]
pub struct FlatHart {
    pub generation: u32,
    pub arch: Arch,
    pub fetched: Option<u32>,
    pub looked: Option<u64>,
    pub put: bool,
    pub moved: Vec<u32>,
    pub reservation: Option<Reservation>,
    pub life: Life,
}

impl Model for FlatHart {
    ghost use Rattle.wf_flat.specs.State.{HartState};

    ghost Value = { HartState };

    ghost view = { λ h.
        record {
          generation = h.generation;
          arch = h.arch;
          fetched = h.fetched;
          looked = h.looked;
          put = h.put;
          moved = h.moved.items;
          reservation = h.reservation;
          life = h.life;
        } };
}

/// The whole machine. Data pages stand by rising number, and a generation at the place of its
/// number. `met` says which generation has met which page, `inside` who is inside the kernel,
/// `births` how many mappings were numbered, and `worn` how many frames are used no more.
#[derive(Drop)]
pub struct Flat {
    pub pages: Vec<FlatPage>,
    pub gens: Vec<Gen>,
    pub harts: Vec<FlatHart>,
    pub met: Vec<(u32, u32)>,
    pub inside: Option<Actor>,
    pub births: u64,
    pub worn: u64,
    pub limits: Limits,
}

impl Model for Flat {
    ghost use Rattle.wf_flat.specs.State.{FlatState};

    ghost Value = { FlatState };

    ghost view = { λ f.
        record {
          pages = f.pages.items;
          gens = f.gens.items;
          harts = f.harts.items;
          met = f.met.items;
          inside = f.inside;
          births = f.births;
          worn = f.worn;
          limits = f.limits;
        } };
}
