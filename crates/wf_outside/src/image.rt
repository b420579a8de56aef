//! Pages, images, patches' pages, and the sizes of a machine.
use crate::Text;
use std::marker::Model;

/// A page of text: its number, which is its address divided by 4,096, and its 512 words of 64 bits,
/// the lowest byte of a word first in memory.
#[derive(Drop)]
pub struct Page {
    pub number: u32,
    pub words: Vec<u64>,
}

impl Model for Page {
    ghost use Rattle.wf_outside.specs.Pages.{PageValue, IsPage};

    ghost Value = { PageValue };

    ghost view = { λ p. record { number = p.number; words = p.words.items } };

    ghost invariant = { λ p. IsPage p.number p.words.items };
}

/// A page of data, and whether it may be written.
#[derive(Drop)]
pub struct DataPage {
    pub number: u32,
    pub write: bool,
    pub words: Vec<u64>,
}

impl Model for DataPage {
    ghost use Rattle.wf_outside.specs.Pages.{DataPageValue, IsPage};

    ghost Value = { DataPageValue };

    ghost view = { λ p. record { number = p.number; write = p.write; words = p.words.items } };

    ghost invariant = { λ p. IsPage p.number p.words.items };
}

/// A jump that a patch puts over the first eight bytes of a function: where, and the bytes.
#[derive(Clone, Copy, Debug, PartialEq, Eq)]
pub struct Jump {
    pub at: u64,
    pub bytes: [u8; 8],
}

/// A name of an image or a patch, with its address and its size in bytes.
#[derive(Drop)]
pub struct Name {
    pub name: Text,
    pub addr: u64,
    pub size: u64,
    pub global: bool,
}

/// What is loaded: pages of text and of data, each number once and below `DATA_END_PAGE`, the
/// address of the first instruction, the names, and the first page after the highest.
#[derive(Drop)]
pub struct Image {
    pub text: Vec<Page>,
    pub pages: Vec<DataPage>,
    pub entry: u64,
    pub names: Vec<Name>,
    pub end: u32,
}

impl Model for Image {
    ghost use Rattle.wf_outside.specs.Images.{ImageValue, IsImage};

    ghost Value = { ImageValue };

    ghost view = { λ i. record {
      text = i.text.items;
      pages = i.pages.items;
      entry = i.entry;
      names = i.names.items;
      end = i.end;
    } };

    ghost invariant = { λ i. IsImage i.text.items i.pages.items i.entry };
}

/// What a patch brings: text of its own, data that all generations share, and jumps into the text
/// that it replaces.
#[derive(Drop)]
pub struct Delta {
    pub private: Vec<Page>,
    pub shared: Vec<DataPage>,
    pub jumps: Vec<Jump>,
}

impl Model for Delta {
    ghost use Rattle.wf_outside.specs.Images.{DeltaValue};

    ghost Value = { DeltaValue };

    ghost view = { λ d. record {
      private = d.private.items;
      shared = d.shared.items;
      jumps = d.jumps.items;
    } };
}

/// The sizes of a machine: its frames, from `LEAST_FRAMES` to `MOST_FRAMES`; the count of writes at
/// which a frame's count stays, from 1 to `MOST_WRITES`; and the incarnation at which a frame is
/// worn, from 1 to `MOST_BIRTHS`.
#[derive(Clone, Copy, Debug, PartialEq, Eq)]
pub struct Limits {
    pub frames: u32,
    pub last_writes: u64,
    pub last_birth: u64,
}

impl Model for Limits {
    ghost use Rattle.wf_outside.specs.Pages.{LimitsValue, AreLimits};

    ghost Value = { LimitsValue };

    ghost view = { λ l. record {
      frames = l.frames;
      last_writes = l.last_writes;
      last_birth = l.last_birth;
    } };

    ghost invariant = { λ l. AreLimits l.frames l.last_writes l.last_birth };

    ghost inverse = { λ l. record {
      frames = l.frames;
      last_writes = l.last_writes;
      last_birth = l.last_birth;
    } };
}
