//! What the programs take from outside and give to it: files, output and statuses, and the plain
//! types that every layer names.
#![tactic(auto)]

mod image;
mod memory;
mod refusal;
mod rules;
mod shelf;
mod sink;
mod sizes;
mod text;

pub use image::{DataPage, Delta, Image, Jump, Limits, Name, Page};
pub use memory::Memory;
pub use refusal::Refusal;
pub use rules::{ElfRule, LoadRule};
pub use shelf::{FsShelf, MemShelf, Shelf, ShelfFault};
pub use sink::{MemSink, Sink, SinkFault, StdSink};
pub use sizes::{
    ADDRESS_PAGES, DATA_END, DATA_END_PAGE, LEAST_FRAMES, MOST_BIRTHS, MOST_FRAMES,
    MOST_IMAGE_PAGES, MOST_WRITES, PAGE_SIZE, PAGE_WORDS,
};
pub use text::Text;
