//! Builds ELF files of 64 bits for RISC-V, for tests: good ones, and ones that a change makes
//! crooked.
//!
//! System V ABI, "ELF Header", "Program Header", "Section Header", "Symbol Table" and "String
//! Table"; RISC-V ELF psABI, "File Header".
//!
//! A file is laid out in this order: its header; the program headers, from place 64 on; the bytes
//! of each segment, at the next place that leaves the same rest as its address when divided by its
//! alignment; and, where symbols or sections are asked for, the symbols from a multiple of 8 on,
//! their names, and the section headers from a multiple of 8 on.
//!
//! ```text
//! let mut builder = ElfBuilder::new(alloc);
//! builder.text(0x10000, &[0x0000_0073])?;
//! builder.data(0x12000, b"bytes", 4096)?;
//! builder.change(48, &[1])?; // the flag of compressed code
//! let bytes = builder.build()?;
//! ```
#![tactic(auto)]

mod builder;
mod fault;
mod numbers;
mod writing;

pub use builder::{ElfBuilder, WantedHeader, WantedSegment, WantedSymbol};
pub use fault::BuilderFault;
