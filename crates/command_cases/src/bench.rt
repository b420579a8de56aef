//! The files of a case, and what its last command put.
use crate::words::new_text;
use anyhow::{Result, bail};
use elf_builder::ElfBuilder;
use std::alloc::Global;
use wf_outside::{MemShelf, MemSink, Text};
use wf_status::Status;
use wf_top::top;

/// The files of a case, its image, the reads and puts of its next command that fail; and of its
/// last command the shelf and what was put.
#[derive(Drop)]
pub struct Bench {
    pub image: ElfBuilder,
    pub shelf: MemShelf,
    pub put: Vec<u8>,
    alloc: Global,
    files: Vec<(Text, Vec<u8>)>,
    reads: Vec<u64>,
    puts: Vec<u64>,
}

impl Bench {
    /// No files.
    pub fn new(alloc: Global) -> Bench {
        Bench {
            image: ElfBuilder::new(alloc),
            shelf: MemShelf::new(alloc, Vec::new(alloc), Vec::new(alloc)),
            put: Vec::new(alloc),
            alloc,
            files: Vec::new(alloc),
            reads: Vec::new(alloc),
            puts: Vec::new(alloc),
        }
    }

    /// The bytes of a file: none where it is not there.
    pub fn bytes(&self, name: &[u8]) -> &[u8] {
        for file in &self.files {
            if file.0.bytes() == name {
                return &file.1;
            }
        }
        &[]
    }

    /// Puts a file in place of that of its name.
    pub fn set(&mut self, name: &[u8], bytes: Vec<u8>) -> Result<()> {
        for file in &mut self.files {
            if file.0.bytes() == name {
                file.1 = bytes;
                return Ok(());
            }
        }
        let name = new_text(self.alloc, name)?;
        self.files.push((name, bytes))?;
        Ok(())
    }

    /// Puts more bytes behind those of a file.
    pub fn add(&mut self, name: &[u8], more: &[u8]) -> Result<()> {
        let mut bytes = self.bytes(name).to_vec(self.alloc)?;
        bytes.extend_from_slice(more)?;
        self.set(name, bytes)
    }

    /// The reads of the next command with these numbers fail.
    pub fn fail_reads(&mut self, numbers: Vec<u64>) -> Result<()> {
        self.reads = numbers;
        Ok(())
    }

    /// The puts of the next command with these numbers fail.
    pub fn fail_puts(&mut self, numbers: Vec<u64>) -> Result<()> {
        self.puts = numbers;
        Ok(())
    }

    // The files, once more.
    fn copied(&self) -> Result<Vec<(Text, Vec<u8>)>> {
        let mut files = Vec::new(self.alloc);
        for file in &self.files {
            let name = new_text(self.alloc, file.0.bytes())?;
            files.push((name, file.1.to_vec(self.alloc)?))?;
        }
        Ok(files)
    }

    /// What the command of these words answers.
    pub fn command(&mut self, words: &[Text]) -> Result<Status> {
        let reads = self.reads.to_vec(self.alloc)?;
        self.shelf = MemShelf::new(self.alloc, self.copied()?, reads);
        let mut sink = MemSink::new(self.alloc, self.puts.to_vec(self.alloc)?);
        let status = top(self.alloc, words, &mut self.shelf, &mut sink);
        self.put = sink.got().to_vec(self.alloc)?;
        self.reads = Vec::new(self.alloc);
        self.puts = Vec::new(self.alloc);
        Ok(status)
    }

    /// Keeps what was put as a file.
    pub fn keep(&mut self, name: &[u8]) -> Result<()> {
        let put = self.put.to_vec(self.alloc)?;
        self.set(name, put)
    }

    /// Builds the image, as a file, and begins another.
    pub fn build(&mut self, name: &[u8]) -> Result<()> {
        let Ok(bytes) = self.image.build() else {
            bail!("the image can't be built");
        };
        self.image = ElfBuilder::new(self.alloc);
        self.set(name, bytes)
    }
}
