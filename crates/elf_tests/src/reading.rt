//! What stands in a good file, worked out by hand.
use elf_builder::{BuilderFault, ElfBuilder, WantedSegment, WantedSymbol};
use elf_read::{Elf, Kind, Section, Segment, Span, Symbol};
use std::alloc::Global;
use std::test::Fail;

// A file of 440 bytes with one segment of 8 bytes at 120, two symbols at 128, their names at 176 (a
// zero byte, `go` and a zero byte), and the headers of four sections at 184: null, text, the symbol
// table and the string table.
fn good(alloc: Global) -> Result<ElfBuilder, BuilderFault> {
    let mut builder = ElfBuilder::new(alloc);
    builder.header.e_entry = 0x10078;
    builder.segment(&WantedSegment {
        p_type: 1,
        p_flags: 5,
        p_vaddr: 0x10078,
        bytes: &[0; 8],
        p_memsz: 8,
        p_align: 4,
    })?;
    builder.symbol(&WantedSymbol {
        name: b"go",
        st_info: 0x12,
        st_shndx: 1,
        st_value: 0x10078,
        st_size: 8,
    })?;
    Ok(builder)
}

fn good_elf(alloc: Global) -> Result<Elf, Fail> {
    Ok(Elf::read(alloc, good(alloc)?.build()?, Kind::Exec)?)
}

#[test]
fn reads_segments(rt: HostRuntime) -> Result<(), Fail> {
    let elf = good_elf(rt.alloc())?;
    assert_eq!(rt; elf.entry(), 0x10078);
    let segments = [Segment {
        p_type: 1,
        p_flags: 5,
        p_offset: 120,
        p_vaddr: 0x10078,
        p_paddr: 0x10078,
        p_filesz: 8,
        p_memsz: 8,
        p_align: 4,
    }];
    assert!(rt; elf.segments() == segments.as_slice());
    assert_eq!(rt; elf.segment_place(0), 64);
    Ok(())
}

#[test]
fn reads_sections(rt: HostRuntime) -> Result<(), Fail> {
    let elf = good_elf(rt.alloc())?;
    assert_eq!(rt; elf.sections().len(), 4);
    let text = Section {
        sh_name: 0,
        sh_type: 1,
        sh_flags: 6,
        sh_addr: 0x10078,
        sh_offset: 120,
        sh_size: 8,
        sh_link: 0,
        sh_info: 0,
        sh_addralign: 4,
        sh_entsize: 0,
    };
    assert!(rt; elf.sections().get(1) == Some(&text));
    assert!(rt; elf.relas().is_empty());
    Ok(())
}

#[test]
fn reads_symbols(rt: HostRuntime) -> Result<(), Fail> {
    let elf = good_elf(rt.alloc())?;
    let none = Symbol {
        st_name: Span { at: 176, len: 0 },
        st_info: 0,
        st_other: 0,
        st_shndx: 0,
        st_value: 0,
        st_size: 0,
    };
    let go = Symbol {
        st_name: Span { at: 177, len: 2 },
        st_info: 0x12,
        st_other: 0,
        st_shndx: 1,
        st_value: 0x10078,
        st_size: 8,
    };
    assert!(rt; elf.symbols() == [none, go].as_slice());
    assert_eq!(rt; elf.bytes(elf.symbols()[1].st_name), b"go".as_slice());
    Ok(())
}
