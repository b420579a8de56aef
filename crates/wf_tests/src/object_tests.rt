//! The records of a source's relocatable file, read back. Places and lengths are worked out by hand.
use elf_read::{Elf, Kind};
use elf_write::Form;
use std::alloc::Global;
use std::process::Abort;
use std::test::Fail;
use wf_outside::{MemShelf, Text};
use wf_source::fetch_file;

const SOURCE: &str = "        .globl go
go:     la a0, table
        call outside
        beq a0, a1, go
        .rodata
table:  .dword go+8
        .bss
        .zero 8
";

// What is read of the source's file.
fn read_back(rt: &impl Abort, alloc: Global) -> Result<Elf, Fail> {
    let mut files = Vec::new(alloc);
    files.push((Text::of(alloc, b"a")?, SOURCE.as_bytes().to_vec(alloc)?))?;
    let mut shelf = MemShelf::new(alloc, files, Vec::new(alloc));
    let file = fetch_file(alloc, &mut shelf, b"a", Form::Object).map_err(|_| "no file")?;
    assert!(rt; file.len() < 1 << 32);
    Ok(Elf::read(alloc, file, Kind::Rel)?)
}

#[test]
fn sections_of_an_object(rt: HostRuntime) -> Result<(), Fail> {
    let elf = read_back(&rt, rt.alloc())?;
    assert_eq!(rt; (elf.kind(), elf.entry()), (Kind::Rel, 0));
    assert!(rt; elf.segments().is_empty());
    // type, flags, place, size, link and info
    let wanted = [
        (0, 0, 0, 0, 0, 0),
        (1, 6, 64, 20, 0, 0),
        (1, 2, 88, 8, 0, 0),
        (1, 3, 96, 0, 0, 0),
        (8, 3, 96, 8, 0, 0),
        (4, 64, 96, 72, 7, 1),
        (4, 64, 168, 24, 7, 2),
        (2, 0, 192, 120, 8, 3),
        (3, 0, 312, 23, 0, 0),
        (3, 0, 336, 76, 0, 0),
    ];
    assert_eq!(rt; elf.sections().len(), wanted.len());
    for (s, wanted) in elf.sections().iter().zip(wanted) {
        let front = (s.sh_type, s.sh_flags, s.sh_offset, s.sh_size);
        let found = (front.0, front.1, front.2, front.3, s.sh_link, s.sh_info);
        assert_eq!(rt; found, wanted);
    }
    Ok(())
}

#[test]
fn symbols_of_an_object(rt: HostRuntime) -> Result<(), Fail> {
    let elf = read_back(&rt, rt.alloc())?;
    // name, binding and type, section and value
    let wanted = [
        (b"".as_slice(), 0, 0, 0),
        (b".Lp0".as_slice(), 0, 1, 0),
        (b"table".as_slice(), 0, 2, 0),
        (b"go".as_slice(), 0x10, 1, 0),
        (b"outside".as_slice(), 0x10, 0, 0),
    ];
    assert_eq!(rt; elf.symbols().len(), wanted.len());
    for (symbol, (name, info, home, value)) in elf.symbols().iter().zip(wanted) {
        assert_eq!(rt; elf.bytes(symbol.st_name), name);
        let found = (symbol.st_info, symbol.st_shndx, symbol.st_value);
        assert_eq!(rt; found, (info, home, value));
    }
    Ok(())
}

#[test]
fn entries_of_an_object(rt: HostRuntime) -> Result<(), Fail> {
    let elf = read_back(&rt, rt.alloc())?;
    // the section of entries, the one they change; and of each entry its place, symbol, type and
    // addend
    let wanted = [
        (
            (5, 1),
            [(0, 2, 23, 0), (4, 1, 24, 0), (8, 4, 19, 0)].as_slice(),
        ),
        ((6, 2), [(0, 3, 2, 8)].as_slice()),
    ];
    assert_eq!(rt; elf.relas().len(), wanted.len());
    for (group, (places, entries)) in elf.relas().iter().zip(wanted) {
        assert_eq!(rt; (group.section, group.target), places);
        assert_eq!(rt; group.relas.len(), entries.len());
        for (rela, (offset, symbol, kind, addend)) in group.relas.iter().zip(entries) {
            assert_eq!(rt; rela.r_offset, *offset);
            assert_eq!(rt;
                (rela.symbol(), rela.kind(), rela.r_addend),
                (*symbol, *kind, *addend)
            );
        }
    }
    Ok(())
}
