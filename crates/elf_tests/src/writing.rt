//! Modules that are written to files and read back: places and lengths are worked out by hand.
use elf_laws::modules_are_read_back;
use elf_read::{Elf, Kind, Segment};
use elf_write::{Form, ModRela, ModSymbol, Module, write};
use std::alloc::Global;
use std::process::Abort;
use std::test::Fail;
use wf_outside::{Memory, Text};

pub fn symbol(alloc: Global, name: &[u8], section: u8, global: bool) -> Result<ModSymbol, Memory> {
    Ok(ModSymbol {
        name: Text::of(alloc, name)?,
        section,
        value: 0x1_0000 + u64::from(section),
        size: 4,
        global,
    })
}

// A module of text alone.
pub fn text_only(alloc: Global, text: Vec<u8>) -> Module {
    Module {
        form: Form::Exec,
        entry: 0x1_0000,
        text,
        rodata: Vec::new(alloc),
        rwdata: Vec::new(alloc),
        bss: 0,
        symbols: Vec::new(alloc),
        relas: Vec::new(alloc),
    }
}

// A module with bytes in each section, and with a symbol in each, two of which are local.
fn full(alloc: Global) -> Result<Module, Memory> {
    let mut module = text_only(alloc, b"instructions".to_vec(alloc)?);
    module.entry = 0x1_0008;
    module.rodata = b"abc".to_vec(alloc)?;
    module.rwdata = b"bytes".to_vec(alloc)?;
    module.bss = 7;
    module.symbols.push(symbol(alloc, b"here", 1, false)?)?;
    module.symbols.push(symbol(alloc, b"", 4, false)?)?;
    module.symbols.push(symbol(alloc, b"\xFF", 3, true)?)?;
    module.symbols.push(symbol(alloc, b"table", 2, true)?)?;
    Ok(module)
}

// What is read of the file of a module, which has so many bytes.
fn read_back(rt: &impl Abort, alloc: Global, module: &Module, size: u64) -> Result<Elf, Fail> {
    assert!(rt; module.is_writable());
    let bytes = write(alloc, module)?;
    assert_eq!(rt; (module.length(), bytes.len() as u64), (size, size));
    modules_are_read_back();
    Ok(Elf::read(alloc, bytes, Kind::Exec)?)
}

// A segment with these rights and this place, whose bytes stand at an address: so many in the file,
// and so many in memory.
fn segment(rights: u32, place: u64, address: u64, stored: u64, memory: u64) -> Segment {
    Segment {
        p_type: 1,
        p_flags: rights,
        p_offset: place,
        p_vaddr: address,
        p_paddr: address,
        p_filesz: stored,
        p_memsz: memory,
        p_align: 4096,
    }
}

#[test]
fn empty(rt: HostRuntime) -> Result<(), Fail> {
    let module = text_only(rt.alloc(), Vec::new(rt.alloc()));
    let elf = read_back(&rt, rt.alloc(), &module, 664)?;
    assert_eq!(rt; elf.entry(), 0x1_0000);
    assert!(rt; elf.segments().is_empty());
    assert_eq!(rt; (elf.sections().len(), elf.symbols().len()), (8, 1));
    Ok(())
}

#[test]
fn memory_alone(rt: HostRuntime) -> Result<(), Fail> {
    let mut module = text_only(rt.alloc(), Vec::new(rt.alloc()));
    module.bss = 1 << 32;
    let elf = read_back(&rt, rt.alloc(), &module, 720)?;
    let wanted = [segment(6, 0, 0x1_0000, 0, 1 << 32)];
    assert!(rt; elf.segments() == wanted.as_slice());
    Ok(())
}

#[test]
fn long_text(rt: HostRuntime) -> Result<(), Fail> {
    let module = text_only(rt.alloc(), vec![in rt.alloc(); 0x13; 70_000]?);
    let elf = read_back(&rt, rt.alloc(), &module, 74_696)?;
    let wanted = [segment(5, 4096, 0x1_0000, 70_000, 70_000)];
    assert!(rt; elf.segments() == wanted.as_slice());
    Ok(())
}

#[test]
fn all_sections(rt: HostRuntime) -> Result<(), Fail> {
    let elf = read_back(&rt, rt.alloc(), &full(rt.alloc())?, 13_000)?;
    assert_eq!(rt; elf.entry(), 0x1_0008);
    let wanted = [
        segment(5, 4096, 0x1_0000, 12, 12),
        segment(4, 8192, 0x1_1000, 3, 3),
        segment(6, 12_288, 0x1_2000, 5, 15),
    ];
    assert!(rt; elf.segments() == wanted.as_slice());
    let places = [
        (0, 0, 0),
        (0x1_0000, 4096, 12),
        (0x1_1000, 8192, 3),
        (0x1_2000, 12_288, 5),
        (0x1_2008, 12_293, 7),
        (0, 12_296, 120),
        (0, 12_416, 15),
        (0, 12_432, 52),
    ];
    assert_eq!(rt; elf.sections().len(), 8);
    for (section, place) in elf.sections().iter().zip(places) {
        let found = (section.sh_addr, section.sh_offset, section.sh_size);
        assert_eq!(rt; found, place);
    }
    Ok(())
}

#[test]
fn all_symbols(rt: HostRuntime) -> Result<(), Fail> {
    let elf = read_back(&rt, rt.alloc(), &full(rt.alloc())?, 13_000)?;
    let wanted = [
        (b"".as_slice(), 0, 0, 0),
        (b"here".as_slice(), 0, 1, 0x1_0001),
        (b"".as_slice(), 0, 4, 0x1_0004),
        (b"\xFF".as_slice(), 0x10, 3, 0x1_0003),
        (b"table".as_slice(), 0x10, 2, 0x1_0002),
    ];
    assert_eq!(rt; elf.symbols().len(), 5);
    for (symbol, (name, info, home, value)) in elf.symbols().iter().zip(wanted) {
        assert_eq!(rt; elf.bytes(symbol.st_name), name);
        let found = (symbol.st_info, symbol.st_shndx, symbol.st_value);
        assert_eq!(rt; found, (info, home, value));
    }
    Ok(())
}

// A full module with one more symbol is writable, or isn't.
fn with_symbol(alloc: Global, name: &[u8], section: u8, global: bool) -> Result<bool, Memory> {
    let mut module = full(alloc)?;
    module.symbols.push(symbol(alloc, name, section, global)?)?;
    Ok(module.is_writable())
}

#[test]
fn writable_symbols(rt: HostRuntime) -> Result<(), Fail> {
    let cases = [
        (b"last".as_slice(), 4, true, true),
        (b"table".as_slice(), 1, true, true),
        (b"local".as_slice(), 1, false, false),
        (b"none".as_slice(), 0, true, false),
        (b"beyond".as_slice(), 5, true, false),
        (b"in\0side".as_slice(), 1, true, false),
        (b"\0".as_slice(), 1, true, false),
    ];
    for (name, section, global, wanted) in cases {
        let found = with_symbol(rt.alloc(), name, section, global)?;
        assert_eq!(rt; found, wanted, "{name:?} {section}");
    }
    Ok(())
}

#[test]
fn writable_parts(rt: HostRuntime) -> Result<(), Fail> {
    let mut module = full(rt.alloc())?;
    for (bss, wanted) in [(0, true), (1 << 32, true), ((1 << 32) + 1, false)] {
        module.bss = bss;
        assert_eq!(rt; module.is_writable(), wanted, "{bss}");
    }
    module.bss = 0;
    module.relas.push(ModRela {
        section: 1,
        offset: 0,
        kind: 1,
        symbol: 0,
        addend: 0,
    })?;
    assert!(rt; !module.is_writable());
    Ok(())
}

// A full module whose last symbol is one of another file.
#[test]
fn undefined_in_an_executable(rt: HostRuntime) -> Result<(), Fail> {
    let mut module = full(rt.alloc())?;
    module.symbols.push(ModSymbol {
        value: 0,
        size: 0,
        ..symbol(rt.alloc(), b"outside", 0, true)?
    })?;
    assert!(rt; !module.is_writable());
    Ok(())
}
