//! Objects that are written and read back: places and lengths are worked out by hand.
ghost use Rattle.std.specs.Prelude.{◌<◌, ◌^◌, IfOk, vec_len};

use crate::writing::{symbol, text_only};
use elf_laws::{files_are_apart, modules_are_read_back};
use elf_read::{Elf, Kind, Rela};
use elf_write::{Form, ModRela, ModSymbol, Module, write};
use std::alloc::Global;
use std::process::Abort;
use std::test::Fail;
use wf_outside::Memory;

// How many bytes the object has.
const SIZE: u64 = 1008;

fn rela(section: u8, offset: u64, kind: u32, symbol: u32, addend: i64) -> ModRela {
    ModRela {
        section,
        offset,
        kind,
        symbol,
        addend,
    }
}

// A symbol of another file.
fn outside(alloc: Global) -> Result<ModSymbol, Memory> {
    Ok(ModSymbol {
        value: 0,
        size: 0,
        ..symbol(alloc, b"outside", 0, true)?
    })
}

// An object with bytes in each section, three symbols, two relocations in .text and one in .data.
fn object(alloc: Global) -> Result<Module, Memory> {
    let mut module = text_only(alloc, b"instructions".to_vec(alloc)?);
    module.form = Form::Object;
    module.entry = 0;
    module.rodata = b"abc".to_vec(alloc)?;
    module.rwdata = b"bytes".to_vec(alloc)?;
    module.bss = 7;
    module.symbols.push(symbol(alloc, b"here", 1, false)?)?;
    module.symbols.push(symbol(alloc, b"table", 2, true)?)?;
    module.symbols.push(outside(alloc)?)?;
    module.relas.push(rela(1, 4, 19, 2, 0))?;
    module.relas.push(rela(1, 8, 23, 0, -8))?;
    module.relas.push(rela(3, 0, 1, 1, i64::MAX))?;
    Ok(module)
}

// The file of an object, which has so many bytes.
fn file_of(rt: &impl Abort, alloc: Global, module: &Module, size: u64) -> Result<Vec<u8>, Fail>
    requires { size < 2 ^ 32 }
    ensures { IfOk result (λ bytes. vec_len bytes < 2 ^ 32) }
{
    assert!(rt; module.is_writable());
    let bytes = write(alloc, module)?;
    assert_eq!(rt; (module.length(), bytes.len() as u64), (size, size));
    Ok(bytes)
}

// What is read of the file of the object.
fn read_back(rt: &impl Abort, alloc: Global) -> Result<Elf, Fail> {
    let bytes = file_of(rt, alloc, &object(alloc)?, SIZE)?;
    modules_are_read_back();
    Ok(Elf::read(alloc, bytes, Kind::Rel)?)
}

#[test]
fn empty_object(rt: HostRuntime) -> Result<(), Fail> {
    let mut module = text_only(rt.alloc(), Vec::new(rt.alloc()));
    module.form = Form::Object;
    module.entry = 0;
    let bytes = file_of(&rt, rt.alloc(), &module, 664)?;
    let elf = Elf::read(rt.alloc(), bytes, Kind::Rel)?;
    assert_eq!(rt; (elf.kind(), elf.entry()), (Kind::Rel, 0));
    assert_eq!(rt; (elf.sections().len(), elf.symbols().len()), (8, 1));
    assert!(rt; elf.segments().is_empty() && elf.relas().is_empty());
    Ok(())
}

#[test]
fn object_sections(rt: HostRuntime) -> Result<(), Fail> {
    let elf = read_back(&rt, rt.alloc())?;
    assert!(rt; elf.segments().is_empty());
    // type, flags, place, size, link and info
    let wanted = [
        (0, 0, 0, 0, 0, 0),
        (1, 6, 64, 12, 0, 0),
        (1, 2, 80, 3, 0, 0),
        (1, 3, 88, 5, 0, 0),
        (8, 3, 93, 7, 0, 0),
        (4, 64, 96, 48, 7, 1),
        (4, 64, 144, 24, 7, 3),
        (2, 0, 168, 96, 8, 2),
        (3, 0, 264, 20, 0, 0),
        (3, 0, 288, 74, 0, 0),
    ];
    assert_eq!(rt; elf.sections().len(), 10);
    for (s, wanted) in elf.sections().iter().zip(wanted) {
        let front = (s.sh_type, s.sh_flags, s.sh_offset, s.sh_size);
        let found = (front.0, front.1, front.2, front.3, s.sh_link, s.sh_info);
        assert_eq!(rt; found, wanted);
        assert_eq!(rt; s.sh_addr, 0);
    }
    Ok(())
}

#[test]
fn object_symbols(rt: HostRuntime) -> Result<(), Fail> {
    let elf = read_back(&rt, rt.alloc())?;
    let wanted = [
        (b"".as_slice(), 0, 0),
        (b"here".as_slice(), 0, 1),
        (b"table".as_slice(), 0x10, 2),
        (b"outside".as_slice(), 0x10, 0),
    ];
    assert_eq!(rt; elf.symbols().len(), 4);
    for (symbol, (name, info, home)) in elf.symbols().iter().zip(wanted) {
        assert_eq!(rt; elf.bytes(symbol.st_name), name);
        assert_eq!(rt; (symbol.st_info, symbol.st_shndx), (info, home));
    }
    Ok(())
}

#[test]
fn object_relocations(rt: HostRuntime) -> Result<(), Fail> {
    let elf = read_back(&rt, rt.alloc())?;
    let text = [
        Rela {
            r_offset: 4,
            r_info: 0x3_0000_0013,
            r_addend: 0,
        },
        Rela {
            r_offset: 8,
            r_info: 0x1_0000_0017,
            r_addend: -8,
        },
    ];
    let data = [Rela {
        r_offset: 0,
        r_info: 0x2_0000_0001,
        r_addend: i64::MAX,
    }];
    let groups = elf.relas();
    assert_eq!(rt; groups.len(), 2);
    let first = &groups[0];
    assert_eq!(rt; (first.section, first.target), (5, 1));
    assert!(rt; first.relas.as_slice() == text.as_slice());
    let second = &groups[1];
    assert_eq!(rt; (second.section, second.target), (6, 3));
    assert!(rt; second.relas.as_slice() == data.as_slice());
    assert_eq!(rt; (text[1].symbol(), text[1].kind()), (1, 23));
    Ok(())
}

#[test]
fn forms_are_apart(rt: HostRuntime) -> Result<(), Fail> {
    let mut module = text_only(rt.alloc(), b"code".to_vec(rt.alloc())?);
    module.entry = 0;
    assert!(rt; module.is_writable());
    let executable = write(rt.alloc(), &module)?;
    module.form = Form::Object;
    assert!(rt; module.is_writable());
    let object = write(rt.alloc(), &module)?;
    assert!(rt; executable != object);
    files_are_apart();
    Ok(())
}

#[test]
fn writable_objects(rt: HostRuntime) -> Result<(), Fail> {
    let mut module = object(rt.alloc())?;
    assert!(rt; module.is_writable());
    module.entry = 4;
    assert!(rt; !module.is_writable());
    module.entry = 0;
    // a relocation whose symbol is not there, and one behind those of a later section
    for last in [
        rela(3, 0, 1, 3, 0),
        rela(2, 0, 1, 0, 0),
        rela(4, 0, 1, 0, 0),
    ] {
        module.relas.push(last)?;
        assert!(rt; !module.is_writable(), "{last:?}");
        module.relas.pop();
    }
    assert!(rt; module.is_writable());
    // a global symbol behind one of another file
    module.symbols.push(symbol(rt.alloc(), b"late", 1, true)?)?;
    assert!(rt; !module.is_writable());
    module.symbols.pop();
    // one of another file with a value, and a local one
    let valued = symbol(rt.alloc(), b"value", 0, true)?;
    module.symbols.push(valued)?;
    assert!(rt; !module.is_writable());
    module.symbols.pop();
    module.symbols.push(ModSymbol {
        global: false,
        ..outside(rt.alloc())?
    })?;
    assert!(rt; !module.is_writable());
    Ok(())
}
