//! Which list decides of a name.
use crate::objects::image;
use elf_syms::{Found, Names};
use std::alloc::Global;
use std::test::Fail;
use wf_outside::{Memory, Name, Text};

fn name(alloc: Global, text: &str, addr: u64, size: u64) -> Result<Name, Memory> {
    Ok(Name {
        name: Text::of(alloc, text.as_bytes())?,
        addr,
        size,
        global: false,
    })
}

fn one(addr: u64, size: u64) -> Found {
    Found::One { addr, size }
}

#[test]
fn lists(rt: HostRuntime) -> Result<(), Fail> {
    let mut names = Names::new(rt.alloc(), &image(rt.alloc())?)?;
    let mut own = Vec::new(rt.alloc());
    assert_eq!(rt; names.find(&own, b"far"), one(0x5000_0000, 4));
    assert_eq!(rt; names.find(&own, b"both"), one(0x222, 4));
    assert_eq!(rt; names.find(&own, b"twin"), Found::Several);
    assert_eq!(rt; names.find(&own, b"fa"), Found::None);
    let mut first = Vec::new(rt.alloc());
    first.push(name(rt.alloc(), "far", 1, 10)?)?;
    first.push(name(rt.alloc(), "twin", 2, 20)?)?;
    first.push(name(rt.alloc(), "twin", 2, 21)?)?;
    names.add(first)?;
    assert_eq!(rt; names.find(&own, b"far"), one(1, 10));
    assert_eq!(rt; names.find(&own, b"twin"), one(2, 20));
    let mut second = Vec::new(rt.alloc());
    second.push(name(rt.alloc(), "far", 3, 30)?)?;
    second.push(name(rt.alloc(), "far", 4, 30)?)?;
    names.add(second)?;
    assert_eq!(rt; names.find(&own, b"far"), Found::Several);
    assert_eq!(rt; names.find(&own, b"twin"), one(2, 20));
    own.push(name(rt.alloc(), "far", 5, 50)?)?;
    assert_eq!(rt; names.find(&own, b"far"), one(5, 50));
    assert_eq!(rt; names.find(&own, b"both"), one(0x222, 4));
    Ok(())
}
