//! What the builder of files lays out, by their bytes.
use elf_builder::{BuilderFault, ElfBuilder, WantedSegment};
use elf_load::load;
use elf_read::{Elf, Kind};
use std::process::Abort;
use std::test::Fail;

// The eight bytes at a place, as they stand there.
fn has_bytes(rt: &impl Abort, bytes: &[u8], at: u16, wanted: u64) {
    let at = usize::from(at);
    assert_eq!(rt;
        bytes.get(at..at + 8),
        Some(wanted.to_be_bytes().as_slice()),
        "at {at}"
    );
}

// A plain image, eight bytes at a time: the header, one program header, and text from 4096 on.
#[test]
fn plain(rt: HostRuntime) -> Result<(), Fail> {
    let words = [0x0000_0893, 0x0070_0513, 0x0000_0073];
    let bytes = ElfBuilder::plain(rt.alloc(), &words)?.build()?;
    let wanted = [
        (0, 0x7F45_4C46_0201_0100),
        (8, 0),
        (16, 0x0200_F300_0100_0000),
        (24, 0x0000_0100_0000_0000),
        (32, 0x4000_0000_0000_0000),
        (40, 0),
        (48, 0x0000_0000_4000_3800),
        (56, 0x0100_0000_0000_0000),
        (64, 0x0100_0000_0500_0000),
        (72, 0x0010_0000_0000_0000),
        (80, 0x0000_0100_0000_0000),
        (88, 0x0000_0100_0000_0000),
        (96, 0x0C00_0000_0000_0000),
        (104, 0x0C00_0000_0000_0000),
        (112, 0x0010_0000_0000_0000),
        (4088, 0),
        (4096, 0x9308_0000_1305_7000),
    ];
    assert_eq!(rt; bytes.len(), 4108);
    for (at, number) in wanted {
        has_bytes(&rt, &bytes, at, number);
    }
    assert_eq!(rt; bytes.get(4104..), Some([0x73, 0, 0, 0].as_slice()));
    Ok(())
}

// Text, data of two pages and a page that may only be read: each at a place like its address.
#[test]
fn several_segments(rt: HostRuntime) -> Result<(), Fail> {
    let mut builder = ElfBuilder::new(rt.alloc());
    builder.text(0x1_0000, &[0x73])?;
    builder.data(0x1_2008, b"data", 0x1000)?;
    builder.read_only(0x1_5000, b"constants")?;
    let elf = Elf::read(rt.alloc(), builder.build()?, Kind::Exec)?;
    let places = [0x1000, 0x1008, 0x2000];
    for (segment, place) in elf.segments().iter().zip(places) {
        assert_eq!(rt; segment.p_offset, place);
    }
    let image = load(rt.alloc(), &elf)?;
    assert_eq!(rt; image.text.len(), 1);
    let pages = [(0x12, true), (0x13, true), (0x15, false)];
    assert_eq!(rt; image.pages.len(), 3);
    for (page, (number, write)) in image.pages.iter().zip(pages) {
        assert_eq!(rt; (page.number, page.write), (number, write));
    }
    Ok(())
}

// A change that reaches past the end, and a place that no file reaches, are told.
#[test]
fn faults(rt: HostRuntime) -> Result<(), Fail> {
    let mut builder = ElfBuilder::plain(rt.alloc(), &[0x73])?;
    builder.change(4092, &[1; 8])?;
    let size = builder.build()?.len();
    assert_eq!(rt; size, 4100);
    builder.change(4093, &[1; 8])?;
    let past = BuilderFault::PastEnd { at: 4093 };
    assert_eq!(rt; builder.build().err(), Some(past));
    let mut far = ElfBuilder::new(rt.alloc());
    far.segment(&WantedSegment {
        p_type: 1,
        p_flags: 4,
        p_vaddr: 1 << 39,
        bytes: b"",
        p_memsz: 1,
        p_align: 1 << 40,
    })?;
    assert_eq!(rt; far.build().err(), Some(BuilderFault::TooLong));
    Ok(())
}
