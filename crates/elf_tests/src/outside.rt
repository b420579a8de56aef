//! What no clause of `wf_outside` says: that calls succeed where memory is ample, and the sizes.
use std::test::Fail;
use wf_outside::{
    ADDRESS_PAGES, DATA_END, DATA_END_PAGE, FsShelf, MOST_BIRTHS, MOST_WRITES, MemShelf, MemSink,
    PAGE_SIZE, PAGE_WORDS, Shelf, ShelfFault, Sink, SinkFault, Text,
};

#[test]
fn shelf_and_sink(rt: HostRuntime) -> Result<(), Fail> {
    let alloc = rt.alloc();
    let mut files = Vec::new(alloc);
    for (name, bytes) in [("a", "first"), ("b", "other"), ("a", "second")] {
        files.push((
            Text::of(alloc, name.as_bytes())?,
            bytes.as_bytes().to_vec(alloc)?,
        ))?;
    }
    let mut shelf = MemShelf::new(alloc, files, vec![in alloc; 1]?);
    assert_eq!(rt; shelf.read(b"a", 5)?.as_slice(), b"first".as_slice());
    assert_eq!(rt; shelf.read(b"a", 5).err(), Some(ShelfFault::Failed));
    assert_eq!(rt; shelf.read(b"c", 5).err(), Some(ShelfFault::Failed));
    assert_eq!(rt;
        shelf.read(b"b", 4).err(),
        Some(ShelfFault::TooLong { max: 4 })
    );
    let mut disk = FsShelf::new(&rt, alloc);
    assert_eq!(rt;
        disk.read(b"no such file", 5).err(),
        Some(ShelfFault::Failed)
    );
    assert_eq!(rt; disk.read(b"\xFF", 5).err(), Some(ShelfFault::Failed));

    let mut sink = MemSink::new(alloc, vec![in alloc; 1]?);
    assert_eq!(rt; sink.put(b"ab"), Ok(()));
    assert_eq!(rt; sink.put(b"cdefg"), Err(SinkFault::Failed));
    assert_eq!(rt; sink.put(b"h"), Ok(()));
    assert_eq!(rt; sink.got(), b"abcdh".as_slice());
    Ok(())
}

// The sizes that follow from one another.
#[test]
fn sizes(rt: HostRuntime) {
    assert_eq!(rt; PAGE_WORDS as u64 * 8, PAGE_SIZE);
    assert_eq!(rt; u64::from(DATA_END_PAGE) * PAGE_SIZE, DATA_END);
    assert_eq!(rt; u64::from(ADDRESS_PAGES) * PAGE_SIZE, 1 << 38);
    assert_eq!(rt; MOST_WRITES + 1, 1 << 39);
    assert_eq!(rt; MOST_BIRTHS + 1, 1 << 23);
}
