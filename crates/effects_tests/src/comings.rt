//! Pages that come and go.
use crate::machines::two_harts;
use std::alloc::Global;
use std::test::Fail;
use wf_effects::{
    PageRun, first_absent, first_leaving, first_overlap, page_ending, page_gone, pages_going,
    pages_mapped,
};
use wf_flat::{Flat, Stage};
use wf_outside::Memory;

// The number, the stage, the right and the mapping of each page of data.
fn shown(alloc: Global, flat: &Flat) -> Result<Vec<(u32, Stage, bool, u64)>, Memory> {
    let mut shown = Vec::new(alloc);
    for page in &flat.pages {
        shown.push((page.number, page.stage, page.write, page.birth))?;
    }
    Ok(shown)
}

// Each generation with each place that it reaches.
fn reaches(alloc: Global, flat: &Flat) -> Result<Vec<(u32, u32)>, Memory> {
    let mut reaches = Vec::new(alloc);
    for version in &flat.gens {
        for place in &version.reach {
            reaches.push((version.number, *place))?;
        }
    }
    Ok(reaches)
}

#[test]
fn two_pages_come_and_go(rt: HostRuntime) -> Result<(), Fail> {
    let alloc = rt.alloc();
    let mut flat = two_harts(alloc)?;
    let run = PageRun {
        first: 0x21F,
        count: 2,
        write: true,
    };
    assert_eq!(rt; first_absent(&flat, &[0x21F]), Some(0x21F));
    pages_mapped(alloc, &mut flat, &[], run, None)?;
    let here = [(0x21F, Stage::Here, true, 5), (0x220, Stage::Here, true, 6)];
    assert_eq!(rt; shown(alloc, &flat)?.as_slice(), here.as_slice());
    assert_eq!(rt; flat.births, 7);
    assert_eq!(rt; reaches(alloc, &flat)?.as_slice(), [(0, 1)].as_slice());
    assert_eq!(rt; first_overlap(&flat, &[0x21E, 0x220, 0x21F]), Some(0x220));
    assert_eq!(rt; first_absent(&flat, &[0x220, 0x221]), Some(0x221));
    pages_going(&mut flat, 0x220, 1);
    page_ending(&mut flat, 0x220);
    assert_eq!(rt; first_leaving(&flat, &[0x21F, 0x220]), Some(0x220));
    assert_eq!(rt; first_overlap(&flat, &[0x220]), None);
    page_gone(&mut flat, 0x220, true);
    assert_eq!(rt; shown(alloc, &flat)?.as_slice(), [here[0]].as_slice());
    assert_eq!(rt; flat.worn, 1);
    Ok(())
}
