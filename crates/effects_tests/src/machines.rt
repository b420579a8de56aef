//! Machines of one or two harts with no pages of data.
ghost use Rattle.std.specs.Prelude.{◌≡◌, ◌<◌, ◌^◌, [], ◌∷◌, IfOk, length};
ghost use Rattle.wf_outside.specs.Images.{text_numbers};
ghost use Rattle.wf_flat.specs.Accesses.{generation_text};

use rv_inst::Arch;
use std::alloc::Global;
use wf_flat::{Flat, FlatHart, Gen, Life};
use wf_outside::{DataPage, Limits, Memory, Page};

// The least sizes.
fn limits() -> Limits {
    Limits {
        frames: 64,
        last_writes: 1,
        last_birth: 1,
    }
}

// A hart of a generation, in a try or not.
fn hart(alloc: Global, generation: u32, fetched: Option<u32>) -> FlatHart {
    FlatHart {
        generation,
        arch: Arch {
            pc: 0x1_0000,
            x: [0; 32],
        },
        fetched,
        looked: None,
        put: false,
        moved: Vec::new(alloc),
        reservation: None,
        life: Life::Running,
    }
}

// A generation with no text.
fn bare(alloc: Global, number: u32, live: bool) -> Gen {
    Gen {
        number,
        parent: None,
        text: Vec::new(alloc),
        jumps: Vec::new(alloc),
        patches: 0,
        reach: Vec::new(alloc),
        live,
    }
}

/// Two harts in a try, in generation 0 of two, of which 1 is dead; 5 mappings were numbered.
pub fn two_harts(alloc: Global) -> Result<Flat, Memory>
    ensures pages { IfOk result (λ flat. flat.pages ≡ []) }
    ensures met { IfOk result (λ flat. flat.met ≡ []) }
    ensures births { IfOk result (λ flat. flat.births ≡ 5) }
    ensures gens { IfOk result (λ flat. length flat.gens ≡ 2) }
    ensures harts { IfOk result (λ flat. length flat.harts ≡ 2) }
    ensures worn { IfOk result (λ flat. flat.worn ≡ 0) }
{
    let mut gens = Vec::new(alloc);
    gens.push(bare(alloc, 0, true))?;
    gens.push(bare(alloc, 1, false))?;
    let mut harts = Vec::new(alloc);
    harts.push(hart(alloc, 0, Some(0x73)))?;
    harts.push(hart(alloc, 0, Some(0x73)))?;
    Ok(Flat {
        pages: Vec::new(alloc),
        gens,
        harts,
        met: Vec::new(alloc),
        inside: None,
        births: 5,
        worn: 0,
        limits: limits(),
    })
}

/// A page of text with all bits set.
pub fn page_of(alloc: Global, number: u32) -> Result<Page, Memory>
    requires { number < 2 ^ 26 }
    ensures { IfOk result (λ page. page.number ≡ number) }
{
    Ok(Page {
        number,
        words: vec![in alloc; u64::MAX; 512]?,
    })
}

// Pages 10 and 11 of text.
fn two_pages(alloc: Global) -> Result<Vec<Page>, Memory>
    ensures { IfOk result (λ text. text_numbers text.items ≡ 0x10 ∷ 0x11 ∷ []) }
{
    let mut text = Vec::new(alloc);
    text.push(page_of(alloc, 0x10)?)?;
    text.push(page_of(alloc, 0x11)?)?;
    Ok(text)
}

/// No hart, and generation 0 with pages 10 and 11 of text.
pub fn with_text(alloc: Global) -> Result<Flat, Memory>
    ensures one { IfOk result (λ flat. length flat.gens ≡ 1) }
    ensures text { IfOk result
        (λ flat. text_numbers (generation_text flat 0) ≡ 0x10 ∷ 0x11 ∷ []) }
{
    let mut version = bare(alloc, 0, true);
    version.text = two_pages(alloc)?;
    let mut gens = Vec::new(alloc);
    gens.push(version)?;
    Ok(Flat {
        pages: Vec::new(alloc),
        gens,
        harts: Vec::new(alloc),
        met: Vec::new(alloc),
        inside: None,
        births: 0,
        worn: 0,
        limits: limits(),
    })
}

/// A page of data that a patch brings, of zeros.
pub fn shared_page(alloc: Global, number: u16, write: bool) -> Result<DataPage, Memory> {
    Ok(DataPage {
        number: u32::from(number),
        write,
        words: vec![in alloc; 0; 512]?,
    })
}
