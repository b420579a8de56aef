//! What an access finds: text, and pages of data.
ghost use Rattle.std.specs.Prelude.{◌≡◌, ◌<◌, ◌%◌, None, Some, IfOk, length};
ghost use Rattle.std.specs.Option.{option_map, option_map_or};
ghost use Rattle.wf_outside.specs.declared.sizes.TheConstants.{PAGE_SIZE};
ghost use Rattle.wf_outside.specs.Pages.{page_of};
ghost use Rattle.wf_flat.specs.Memory.{page_in, data_in, number_in};
ghost use Rattle.wf_flat.specs.Serving.{IsPlace};
ghost use Rattle.wf_flat.specs.Accesses.{generation_text};
ghost use Rattle.wf_flat.specs.Ordered.{IsOrdered};
ghost use Rattle.wf_flat.specs.Steps.{OfHart};
ghost use Rattle.wf_driver.specs.Stepping.{IsPlaceOf, IsPageToSync};

use wf_flat::Flat;
use wf_outside::{Memory, PAGE_SIZE};

/// What an access finds in the data.
#[derive(Clone, Copy, Debug, PartialEq, Eq)]
pub struct Found {
    /// The page.
    pub page: u32,
    /// Whether it may be written.
    pub write: bool,
    /// The number of its mapping.
    pub birth: u64,
    /// Its count of writes.
    pub writes: u64,
    /// Whether that is the last.
    pub last: bool,
    /// Whether the hart's generation has met it.
    pub met: bool,
}

// The generation of a hart.
pub fn generation_of(flat: &Flat, hart: u8) -> u32
    requires { hart < length flat.now.harts }
    ensures { OfHart flat.now hart (λ state. result ≡ state.generation) }
{
    let state = &flat.harts[hart as usize];
    state.generation
}

// The bytes at an address of a hart's own text, if they are text.
pub fn text_value(flat: &Flat, hart: u8, va: u64, width: u8) -> Option<u64>
    requires there { hart < length flat.now.harts }
    requires place { IsPlace va width }
    ensures { OfHart flat.now hart
        (λ state. result
        ≡ option_map (λ page. number_in page.words (va % PAGE_SIZE) width)
        (page_in (generation_text flat.now state.generation) (page_of va))) }
{
    let state = &flat.harts[hart as usize];
    flat.text_number(state.generation, va, width)
}

// What an access of a hart finds in the data.
pub fn found_at(flat: &Flat, hart: u8, va: u64) -> Option<Found>
    requires there { hart < length flat.now.harts }
    requires ordered { IsOrdered flat.now }
    ensures { IsPlaceOf flat.now hart va result }
{
    let page = flat.data_page(va / PAGE_SIZE)?;
    let generation = flat.harts[hart as usize].generation;
    Some(Found {
        page: page.number,
        write: page.write,
        birth: page.birth,
        writes: page.writes,
        last: page.writes >= flat.limits.last_writes,
        met: flat.has_met(generation, page.number),
    })
}

// The bytes at an address of a page of data; 0 where there is none.
pub fn data_value(flat: &Flat, va: u64, width: u8) -> u64
    requires place { IsPlace va width }
    requires ordered { IsOrdered flat.now }
    ensures { result
        ≡ option_map_or (λ page. number_in page.words (va % PAGE_SIZE) width)
        (data_in flat.now.pages (page_of va)) 0 }
{
    match flat.data_page(va / PAGE_SIZE) {
        Some(page) => page.number_at(va % PAGE_SIZE, width),
        None => 0,
    }
}

/// What the generations will have met where a hart's access is to a page that its own has not met;
/// `None` where there is no such page, or it has met it. It takes memory.
pub fn page_to_sync(flat: &Flat, hart: u8, va: u64) -> Result<Option<Vec<(u32, u32)>>, Memory>
    requires there { hart < length flat.now.harts }
    requires ordered { IsOrdered flat.now }
    ensures { IfOk result (λ met. IsPageToSync flat.now hart va (option_map (λ v. v.items) met)) }
{
    let Some(found) = found_at(flat, hart, va) else {
        return Ok(None);
    };
    if found.met {
        return Ok(None);
    }
    let generation = flat.harts[hart as usize].generation;
    Ok(Some(flat.met_with(generation, found.page)?))
}
