//! Where names end.
ghost use Rattle.std.specs.Prelude.{◌≡◌, ◌<◌, ◌^◌, ◌==◌, length, drop, IfOk};
ghost use Rattle.std.specs.List.{position_or_len};
ghost use Rattle.wf_outside.specs.Lists.{IsRising};
ghost use Rattle.elf_read.specs.Names.{zeros_from, IsFirstFrom};

use std::alloc::{AllocError, Global};

// The places of the zero bytes of a string table, in one pass.
pub fn zeros_of(alloc: Global, strings: &[u8]) -> Result<Vec<u32>, AllocError>
    requires { length strings.now < 2 ^ 32 }
    ensures { IfOk result (λ zeros. zeros.items ≡ zeros_from 0 strings.now) }
{
    let mut zeros = Vec::new(alloc);
    for (i, byte) in strings.iter().enumerate() {
        if *byte == 0 {
            zeros.push(i as u32)?;
        }
    }
    Ok(zeros)
}

// The number of the first place that is not below a place.
fn first_from(places: &[u32], at: u32) -> usize
    requires { IsRising places.now }
    ensures { IsFirstFrom places.now at result }
{
    match places.binary_search(&at) {
        Ok(i) => i,
        Err(i) => i,
    }
}

// How many bytes stand before the first zero byte from a place on, by the places of all zero bytes.
pub fn name_len(strings: &[u8], zeros: &[u32], at: u32) -> usize
    requires { zeros.now ≡ zeros_from 0 strings.now }
    ensures { result ≡ position_or_len (λ b. b == 0) (drop at strings.now) }
{
    match zeros.get(first_from(zeros, at)) {
        Some(zero) => (*zero - at) as usize,
        None => strings.len().saturating_sub(at as usize),
    }
}
