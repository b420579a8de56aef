//! The places that generations reach.
ghost use Rattle.std.specs.Prelude.{◌≡◌, ℕ, IfOk, List, length, map};
ghost use Rattle.wf_outside.specs.Lists.{IsRising};
ghost use Rattle.wf_flat.specs.State.{GenState};
ghost use Rattle.wf_effects.specs.Effects.{reaching, new_reach};

use std::alloc::Global;
use std::marker::Model;
use std::mem;
use wf_flat::{Gen, add_places};
use wf_outside::Memory;

// The places that a generation reaches, rising.
#[derive(Drop)]
pub struct Reach {
    places: Vec<u32>,
}

impl Model for Reach {
    ghost use Rattle.std.specs.Prelude.{ℕ, List};
    ghost use Rattle.wf_outside.specs.Lists.{IsRising};

    ghost Value = { List ℕ };

    ghost view = { λ r. r.places.items };

    ghost invariant = { λ r. IsRising r.places.items };
}

// What a generation reaches, with the places of these pages if it lives.
fn reach_with(version: &Gen, numbers: &[u32]) -> Result<Reach, Memory>
    ensures { IfOk result (λ reach. reach ≡ new_reach numbers.now version.now) }
{
    let mut places = version.reach.clone()?;
    if version.live {
        add_places(&mut places, numbers)?;
    }
    Ok(Reach { places })
}

// What all generations reach, with the places of these pages where they live.
pub fn reaches_with(alloc: Global, gens: &[Gen], numbers: &[u32]) -> Result<Vec<Reach>, Memory>
    ensures { IfOk result (λ reaches. reaches.items ≡ map (new_reach numbers.now) gens.now) }
{
    let mut reaches = Vec::new(alloc);
    for version in gens {
        reaches.push(reach_with(version, numbers)?)?;
    }
    Ok(reaches)
}

// The generation reaches these places.
fn set_reach(version: &mut Gen, reach: &mut Reach)
    ensures { version.new ≡ record version.old { reach = reach.old } }
{
    mem::swap(&mut version.reach, &mut reach.places);
}

// The generations reach these places, one by one.
pub fn set_reaches(gens: &mut [Gen], reaches: &mut [Reach])
    requires { length reaches.old ≡ length gens.old }
    ensures { (numbers : List ℕ) → reaches.old ≡ map (new_reach numbers) gens.old
        → gens.new ≡ map (reaching numbers) gens.old }
{
    for i in 0..gens.len() {
        let version = &mut gens[i];
        set_reach(version, &mut reaches[i]);
    }
}
