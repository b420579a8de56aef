//! Generations that live no more, and harts that move between generations.
ghost use Rattle.std.specs.Prelude.{◌≡◌, ◌<◌, length, slice_get};
ghost use Rattle.std.specs.Option.{option_map};
ghost use Rattle.wf_flat.specs.Lists.{changed_at};
ghost use Rattle.wf_flat.specs.Ordered.{IsOrdered};
ghost use Rattle.wf_effects.specs.Effects as effects;

use wf_flat::{Flat, FlatHart, Gen};

// The generation, where it is there, lives no more.
fn end_generation(gens: &mut [Gen], generation: u32)
    ensures { gens.new ≡ changed_at gens.old generation effects.dead }
{
    if (generation as usize) < gens.len() {
        let version = &mut gens[generation as usize];
        version.live = false;
    }
}

// The generation has met nothing any more.
fn forget_generation(met: &mut Vec<(u32, u32)>, generation: u32)
    ensures { met.new.items ≡ effects.met_but_generation met.old.items generation }
{
    met.retain(|pair| pair.0 != generation);
}

// The generation lives no more, and has met nothing any more.
fn drop_generation(flat: &mut Flat, generation: u32)
    ensures { flat.new ≡ effects.generation_dead flat.old generation }
{
    end_generation(&mut flat.gens, generation);
    forget_generation(&mut flat.met, generation);
}

/// The change of a Dead: the generation, where it is there, lives no more, and has met nothing any
/// more. It takes one pass over what was met.
pub fn generation_dead(flat: &mut Flat, generation: u32)
    requires { IsOrdered flat.old }
    ensures state { flat.new ≡ effects.generation_dead flat.old generation }
    ensures ordered { IsOrdered flat.new }
{
    drop_generation(flat, generation);
}

// A hart is in another generation, whose number is the answer of its call.
fn move_to(hart: &mut FlatHart, generation: u32)
    ensures { hart.new ≡ effects.moved_to generation hart.old }
{
    hart.generation = generation;
    hart.looked = Some(generation as u64);
}

/// The change of a Move by this hart.
#[tactic(auto, using(wf_flat::proofs::HartLemmas::hart_changes))]
pub fn hart_moved(flat: &mut Flat, hart: u8, generation: u32)
    requires { hart < length flat.old.harts }
    ensures state { flat.new ≡ effects.hart_moved flat.old hart generation }
    ensures hart { slice_get flat.new.harts hart
        ≡ option_map (effects.moved_to generation) (slice_get flat.old.harts hart) }
{
    let state = &mut flat.harts[hart as usize];
    move_to(state, generation);
}
