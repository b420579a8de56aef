//! Which generations there are, and which harts are in them.
ghost use Rattle.std.specs.Prelude.{◌≡◌, ◌≤◌, ◌^◌, ◌&&◌, ◌==◌, length, IfSome};
ghost use Rattle.wf_effects.specs.Generations as generations;

use wf_flat::{Flat, FlatHart, Gen, Life};

/// Whether a generation of this number lives.
pub fn is_live(flat: &Flat, generation: u64) -> bool
    ensures { result ≡ generations.is_live flat.now generation }
{
    match flat.gens.get(generation as usize) {
        Some(version) => version.live,
        None => false,
    }
}

// The greatest number of a generation that lives.
fn newest_live(gens: &[Gen]) -> Option<u32>
    ensures { result ≡ generations.newest_live gens.now None }
{
    let mut newest = None;
    for version in gens {
        if version.live {
            newest = Some(version.number);
        }
    }
    newest
}

/// The newest generation: of those that live the one with the greatest number, and where none lives
/// the last one born. It takes one pass over the generations.
pub fn newest(flat: &Flat) -> u32
    requires few { length flat.now.gens ≤ 2 ^ 32 }
    ensures { result ≡ generations.newest flat.now }
{
    match newest_live(&flat.gens) {
        Some(newest) => newest,
        None => flat.gens.len().saturating_sub(1) as u32,
    }
}

// Whether a hart runs.
fn is_running(life: Life) -> bool
    ensures { result ≡ generations.is_running life }
{
    match life {
        Life::Running => true,
        Life::Exited { .. } => false,
        Life::Trapped { .. } => false,
    }
}

// Whether a hart runs in the generation.
fn runs_in(hart: &FlatHart, generation: u32) -> bool
    ensures { result
        ≡ (generations.is_running hart.now.life && (hart.now.generation == generation)) }
{
    is_running(hart.life) && hart.generation == generation
}

/// The lowest running hart that is in a generation. It takes one pass over the harts.
pub fn lowest_in(flat: &Flat, generation: u32) -> Option<usize>
    ensures { result ≡ generations.lowest_in flat.now generation }
{
    flat.harts.iter().position(|hart| runs_in(hart, generation))
}
