//! Jumps, and which of them an address meets.
ghost use Rattle.std.specs.Prelude.{◌≡◌, ◌<◌, ◌+◌, ◌^◌, ◌∷◌, ◌++◌, [], ◌&&◌, ◌||◌, ℕ, Bool, nat_le, nat_lt, not, ◌==◌, IfOk, OnOk, OnErr};
ghost use Rattle.std.specs.List.{list_any};
ghost use Rattle.patch_build.specs.Jumps.{overlap, HasSame, addresses_of};

use crate::constants::JUMP_SIZE;
use std::alloc::Global;
use std::collections::BTreeSet;
use std::marker::Model;
use wf_outside::{Jump, Memory};

// One of the addresses lies from one on and below another.
fn has_between(addresses: &BTreeSet<u64>, from: u64, to: u64) -> bool
    ensures { result ≡ list_any (λ a. nat_le from a && nat_lt a to) addresses.now.keys }
{
    from < to && addresses.range(from..to).next().is_some()
}

// One more address.
fn note(addresses: &mut BTreeSet<u64>, at: u64) -> Result<(), Memory>
    ensures ok { OnOk result ((test : ℕ → Bool)
        → list_any test addresses.new.keys ≡ (list_any test addresses.old.keys || test at)) }
    ensures memory { OnErr result (addresses.new.keys ≡ addresses.old.keys) }
{
    addresses.insert(at)?;
    Ok(())
}

/// These addresses, to be searched.
pub fn noted(alloc: Global, addresses: &[u64]) -> Result<BTreeSet<u64>, Memory>
    ensures { IfOk result (λ noted. HasSame noted.keys addresses.now) }
{
    let mut noted = BTreeSet::new(alloc);
    for at in addresses {
        note(&mut noted, *at)?;
    }
    Ok(noted)
}

/// One of the addresses, other than this one, is that of a jump that meets the one here.
pub fn meets_other(addresses: &BTreeSet<u64>, at: u64) -> bool
    requires { at + JUMP_SIZE < 2 ^ 64 }
    ensures { result ≡ list_any (λ other. overlap at other && not (other == at)) addresses.now.keys }
{
    has_between(addresses, at.saturating_sub(JUMP_SIZE - 1), at)
        || has_between(addresses, at + 1, at + JUMP_SIZE)
}

/// The jumps of a patch, in the order of its lines.
#[derive(Drop)]
pub struct Jumps {
    jumps: Vec<Jump>,
    addresses: BTreeSet<u64>,
}

impl Model for Jumps {
    ghost use Rattle.std.specs.Prelude.{List};
    ghost use Rattle.wf_outside.specs.declared.image.Jump.{Jump};
    ghost use Rattle.patch_build.specs.Jumps.{HasSame, addresses_of};

    ghost Value = { List Jump };

    ghost view = { λ j. j.jumps.items };

    ghost invariant = { λ j. HasSame j.addresses.keys (addresses_of j.jumps.items) };
}

impl Jumps {
    /// None.
    pub fn new(alloc: Global) -> Jumps
        ensures { result ≡ [] }
    {
        Jumps {
            jumps: Vec::new(alloc),
            addresses: BTreeSet::new(alloc),
        }
    }

    /// A jump at this address meets one of these.
    pub fn meet(&self, at: u64) -> bool
        requires { at + JUMP_SIZE < 2 ^ 64 }
        ensures { result ≡ list_any (λ jump. overlap at jump.at) self.now }
    {
        has_between(
            &self.addresses,
            at.saturating_sub(JUMP_SIZE - 1),
            at + JUMP_SIZE,
        )
    }

    /// One more jump.
    pub fn push(&mut self, jump: Jump) -> Result<(), Memory>
        ensures { OnOk result (self.new ≡ self.old ++ jump ∷ []) }
    {
        self.jumps.reserve(1)?;
        note(&mut self.addresses, jump.at)?;
        self.jumps.push_reserved(jump);
        Ok(())
    }

    /// The jumps alone.
    pub fn into_vec(self) -> Vec<Jump>
        ensures { result.items ≡ self }
    {
        self.jumps
    }
}
