//! Sets of numbers, by rising number.
ghost use Rattle.std.specs.Prelude.{◌≡◌, ◌<◌, ◌≤◌, [], true, false, OnOk, OnErr, IsOk, MatchResult, length};
ghost use Rattle.std.specs.List.{insert, remove};
ghost use Rattle.wf_outside.specs.Lists.{IsRising};
ghost use Rattle.wf_views.specs.Lists.{MayAdd, has_number, inserted_by, itself, number_added, number_removed, roomier, without_by};

use crate::Roomy;
use std::alloc::Global;
use std::marker::Model;
use wf_outside::Memory;

/// Numbers by rising number, each once, with room for more.
#[derive(Drop)]
pub struct Numbers {
    numbers: Roomy<u32>,
}

impl Model for Numbers {
    ghost use Rattle.std.specs.Prelude.{ℕ};
    ghost use Rattle.std.specs.Coded.{coded_ℕ};
    ghost use Rattle.wf_outside.specs.Lists.{IsRising};
    ghost use Rattle.wf_views.specs.Lists.{RoomyValue, roomy_code};

    ghost Value = { RoomyValue ℕ };

    ghost coded = { roomy_code coded_ℕ };

    ghost view = { λ n. n.numbers };

    ghost invariant = { λ n. IsRising n.numbers.items };
}

impl Numbers {
    /// No numbers, and no room.
    pub fn new(alloc: Global) -> Numbers
        ensures items { result.items ≡ [] }
        ensures room { result.room ≡ 0 }
    {
        Numbers {
            numbers: Roomy::new(alloc),
        }
    }

    /// The numbers, rising.
    pub fn as_slice(&self) -> &[u32]
        ensures value { result.now ≡ self.now.items }
        ensures rising { IsRising self.now.items }
    {
        let numbers = &self.numbers;
        numbers.as_slice()
    }

    /// Whether a number is there. It takes time in the logarithm of the numbers.
    pub fn contains(&self, number: u32) -> bool
        ensures { result ≡ has_number self.now.items number }
    {
        place_of(self.as_slice(), number).is_ok()
    }

    /// How many numbers come without memory.
    pub fn room(&self) -> u64
        ensures { result ≡ self.now.room }
    {
        self.numbers.room()
    }

    /// Makes room for so many numbers, unless there is more already. Where it fails nothing
    /// changes.
    pub fn reserve(&mut self, room: u64) -> Result<(), Memory>
        ensures ok { OnOk result (self.new ≡ roomier room self.old) }
        ensures err { OnErr result (self.new ≡ self.old) }
        ensures succeeds { room ≤ self.old.room → IsOk result }
    {
        self.numbers.reserve(room)
    }

    /// A number comes to the others, where it isn't there yet. It takes one pass over them.
    pub fn add(&mut self, number: u32)
        requires { MayAdd number self.old }
        ensures { self.new ≡ number_added number self.old }
    {
        if let Err(at) = place_of(self.as_slice(), number) {
            self.numbers.insert(at, number);
        }
    }

    /// A number comes to the others, where it isn't there yet; room for it is made where there is
    /// none. Where it fails nothing changes.
    pub fn put(&mut self, number: u32) -> Result<(), Memory>
        ensures ok { OnOk result (self.new ≡ number_added number self.old) }
        ensures err { OnErr result (self.new ≡ self.old) }
        ensures succeeds { MayAdd number self.old → IsOk result }
    {
        if self.contains(number) {
            return Ok(());
        }
        self.reserve(1)?;
        self.add(number);
        Ok(())
    }

    /// A number is taken out, where it is there. It takes one pass over the others.
    pub fn remove(&mut self, number: u32)
        ensures { self.new ≡ number_removed number self.old }
    {
        if let Ok(at) = place_of(self.as_slice(), number) {
            let _number = self.numbers.remove(at);
        }
    }
}

// The place of a number among rising ones, or else the place where it would stand.
fn place_of(numbers: &[u32], number: u32) -> Result<usize, usize>
    requires { IsRising numbers.now }
    ensures there { MatchResult result (λ at. has_number numbers.now number ≡ true)
        (λ at. has_number numbers.now number ≡ false) }
    ensures place { MatchResult result
        (λ at. (at < length numbers.now)
        × (without_by itself numbers.now number ≡ remove numbers.now at))
        (λ at. (at ≤ length numbers.now) × (without_by itself numbers.now number ≡ numbers.now)
        × (inserted_by itself number numbers.now ≡ insert numbers.now at number)) }
    ensures rising { MatchResult result (λ at. IsRising (remove numbers.now at))
        (λ at. IsRising (insert numbers.now at number)) }
{
    numbers.binary_search(&number)
}
