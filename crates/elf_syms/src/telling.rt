//! What a list tells of its names, kept by name.
ghost use Rattle.std.specs.Prelude.{◌≡◌, ℕ, List, IsSome, OnOk, IfOk, if◌then◌else◌};
ghost use Rattle.std.specs.Str.{bytes_eq};
ghost use Rattle.elf_syms.specs.Among.{among};
ghost use Rattle.elf_syms.specs.Names.{with_list};
ghost use Rattle.elf_syms.specs.Maps.{entry_at, found_at, AreThere};
ghost use Rattle.elf_syms.specs.Telling.{told_of};

use crate::Found;
use crate::among::Among;
use std::alloc::Global;
use std::collections::BTreeMap;
use wf_outside::{Memory, Name};

// What a list tells of a name, in one pass over the list.
pub fn told_of(list: &[Name], name: &[u8]) -> Found
    ensures { result ≡ told_of list.now name.now }
{
    let mut told = Found::None;
    for entry in list {
        if name == entry.name.bytes() {
            told = told.joined(entry);
        }
    }
    told
}

// What stands at a name.
pub fn found_at(entries: &BTreeMap<Vec<u8>, Found>, name: &[u8]) -> Found
    ensures { result ≡ found_at entries.now name.now }
{
    entries.get(name).copied().unwrap_or(Found::None)
}

// The name becomes a key. What is found stays.
pub fn reserve(
    alloc: Global,
    entries: &mut BTreeMap<Vec<u8>, Found>,
    name: &[u8],
) -> Result<(), Memory>
    ensures there { OnOk result (IsSome (entry_at entries.new name.now)) }
    ensures stay { (other : List ℕ) → IsSome (entry_at entries.old other)
        → IsSome (entry_at entries.new other) }
    ensures same { (other : List ℕ) → found_at entries.new other ≡ found_at entries.old other }
{
    if !entries.contains_key(name) {
        entries.insert(name.to_vec(alloc)?, Found::None)?;
    }
    Ok(())
}

// What is found of a key is changed.
pub fn write(entries: &mut BTreeMap<Vec<u8>, Found>, name: &[u8], told: Found)
    requires { IsSome (entry_at entries.old name.now) }
    ensures stay { (other : List ℕ) → IsSome (entry_at entries.old other)
        → IsSome (entry_at entries.new other) }
    ensures found { (other : List ℕ) → found_at entries.new other
        ≡ (if bytes_eq name.now other then told else found_at entries.old other) }
{
    if let Some(entry) = entries.get_mut(name) {
        *entry = told;
    }
}

// What the names of a list that count tell.
pub fn told(alloc: Global, names: &[Name], which: Among) -> Result<BTreeMap<Vec<u8>, Found>, Memory>
    ensures { IfOk result (λ told. (name : List ℕ) → found_at told name
        ≡ told_of (among which names.now) name) }
{
    let mut told = BTreeMap::new(alloc);
    for entry in names {
        if which.has(entry) {
            let name = entry.name.bytes();
            reserve(alloc, &mut told, name)?;
            let joined = found_at(&told, name).joined(entry);
            write(&mut told, name, joined);
        }
    }
    Ok(told)
}

// The names of a list that count become keys. What is found stays.
pub fn reserve_all(
    alloc: Global,
    entries: &mut BTreeMap<Vec<u8>, Found>,
    names: &[Name],
    which: Among,
) -> Result<(), Memory>
    ensures there { OnOk result (AreThere entries.new (among which names.now)) }
    ensures same { (other : List ℕ) → found_at entries.new other ≡ found_at entries.old other }
{
    for entry in names {
        if which.has(entry) {
            reserve(alloc, entries, entry.name.bytes())?;
        }
    }
    Ok(())
}

// What a list tells of its names that count decides before what is found.
pub fn write_all(
    entries: &mut BTreeMap<Vec<u8>, Found>,
    names: &[Name],
    which: Among,
    told: &BTreeMap<Vec<u8>, Found>,
)
    requires there { AreThere entries.old (among which names.now) }
    requires told { (name : List ℕ) → found_at told.now name
        ≡ told_of (among which names.now) name }
    ensures { (other : List ℕ) → found_at entries.new other
        ≡ with_list (among which names.now) (found_at entries.old) other }
{
    for entry in names {
        if which.has(entry) {
            let name = entry.name.bytes();
            write(entries, name, found_at(told, name));
        }
    }
}
