//! The labels of a source, which are found by their names.
ghost use Rattle.std.specs.Prelude.{◌≡◌, ◌<◌, ◌++◌, ◌∷◌, [], IfSome, IfErr, OnOk, None, length, map};
ghost use Rattle.rv_asm.specs.Labels.{place_named};
ghost use Rattle.rv_asm.specs.Places.{label_value, label_values};
ghost use Rattle.rv_asm.specs.declared.fault.AsmFault.TheVariants.{Memory};

use crate::AsmFault;
use crate::named::Label;
use std::alloc::Global;
use std::collections::BTreeMap;
use std::marker::Model;

/// The labels in the order of their lines. A label is found in a time that is logarithmic in their
/// number.
#[derive(Drop)]
pub struct Labels<'a> {
    entries: Vec<Label<'a>>,
    places: BTreeMap<&'a [u8], usize>,
}

impl<'a> Model for Labels<'a> {
    ghost use Rattle.std.specs.Prelude.{List, map};
    ghost use Rattle.rv_asm.specs.Labels.{LabelValue};

    ghost Value = { List LabelValue };

    ghost use Rattle.rv_asm.specs.Places.{IsIndex, label_values};

    ghost view = { λ l. label_values l.entries.items };

    ghost invariant = { λ l. IsIndex l.places (label_values l.entries.items) };
}

impl<'a> Labels<'a> {
    /// No labels.
    pub fn new(alloc: Global) -> Self
        ensures { result ≡ [] }
    {
        Labels {
            entries: Vec::new(alloc),
            places: BTreeMap::new(alloc),
        }
    }

    /// The place of the label of a name, from 0.
    pub fn place(&self, name: &[u8]) -> Option<usize>
        ensures value { result ≡ place_named name.now self.now }
        ensures bound { IfSome result (λ place. place < length self.now) }
    {
        self.places.get(name).copied()
    }

    /// Adds a label whose name none has.
    pub fn add(&mut self, label: Label<'a>) -> Result<(), AsmFault>
        requires { place_named label.name.now self.old ≡ None }
        ensures ok { OnOk result (self.new ≡ self.old ++ label_value label.entry ∷ []) }
        ensures err { IfErr result (λ fault. fault ≡ Memory) }
    {
        self.entries.reserve(1)?;
        self.places.insert(label.name, self.entries.len())?;
        self.entries.push(label)?;
        Ok(())
    }

    /// The labels.
    pub fn entries(&self) -> &[Label<'a>]
        ensures { label_values result.now ≡ self.now }
    {
        &self.entries
    }
}
