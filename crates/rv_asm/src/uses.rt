//! The uses of names.
ghost use Rattle.std.specs.Prelude.{◌≡◌, ◌++◌, [], IfErr, OnOk, Some};
ghost use Rattle.std.specs.Option.{option_map};
ghost use Rattle.asm_lines.specs.Statements.{asked};
ghost use Rattle.rv_asm.specs.Uses.{kept, use_in, use_value, use_values};
ghost use Rattle.rv_asm.specs.declared.fault.AsmFault.TheVariants.{Memory};

use crate::AsmFault;
use crate::named::PlacedUse;
use asm_bytes::puts_nothing;
use asm_lines::{SectionId, Statement};
use elf_write::Form;
use std::alloc::Global;
use std::marker::Model;

/// Uses of names, in the order of their lines.
#[derive(Drop)]
pub struct Uses<'a> {
    entries: Vec<PlacedUse<'a>>,
}

impl<'a> Model for Uses<'a> {
    ghost use Rattle.std.specs.Prelude.{List};
    ghost use Rattle.rv_asm.specs.Uses.{UseValue, use_values};

    ghost Value = { List UseValue };

    ghost view = { λ u. use_values u.entries.items };
}

impl<'a> Uses<'a> {
    /// No uses.
    pub fn new(alloc: Global) -> Self
        ensures { result ≡ [] }
    {
        Uses {
            entries: Vec::new(alloc),
        }
    }

    /// Adds a use, if there is one and the form of the module is that of an object.
    pub fn keep(&mut self, form: Form, placed: Option<PlacedUse<'a>>) -> Result<(), AsmFault>
        ensures ok { OnOk result
            (self.new ≡ self.old ++ kept form (option_map use_value placed.entry)) }
        ensures err { IfErr result (λ fault. fault ≡ Memory) }
    {
        match form {
            Form::Exec => Ok(()),
            Form::Object => {
                if let Some(placed) = placed {
                    self.entries.push(placed)?;
                }
                Ok(())
            }
        }
    }

    /// The uses.
    pub fn entries(&self) -> &[PlacedUse<'a>]
        ensures { use_values result.now ≡ self.now }
    {
        &self.entries
    }
}

/// The use of a name that a statement makes at a place, with the name of the local label there.
pub fn use_in<'a>(
    section: SectionId,
    offset: u128,
    statement: &Statement<'a>,
    label: &'a [u8],
) -> Option<PlacedUse<'a>>
    ensures { option_map use_value result
        ≡ use_in section offset (asked statement.now) label.now }
{
    match statement {
        Statement::Named(what, _) if puts_nothing(*what) => None,
        Statement::Named(what, name) => Some(PlacedUse {
            section,
            offset,
            what: *what,
            name: *name,
            label,
        }),
        Statement::Empty
        | Statement::Section(_)
        | Statement::Align(_)
        | Statement::Zero(_)
        | Statement::Number { .. }
        | Statement::Hex(_)
        | Statement::Ascii(_)
        | Statement::Li { .. }
        | Statement::Plain(_) => None,
    }
}
