//! Which uses of names are done with here, and which are left to a linker.
ghost use Rattle.std.specs.Prelude.{◌≡◌};
ghost use Rattle.asm_lines.specs.Statements.{asked};
ghost use Rattle.rv_asm.specs.Labels.{section_number};
ghost use Rattle.rv_asm.specs.SecondPass.{has_addend, is_jump, is_settled, unlinked};

use asm_bytes::puts_nothing;
use asm_lines::{SectionId, Statement, Use};
use elf_write::Form;

/// The number of a section in the file.
pub fn section_number(section: SectionId) -> u8
    ensures { result ≡ section_number section }
{
    match section {
        SectionId::Text => 1,
        SectionId::Rodata => 2,
        SectionId::Data => 3,
        SectionId::Bss => 4,
    }
}

// Whether a name is that of a branch or a jump.
fn is_jump(what: Use) -> bool
    ensures { result ≡ is_jump what }
{
    match what {
        Use::Branch { .. } | Use::Jal { .. } => true,
        Use::Globl | Use::Size | Use::Address { .. } | Use::Call | Use::La { .. } => false,
    }
}

/// Whether a use of a name in a section is done with here, where its label, if there is one, stands
/// in the section of this number: all are in an executable file; in an object those that put
/// nothing, and branches and jumps within their section.
pub fn is_settled(form: Form, section: SectionId, what: Use, home: Option<u8>) -> bool
    ensures { result ≡ is_settled form section what home }
{
    match form {
        Form::Exec => true,
        Form::Object => {
            puts_nothing(what)
                || (is_jump(what) && home.is_some_and(|h| h == section_number(section)))
        }
    }
}

/// Whether an addend has room in a relocation.
pub fn has_addend(what: Use) -> bool
    ensures { result ≡ has_addend what }
{
    match what {
        Use::Address { addend, .. } => i64::try_from(addend).is_ok(),
        Use::Globl
        | Use::Size
        | Use::Branch { .. }
        | Use::Jal { .. }
        | Use::Call
        | Use::La { .. } => true,
    }
}

/// What is put for a use that is left to a linker: an address has zeros, and a distance is 0.
pub fn unlinked(what: Use, name: &[u8]) -> Statement<'_>
    ensures { asked result ≡ unlinked what name.now }
{
    match what {
        Use::Address { width, .. } => Statement::Number { width, value: 0 },
        Use::Globl
        | Use::Size
        | Use::Branch { .. }
        | Use::Jal { .. }
        | Use::Call
        | Use::La { .. } => Statement::Named(what, name),
    }
}
