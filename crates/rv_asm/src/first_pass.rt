//! The first pass: the labels, and how long the sections become.
ghost use Rattle.std.specs.Prelude.{◌≡◌, OnOk, IfOk};
ghost use Rattle.std.specs.Option.{option_copied};
ghost use Rattle.asm_lines.specs.Statements.{asked};
ghost use Rattle.wf_text.specs.Lines.{lines_of};
ghost use Rattle.rv_asm.specs.Answers.{Answers, Becomes};
ghost use Rattle.rv_asm.specs.FirstPass.{section_after, start, surveyed, surveyed_line, labels_with, used};
ghost use Rattle.rv_asm.specs.Kept.{AreCounted};

use crate::labels::Labels;
use crate::named::Label;
use crate::names::own_label;
use crate::sizes::SectionSizes;
use crate::uses::{Uses, use_in};
use crate::{AsmFault, AsmRule};
use asm_bytes::size_of;
use asm_lines::{SectionId, Statement, read_line};
use elf_write::Form;
use std::alloc::Global;
use wf_outside::Text;
use wf_text::split_line;

/// What the first pass knows: the section of the next statement, how long each section is so far,
/// the labels, how many of them are those of `la`, and, of an object, the uses of names.
#[derive(Drop)]
pub struct Survey<'a> {
    pub section: SectionId,
    pub sizes: SectionSizes,
    pub labels: Labels<'a>,
    pub taken: usize,
    pub uses: Uses<'a>,
}

// Nothing is known yet.
fn start<'a>(alloc: Global) -> Survey<'a>
    ensures { result ≡ start }
{
    Survey {
        section: SectionId::Text,
        sizes: SectionSizes {
            text: 0,
            rodata: 0,
            rwdata: 0,
            bss: 0,
        },
        labels: Labels::new(alloc),
        taken: 0,
        uses: Uses::new(alloc),
    }
}

// The section of the next statement.
fn section_after(section: SectionId, statement: &Statement<'_>) -> SectionId
    ensures { result ≡ section_after section (asked statement.now) }
{
    match statement {
        Statement::Section(next) => *next,
        Statement::Empty
        | Statement::Align(_)
        | Statement::Zero(_)
        | Statement::Number { .. }
        | Statement::Hex(_)
        | Statement::Ascii(_)
        | Statement::Li { .. }
        | Statement::Plain(_)
        | Statement::Named(_, _) => section,
    }
}

impl<'a> Survey<'a> {
    // Adds the label of a line.
    #[tactic(auto, unfolding(crate::specs::FirstPass::labels_with))]
    fn add_label(&mut self, number: u64, label: Option<&'a [u8]>) -> Result<(), AsmFault>
        requires { AreCounted self.old.sizes }
        ensures labels { Becomes result self.new.labels
            (labels_with number (option_copied label.entry) self.old) }
        ensures section { self.new.section ≡ self.old.section }
        ensures sizes { self.new.sizes ≡ self.old.sizes }
        ensures taken { self.new.taken ≡ self.old.taken }
        ensures uses { self.new.uses ≡ self.old.uses }
    {
        let Some(name) = label else {
            return Ok(());
        };
        if self.labels.place(name).is_some() {
            return Err(AsmFault::At {
                line: number,
                rule: AsmRule::Twice,
            });
        }
        self.labels.add(Label {
            name,
            section: self.section,
            offset: self.sizes.size_in(self.section),
        })
    }

    // Adds the use of a name that a statement makes and, of `la`, the next local label.
    #[tactic(auto, unfolding(crate::specs::FirstPass::used))]
    fn add_use(
        &mut self,
        form: Form,
        names: &'a [Text],
        number: u64,
        statement: &Statement<'a>,
    ) -> Result<(), AsmFault>
        requires { AreCounted self.old.sizes }
        ensures value { Becomes result self.new
            (used form names.now number (asked statement.now) self.old) }
        ensures section { self.new.section ≡ self.old.section }
        ensures sizes { self.new.sizes ≡ self.old.sizes }
    {
        let own = own_label(names, self.taken, statement);
        self.add_label(number, own)?;
        let offset = self.sizes.size_in(self.section);
        let placed = use_in(self.section, offset, statement, own.unwrap_or(&[]));
        self.uses.keep(form, placed)?;
        if own.is_some() {
            self.taken += 1;
        }
        Ok(())
    }

    // Reads a line.
    #[tactic(auto, unfolding(crate::specs::FirstPass::surveyed_line))]
    fn read(
        &mut self,
        form: Form,
        names: &'a [Text],
        number: u64,
        text: &'a [u8],
    ) -> Result<(), AsmFault>
        requires { AreCounted self.old.sizes }
        ensures value { Becomes result self.new
            (surveyed_line form names.now number text.now self.old) }
        ensures counted { OnOk result (AreCounted self.new.sizes) }
    {
        let syntax = AsmFault::At {
            line: number,
            rule: AsmRule::Syntax,
        };
        let line = read_line(text).ok_or(syntax)?;
        let offset = self.sizes.size_in(self.section);
        let size = size_of(self.section, offset, &line.statement).ok_or(syntax)?;
        self.add_label(number, line.label)?;
        self.add_use(form, names, number, &line.statement)?;
        self.sizes = self.sizes.grown(self.section, size);
        self.section = section_after(self.section, &line.statement);
        Ok(())
    }
}

/// Reads all lines of a source: the labels and the sizes, or the first line that is none of the
/// language or defines a label again. The names are for the local labels of `la` in an object. The
/// time is in proportion to n log n for n bytes.
#[tactic(auto, using(crate::proofs::FirstLemmas::surveyed_steps))]
pub fn surveyed<'a>(
    alloc: Global,
    form: Form,
    names: &'a [Text],
    source: &'a [u8],
) -> Result<Survey<'a>, AsmFault>
    ensures value { Answers (λ s. s) result
        (surveyed form names.now 1 (lines_of source.now) start) }
    ensures counted { IfOk result (λ s. AreCounted s.sizes) }
{
    let mut survey = start(alloc);
    let mut rest = source;
    let mut number = 1;
    while !rest.is_empty() {
        let (text, behind) = split_line(rest);
        survey.read(form, names, number, text)?;
        number += 1;
        rest = behind;
    }
    Ok(survey)
}
