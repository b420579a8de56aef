//! The second pass: what each section has, and the symbols.
ghost use Rattle.std.specs.Prelude.{◌≡◌, ◌<◌, ◌≤◌, ◌^◌, ◌-◌, false, OnErr, IfOk, IfErr, Some, None, length, map};
ghost use Rattle.asm_bytes.specs.Bytes.{appended, bytes_of};
ghost use Rattle.asm_bytes.specs.Sizes.{puts_nothing};
ghost use Rattle.asm_lines.specs.Statements.{asked, Named};
ghost use Rattle.asm_lines.specs.declared.statement.Use.TheVariants as use_;
ghost use Rattle.wf_text.specs.Lines.{lines_of};
ghost use Rattle.rv_asm.specs.declared.fault.AsmFault.TheVariants.{At, Memory};
ghost use Rattle.rv_asm.specs.declared.fault.AsmRule.TheVariants.{Range, Unknown};
ghost use Rattle.rv_asm.specs.Answers.{Answers, Becomes, or_at};
ghost use Rattle.rv_asm.specs.Drafts.{symbol_value, symbol_values};
ghost use Rattle.rv_asm.specs.Kept.{AreCounted};
ghost use Rattle.rv_asm.specs.Labels.{symbol_place};
ghost use Rattle.rv_asm.specs.Places.{label_value, label_values};
ghost use Rattle.rv_asm.specs.SecondPass.{blank, done, drafted, drafted_line, here, home_of, left, offset_in, put, stands_before, symbol_of};

use crate::first_pass::Survey;
use crate::labels::Labels;
use crate::named::{Label, Symbol};
use crate::settling::{has_addend, is_settled, section_number, unlinked};
use crate::sizes::SectionSizes;
use crate::uses::Uses;
use crate::{AsmFault, AsmRule};
use asm_bytes::{PutFault, put, size_of};
use asm_lines::{SectionId, Statement, Use, read_line};
use elf_write::Form;
use std::alloc::Global;
use std::marker::Model;
use wf_text::split_line;

// The most bytes of a section.
const MAX_SIZE: u128 = 1 << 32;

// Whether a symbol stands in a section, at or before a place.
fn stands_before(symbol: &Symbol<'_>, section: SectionId, here: u128) -> bool
    ensures { result ≡ stands_before section here (symbol_value symbol.now) }
{
    section_number(symbol.section) == section_number(section) && symbol.address <= here
}

/// A module that is being made: its form; its labels and uses of names; how long its sections
/// become; the section of the next statement; what each section has so far, of `.bss` the number of
/// bytes; and its symbols, in the order of the labels.
#[derive(Drop)]
pub struct Draft<'a> {
    pub form: Form,
    pub text: Vec<u8>,
    pub rodata: Vec<u8>,
    pub rwdata: Vec<u8>,
    pub bss: u64,
    pub symbols: Vec<Symbol<'a>>,
    pub labels: Labels<'a>,
    pub uses: Uses<'a>,
    sizes: SectionSizes,
    section: SectionId,
}

impl<'a> Model for Draft<'a> {
    ghost use Rattle.rv_asm.specs.SecondPass.{DraftValue};

    ghost Value = { DraftValue };

    ghost use Rattle.rv_asm.specs.Drafts.{IsDraft, symbol_values};

    ghost view = { λ d. record {
      form = d.form;
      sizes = d.sizes;
      section = d.section;
      text = d.text.items;
      rodata = d.rodata.items;
      rwdata = d.rwdata.items;
      bss = d.bss;
      symbols = symbol_values d.symbols.items;
      labels = d.labels;
      uses = d.uses;
    } };

    ghost invariant = { λ d. IsDraft d.sizes d.labels (symbol_values d.symbols.items) };
}

impl<'a> Draft<'a> {
    // How many bytes the current section has so far.
    fn offset(&self) -> u64
        ensures { result ≡ offset_in self.now self.now.section }
    {
        match self.section {
            SectionId::Text => self.text.len() as u64,
            SectionId::Rodata => self.rodata.len() as u64,
            SectionId::Data => self.rwdata.len() as u64,
            SectionId::Bss => self.bss,
        }
    }

    // The address of the next statement.
    #[tactic(auto, unfolding(crate::specs::SecondPass::here))]
    fn here(&self) -> u128
        ensures value { result ≡ here self.now }
        ensures low { result < 2 ^ 104 }
    {
        self.sizes.base_of(self.form, self.section) + u128::from(self.offset())
    }

    // The place of the symbol of a name.
    fn place(&self, number: u64, name: &[u8]) -> Result<usize, AsmFault>
        ensures found { IfOk result (λ place. symbol_place name.now self.now.symbols ≡ Some place) }
        ensures within { IfOk result (λ place. place < length self.now.symbols) }
        ensures none { IfErr result (λ fault. fault ≡ At number Unknown) }
        ensures unknown { OnErr result (symbol_place name.now self.now.symbols ≡ None) }
    {
        self.labels.place(name).ok_or(AsmFault::At {
            line: number,
            rule: AsmRule::Unknown,
        })
    }

    // Puts what a statement asks for, which uses a label at a target.
    fn put(&mut self, number: u64, target: u128, statement: &Statement<'_>) -> Result<(), AsmFault>
        requires { target < 2 ^ 104 }
        ensures { Becomes result self.new (put number target (asked statement.now) self.old) }
    {
        let range = AsmFault::At {
            line: number,
            rule: AsmRule::Range,
        };
        let offset = u128::from(self.offset());
        let size = size_of(self.section, offset, statement).ok_or(range)?;
        if offset.saturating_add(size) > MAX_SIZE {
            return Err(range);
        }
        let address = self.here();
        let section = self.section;
        match section {
            SectionId::Text => put_in(&mut self.text, section, number, address, target, statement),
            SectionId::Rodata => {
                put_in(
                    &mut self.rodata,
                    section,
                    number,
                    address,
                    target,
                    statement,
                )
            }
            SectionId::Data => {
                put_in(
                    &mut self.rwdata,
                    section,
                    number,
                    address,
                    target,
                    statement,
                )
            }
            SectionId::Bss => {
                self.bss += size as u64;
                Ok(())
            }
        }
    }

    // Does what `.globl` asks for.
    fn make_global(&mut self, number: u64, name: &[u8]) -> Result<(), AsmFault>
        ensures { Becomes result self.new (done number (Named use_.Globl name.now) self.old) }
    {
        let place = self.place(number, name)?;
        self.symbols[place].global = true;
        Ok(())
    }

    // Does what `.size` asks for.
    fn set_size(&mut self, number: u64, name: &[u8]) -> Result<(), AsmFault>
        ensures { Becomes result self.new (done number (Named use_.Size name.now) self.old) }
    {
        let place = self.place(number, name)?;
        let here = self.here();
        let section = self.section;
        let symbol = &mut self.symbols[place];
        if !stands_before(symbol, section, here) {
            return Err(AsmFault::At {
                line: number,
                rule: AsmRule::Range,
            });
        }
        symbol.size = here - symbol.address;
        Ok(())
    }

    // The number of the section of a name's label, if there is one.
    fn home_of(&self, name: &[u8]) -> Option<u8>
        ensures { result ≡ home_of name.now self.now.symbols }
    {
        let place = self.labels.place(name)?;
        Some(section_number(self.symbols[place].section))
    }

    // Puts what the use of a name asks for that is left to a linker.
    #[tactic(auto, unfolding(crate::specs::SecondPass::left))]
    fn put_left(&mut self, number: u64, what: Use, name: &[u8]) -> Result<(), AsmFault>
        ensures { Becomes result self.new (left number what name.now self.old) }
    {
        if !has_addend(what) {
            return Err(AsmFault::At {
                line: number,
                rule: AsmRule::Range,
            });
        }
        let here = self.here();
        self.put(number, here, &unlinked(what, name))
    }

    // Puts what the use of a name asks for.
    fn put_use(&mut self, number: u64, what: Use, name: &[u8]) -> Result<(), AsmFault>
        requires { puts_nothing what ≡ false }
        ensures { Becomes result self.new (done number (Named what name.now) self.old) }
    {
        if !is_settled(self.form, self.section, what, self.home_of(name)) {
            return self.put_left(number, what, name);
        }
        let place = self.place(number, name)?;
        let target = self.symbols[place].address;
        self.put(number, target, &Statement::Named(what, name))
    }

    // Does what the use of a label asks for.
    fn obey_use(&mut self, number: u64, what: Use, name: &[u8]) -> Result<(), AsmFault>
        ensures { Becomes result self.new (done number (Named what name.now) self.old) }
    {
        match what {
            Use::Globl => self.make_global(number, name),
            Use::Size => self.set_size(number, name),
            Use::Address { .. } => self.put_use(number, what, name),
            Use::Branch { .. } => self.put_use(number, what, name),
            Use::Jal { .. } => self.put_use(number, what, name),
            Use::Call => self.put_use(number, what, name),
            Use::La { .. } => self.put_use(number, what, name),
        }
    }

    // Does what a statement asks for.
    #[tactic(auto, unfolding(crate::specs::SecondPass::done))]
    fn obey(&mut self, number: u64, statement: &Statement<'_>) -> Result<(), AsmFault>
        ensures { Becomes result self.new (done number (asked statement.now) self.old) }
    {
        match statement {
            Statement::Empty => Ok(()),
            Statement::Section(next) => {
                self.section = *next;
                Ok(())
            }
            Statement::Align(_) => self.put(number, 0, statement),
            Statement::Zero(_) => self.put(number, 0, statement),
            Statement::Number { .. } => self.put(number, 0, statement),
            Statement::Hex(_) => self.put(number, 0, statement),
            Statement::Ascii(_) => self.put(number, 0, statement),
            Statement::Li { .. } => self.put(number, 0, statement),
            Statement::Plain(_) => self.put(number, 0, statement),
            Statement::Named(what, name) => self.obey_use(number, *what, name),
        }
    }

    // Reads a line.
    #[tactic(auto, unfolding(crate::specs::SecondPass::drafted_line))]
    fn read(&mut self, number: u64, text: &[u8]) -> Result<(), AsmFault>
        ensures { Becomes result self.new (drafted_line number text.now self.old) }
    {
        let line = read_line(text).ok_or(AsmFault::At {
            line: number,
            rule: AsmRule::Syntax,
        })?;
        self.obey(number, &line.statement)
    }
}

// Puts what a statement asks for at the end of a section that has an address, for the use of a
// label at a target.
fn put_in(
    out: &mut Vec<u8>,
    section: SectionId,
    number: u64,
    address: u128,
    target: u128,
    statement: &Statement<'_>,
) -> Result<(), AsmFault>
    requires low { address < 2 ^ 104 }
    requires target_low { target < 2 ^ 104 }
    ensures { let bytes =
        bytes_of section (length out.old.items) address target (asked statement.now) in
        Becomes result out.new.items (or_at number Range (appended out.old.items bytes)) }
{
    match put(out, section, address, target, statement) {
        Ok(()) => Ok(()),
        Err(PutFault::Range) => Err(AsmFault::At {
            line: number,
            rule: AsmRule::Range,
        }),
        Err(PutFault::Memory) => Err(AsmFault::Memory),
    }
}

// The symbol of a label.
fn symbol_of<'a>(form: Form, sizes: &SectionSizes, label: &Label<'a>) -> Symbol<'a>
    requires { AreCounted sizes.now }
    ensures { symbol_value result ≡ symbol_of form sizes.now (label_value label.now) }
{
    Symbol {
        name: label.name,
        section: label.section,
        address: sizes.base_of(form, label.section) + label.offset,
        size: 0,
        global: false,
    }
}

// The symbols of labels.
fn symbols_of<'a>(
    alloc: Global,
    form: Form,
    sizes: &SectionSizes,
    labels: &[Label<'a>],
) -> Result<Vec<Symbol<'a>>, AsmFault>
    requires { AreCounted sizes.now }
    ensures ok { IfOk result
        (λ symbols. symbol_values symbols.items
        ≡ map (symbol_of form sizes.now) (label_values labels.now)) }
    ensures err { IfErr result (λ fault. fault ≡ Memory) }
{
    let mut symbols = Vec::new(alloc);
    for label in labels {
        symbols.push(symbol_of(form, sizes, label))?;
    }
    Ok(symbols)
}

// The draft in which nothing stands yet.
fn blank<'a>(alloc: Global, form: Form, survey: Survey<'a>) -> Result<Draft<'a>, AsmFault>
    requires { AreCounted survey.sizes }
    ensures ok { IfOk result (λ draft. draft ≡ blank form survey.entry) }
    ensures err { IfErr result (λ fault. fault ≡ Memory) }
{
    let symbols = symbols_of(alloc, form, &survey.sizes, survey.labels.entries())?;
    Ok(Draft {
        form,
        text: Vec::new(alloc),
        rodata: Vec::new(alloc),
        rwdata: Vec::new(alloc),
        bss: 0,
        symbols,
        labels: survey.labels,
        uses: survey.uses,
        sizes: survey.sizes,
        section: SectionId::Text,
    })
}

/// Reads all lines of a source again, of which the first pass found this: the draft of its module,
/// or the first line in which a name is not known or a number or a distance does not fit.
#[tactic(auto, using(crate::proofs::SecondLemmas::drafted_steps))]
pub fn drafted<'a>(
    alloc: Global,
    form: Form,
    source: &'a [u8],
    survey: Survey<'a>,
) -> Result<Draft<'a>, AsmFault>
    requires { AreCounted survey.sizes }
    ensures { Answers (λ d. d) result (drafted 1 (lines_of source.now) (blank form survey.entry)) }
{
    let mut draft = blank(alloc, form, survey)?;
    let mut rest = source;
    let mut number = 1;
    while !rest.is_empty() {
        let (text, behind) = split_line(rest);
        draft.read(number, text)?;
        number += 1;
        rest = behind;
    }
    Ok(draft)
}
