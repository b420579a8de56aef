//! Laws of the files that modules are written to.
ghost use Rattle.elf_laws.specs.Laws.{FilesAreApart, LengthIsPlanned, ModuleIsRead, NoRuleIsBroken};

/// A file that is written of a module has the length that is told of the module and breaks no rule
/// of reading, and what is read of it holds the module: its header, segments, sections and symbols,
/// their names, and the contents of sections.
pub fn modules_are_read_back()
    ensures size { LengthIsPlanned }
    ensures unbroken { NoRuleIsBroken }
    ensures read { ModuleIsRead }
{}

/// No two modules are written to one file.
pub fn files_are_apart()
    ensures { FilesAreApart }
{}
