//! Which sections are loaded, and with which others.
ghost use Rattle.std.specs.Prelude.{◌≡◌, ◌<◌};
ghost use Rattle.patch_build.specs.Sections.{has_flag, is_loaded, alignment_of, region_of, is_of};

use crate::constants::{SHF_ALLOC, SHF_EXECINSTR, SHF_WRITE};
use elf_read::Section;

/// What becomes of a section that is loaded: text, which the patch alone has; data that may only be
/// read; or data that may be written.
#[derive(Clone, Copy, Debug, PartialEq, Eq)]
pub enum Region {
    Text,
    Constants,
    Data,
}

/// A section has a flag.
pub fn has_flag(section: &Section, flag: u64) -> bool
    ensures { result ≡ has_flag flag section.now }
{
    section.sh_flags & flag != 0
}

/// It is loaded.
pub fn is_loaded(section: &Section) -> bool
    ensures { result ≡ is_loaded section.now }
{
    has_flag(section, SHF_ALLOC) && 0 < section.sh_size
}

/// Its alignment.
pub fn alignment_of(section: &Section) -> u64
    ensures value { result ≡ alignment_of section.now }
    ensures some { 0 < result }
{
    section.sh_addralign.max(1)
}

impl Region {
    /// The region of a section that is loaded.
    pub fn of(section: &Section) -> Region
        ensures { result ≡ region_of section.now }
    {
        if has_flag(section, SHF_EXECINSTR) {
            Region::Text
        } else if has_flag(section, SHF_WRITE) {
            Region::Data
        } else {
            Region::Constants
        }
    }

    /// A section is loaded, in this region.
    pub fn has(self, section: &Section) -> bool
        ensures { result ≡ is_of self section.now }
    {
        let runs = has_flag(section, SHF_EXECINSTR);
        let writes = has_flag(section, SHF_WRITE);
        match self {
            Region::Text => is_loaded(section) && runs,
            Region::Constants => is_loaded(section) && !runs && !writes,
            Region::Data => is_loaded(section) && !runs && writes,
        }
    }
}
