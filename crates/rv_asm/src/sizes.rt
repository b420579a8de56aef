//! How long the sections are.
ghost use Rattle.std.specs.Prelude.{◌≡◌, ◌≤◌, ◌<◌, ◌^◌, ◌+◌};
ghost use Rattle.elf_write.specs.Places.{rounded_up};
ghost use Rattle.rv_asm.specs.FirstPass.{grown, size_in, counted};
ghost use Rattle.rv_asm.specs.SecondPass.{base_of};
ghost use Rattle.rv_asm.specs.Kept.{AreCounted};

use asm_lines::SectionId;
use elf_write::Form;

// A size above this one counts as this one.
const MOST: u128 = 1 << 100;

/// The sizes of the sections in bytes.
#[derive(Clone, Copy)]
pub struct SectionSizes {
    pub text: u128,
    pub rodata: u128,
    pub rwdata: u128,
    pub bss: u128,
}

// A size as it is counted.
fn counted(size: u128) -> u128
    ensures { result ≡ counted size }
{
    size.min(MOST)
}

// The first multiple of n that is not below a place.
fn rounded_up(n: u128, at: u128) -> u128
    requires { (0 < n) × (n ≤ 4096) × (at < 2 ^ 120) }
    ensures value { result ≡ rounded_up n at }
    ensures near { result < at + n }
{
    (at + (n - 1)) / n * n
}

impl SectionSizes {
    /// The size of a section.
    pub fn size_in(&self, section: SectionId) -> u128
        ensures value { result ≡ size_in self.now section }
        ensures counted { AreCounted self.now → result ≤ 2 ^ 100 }
    {
        match section {
            SectionId::Text => self.text,
            SectionId::Rodata => self.rodata,
            SectionId::Data => self.rwdata,
            SectionId::Bss => self.bss,
        }
    }

    /// The sizes, where a section is longer by so many bytes.
    pub fn grown(&self, section: SectionId, more: u128) -> Self
        requires { AreCounted self.now }
        ensures value { result ≡ grown section more self.now }
        ensures counted { AreCounted result }
    {
        let size = counted(self.size_in(section).saturating_add(more));
        match section {
            SectionId::Text => SectionSizes {
                text: size,
                ..*self
            },
            SectionId::Rodata => SectionSizes {
                rodata: size,
                ..*self
            },
            SectionId::Data => SectionSizes {
                rwdata: size,
                ..*self
            },
            SectionId::Bss => SectionSizes { bss: size, ..*self },
        }
    }

    /// The address of a section: 0 in an object.
    #[tactic(auto, unfolding(crate::specs::SecondPass::base_of, elf_write::specs::Layout::bases_of))]
    pub fn base_of(&self, form: Form, section: SectionId) -> u128
        requires { AreCounted self.now }
        ensures value { result ≡ base_of form self.now section }
        ensures small { result < 2 ^ 103 }
    {
        if form == Form::Object {
            return 0;
        }
        let rodata = rounded_up(4096, 0x10000 + self.text);
        let rwdata = rounded_up(4096, rodata + self.rodata);
        match section {
            SectionId::Text => 0x10000,
            SectionId::Rodata => rodata,
            SectionId::Data => rwdata,
            SectionId::Bss => rounded_up(8, rwdata + self.rwdata),
        }
    }
}
