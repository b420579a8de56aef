//! Which names of a list count.
ghost use Rattle.std.specs.Prelude.{◌≡◌};
ghost use Rattle.elf_syms.specs.Among.{is_among};

use wf_outside::Name;

// Which names of a list count.
#[derive(Clone, Copy)]
pub enum Among {
    All,
    Globals,
    Locals,
}

impl Among {
    // The name counts.
    pub fn has(self, entry: &Name) -> bool
        ensures { result ≡ is_among self entry.now }
    {
        match self {
            Among::All => true,
            Among::Globals => entry.global,
            Among::Locals => !entry.global,
        }
    }
}
