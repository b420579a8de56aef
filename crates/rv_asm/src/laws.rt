//! What the two passes keep.
ghost use Rattle.std.specs.Prelude.{◌≡◌, ℕ, List, Ok};
ghost use Rattle.elf_write.specs.declared.module.Form.{Form};
ghost use Rattle.rv_asm.specs.FirstPass.{start, surveyed};
ghost use Rattle.rv_asm.specs.SecondPass.{DraftValue, blank, drafted, lengths};
ghost use Rattle.std.specs.List.{AllByRecursion};
ghost use Rattle.rv_asm.specs.Uses.{IsPlainName};
ghost use Rattle.rv_asm.specs.declared.first_pass.Survey.{Survey};

/// The sections become as long as the first pass says, so each label stands where its line puts its
/// bytes, whatever names without zero bytes local labels are given.
pub fn sections_are_as_long_as_surveyed()
    ensures { (form : Form) (names lines : List (List ℕ)) (s : Survey) (d : DraftValue)
        → AllByRecursion IsPlainName names
        → surveyed form names 1 lines start ≡ Ok s
        → drafted 1 lines (blank form s) ≡ Ok d
        → lengths d ≡ s.sizes }
{}
