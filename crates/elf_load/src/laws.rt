//! What the definition of the bytes means.
ghost use Rattle.std.specs.Prelude.{◌≡◌, ◌<◌, ◌+◌, ℕ, None, All, Contains, length, slice_index};
ghost use Rattle.elf_read.specs.declared.records.Segment.{Segment};
ghost use Rattle.elf_read.specs.Elf.{ElfValue, FitsFile};
ghost use Rattle.elf_load.specs.Segments.{loads_of};
ghost use Rattle.elf_load.specs.Rules.{fault_of};
ghost use Rattle.elf_load.specs.Loaded.{byte_at};

/// Where a file breaks no rule, each byte of each PT_LOAD's part of the file stands at its address:
/// no address has two segments that give it a byte.
pub fn parts_stand_at_their_addresses()
    ensures { (elf : ElfValue) (s : Segment) (k : ℕ)
        → All (FitsFile (length elf.bytes)) elf.segments → fault_of elf ≡ None
        → Contains (loads_of elf.segments) s → k < s.p_filesz
        → byte_at elf.bytes (loads_of elf.segments) (s.p_vaddr + k)
        ≡ slice_index elf.bytes (s.p_offset + k) }
{}
