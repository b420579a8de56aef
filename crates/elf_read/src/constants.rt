//! The numbers of the standard.
//!
//! System V ABI, "ELF Header", "Program Header", "Section Header", "Symbol Table" and "Relocation";
//! RISC-V ELF psABI, "File Header".

/// The bytes of the file's header.
pub const EHSIZE: usize = 64;

/// The bytes of a program header.
pub const PHENTSIZE: usize = 56;

/// The bytes of a section header.
pub const SHENTSIZE: usize = 64;

/// The bytes of a symbol.
pub const SYMENTSIZE: usize = 24;

/// The bytes of a relocation with addend.
pub const RELAENTSIZE: usize = 24;

/// Where the byte of the class stands in the file's header.
pub const EI_CLASS: usize = 4;

/// Where the byte of the order stands in the file's header.
pub const EI_DATA: usize = 5;

/// Where e_type stands in the file's header.
pub const E_TYPE_PLACE: usize = 16;

/// Where e_machine stands in the file's header.
pub const E_MACHINE_PLACE: usize = 18;

/// Where e_entry stands in the file's header.
pub const E_ENTRY_PLACE: usize = 24;

/// Where e_phoff stands in the file's header.
pub const E_PHOFF_PLACE: usize = 32;

/// Where e_shoff stands in the file's header.
pub const E_SHOFF_PLACE: usize = 40;

/// Where e_flags stands in the file's header.
pub const E_FLAGS_PLACE: usize = 48;

/// Where e_phentsize stands in the file's header.
pub const E_PHENTSIZE_PLACE: usize = 54;

/// Where e_phnum stands in the file's header.
pub const E_PHNUM_PLACE: usize = 56;

/// Where e_shentsize stands in the file's header.
pub const E_SHENTSIZE_PLACE: usize = 58;

/// Where e_shnum stands in the file's header.
pub const E_SHNUM_PLACE: usize = 60;

/// Where e_shstrndx stands in the file's header.
pub const E_SHSTRNDX_PLACE: usize = 62;

/// The class of files of 64 bits.
pub const ELFCLASS64: u8 = 2;

/// The order with the lowest byte first.
pub const ELFDATA2LSB: u8 = 1;

/// The version of the format: the only one.
pub const EV_CURRENT: u8 = 1;

/// The type of relocatable files.
pub const ET_REL: u16 = 1;

/// The type of executable files.
pub const ET_EXEC: u16 = 2;

/// The machine RISC-V.
pub const EM_RISCV: u16 = 243;

/// The flag of compressed code.
pub const EF_RISCV_RVC: u32 = 0x0001;

/// The flag of half of the registers.
pub const EF_RISCV_RVE: u32 = 0x0008;

/// A segment that is loaded.
pub const PT_LOAD: u32 = 1;

/// What a dynamic linker is told.
pub const PT_DYNAMIC: u32 = 2;

/// The name of an interpreter.
pub const PT_INTERP: u32 = 3;

/// A note, which nothing here looks at.
pub const PT_NOTE: u32 = 4;

/// Storage that is local to threads.
pub const PT_TLS: u32 = 7;

/// The right to run what is in a segment.
pub const PF_X: u32 = 1;

/// The right to write what is in a segment.
pub const PF_W: u32 = 2;

/// The right to read what is in a segment.
pub const PF_R: u32 = 4;

/// A section header that stands for no section.
pub const SHT_NULL: u32 = 0;

/// A section of the program's own bytes.
pub const SHT_PROGBITS: u32 = 1;

/// A symbol table.
pub const SHT_SYMTAB: u32 = 2;

/// A string table.
pub const SHT_STRTAB: u32 = 3;

/// A table of relocations with addends.
pub const SHT_RELA: u32 = 4;

/// A section that takes no bytes of the file.
pub const SHT_NOBITS: u32 = 8;

/// A table of relocations without addends.
pub const SHT_REL: u32 = 9;

/// The section of a symbol that is not defined.
pub const SHN_UNDEF: u16 = 0;

/// The first number of those that stand for no section.
pub const SHN_LORESERVE: u16 = 0xFF00;

/// The section of a symbol that is a number and no address.
pub const SHN_ABS: u16 = 0xFFF1;

/// The section of a symbol that is still to be given a place.
pub const SHN_COMMON: u16 = 0xFFF2;

/// Tells that the section's number stands in another table.
pub const SHN_XINDEX: u16 = 0xFFFF;

/// The binding of a symbol that no other file sees.
pub const STB_LOCAL: u8 = 0;
