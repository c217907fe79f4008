//! The numbers of the format, by their names in the System V ABI and the RISC-V psABI, and the limits of an executable.

pub(crate) const ELF_MAGIC: [u8; 4] = [0x7f, 0x45, 0x4c, 0x46];

pub(crate) const ELFCLASS32: u8 = 1;

pub(crate) const ELFDATA2LSB: u8 = 1;

pub(crate) const EV_CURRENT: u8 = 1;

pub(crate) const ET_EXEC: u16 = 2;

pub(crate) const EM_RISCV: u16 = 243;

pub(crate) const PT_LOAD: u32 = 1;

pub(crate) const PT_DYNAMIC: u32 = 2;

pub(crate) const PT_INTERP: u32 = 3;

pub(crate) const SHT_SYMTAB: u32 = 2;

pub(crate) const SHT_STRTAB: u32 = 3;

pub(crate) const SHN_UNDEF: u16 = 0;

pub(crate) const STT_SECTION: u8 = 3;

pub(crate) const STT_FILE: u8 = 4;

pub(crate) const STB_GLOBAL: u8 = 1;

pub(crate) const STB_WEAK: u8 = 2;

/// Addresses are below it.
pub const MEMORY_END: u64 = 1 << 32;

/// The most bytes of memory that a run can access.
pub const MOST_MEMORY: u64 = 1 << 24;
