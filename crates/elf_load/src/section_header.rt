//! A section header of a file.
ghost use Rattle.std.specs.Prelude.{◌≡◌, ◌+◌, ◌≤◌, length};
ghost use Rattle.elf_load.specs.Symbols.{section_header, is_symbol_table, is_sound_symbol_table, is_sound_string_table, is_section_within};

use crate::format::{SHT_STRTAB, SHT_SYMTAB};
use crate::symbol_entry::SymbolEntry;
use byteorder::{ByteOrder, LittleEndian};

/// A section header's fields that are looked at (System V ABI, "Section Header").
#[derive(Clone, Copy, Debug, PartialEq, Eq)]
pub(crate) struct SectionHeader {
    /// `sh_type`: 2 is SHT_SYMTAB, 3 SHT_STRTAB.
    pub kind: u32,
    /// `sh_offset`, where the section's bytes begin in the file.
    pub offset: u32,
    /// `sh_size`, the number of its bytes.
    pub size: u32,
    /// `sh_link`; of a symbol table, the index of its string section.
    pub link: u32,
    /// `sh_entsize`, the bytes of one entry.
    pub entry_size: u32,
}

impl SectionHeader {
    /// The bytes of a section header.
    pub(crate) const SIZE: usize = 40;

    #[tactic(auto, unfolding(crate::specs::Symbols::section_header))]
    pub(crate) fn read(bytes: &[u8], at: usize) -> SectionHeader
        requires { at + 40 ≤ length bytes.now }
        ensures { result ≡ section_header at bytes.now }
    {
        SectionHeader {
            kind: LittleEndian::read_u32(&bytes[at + 4..]),
            offset: LittleEndian::read_u32(&bytes[at + 16..]),
            size: LittleEndian::read_u32(&bytes[at + 20..]),
            link: LittleEndian::read_u32(&bytes[at + 24..]),
            entry_size: LittleEndian::read_u32(&bytes[at + 36..]),
        }
    }

    pub(crate) fn is_symbol_table(&self) -> bool
        ensures { result ≡ is_symbol_table self.now }
    {
        self.kind == SHT_SYMTAB
    }

    pub(crate) fn is_within(&self, size: usize) -> bool
        ensures { result ≡ is_section_within size self.now }
    {
        u64::from(self.offset) + u64::from(self.size) <= size as u64
    }

    pub(crate) fn is_sound_symbol_table(&self, size: usize) -> bool
        ensures { result ≡ is_sound_symbol_table size self.now }
    {
        self.entry_size as usize == SymbolEntry::SIZE && self.is_within(size)
    }

    pub(crate) fn is_sound_string_table(&self, size: usize) -> bool
        ensures { result ≡ is_sound_string_table size self.now }
    {
        self.kind == SHT_STRTAB && self.is_within(size)
    }
}
