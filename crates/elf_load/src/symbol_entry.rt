//! An entry of a symbol table.
ghost use Rattle.std.specs.Prelude.{◌≡◌, ◌+◌, ◌≤◌, length};
ghost use Rattle.elf_load.specs.Symbols.{symbol_entry, names_address, is_global};

use crate::format::{SHN_UNDEF, STB_GLOBAL, STB_WEAK, STT_FILE, STT_SECTION};
use byteorder::{ByteOrder, LittleEndian};

/// A symbol table entry's fields that are looked at (System V ABI, "Symbol Table").
#[derive(Clone, Copy, Debug, PartialEq, Eq)]
pub(crate) struct SymbolEntry {
    /// `st_name`, where the name begins in the string section.
    pub name: u32,
    /// `st_value`, the address.
    pub value: u32,
    /// `st_info`: the binding in the high four bits, the type in the low four bits.
    pub info: u8,
    /// `st_shndx`, the section that has the symbol; 0 is SHN_UNDEF.
    pub section: u16,
}

impl SymbolEntry {
    /// The bytes of an entry.
    pub(crate) const SIZE: usize = 16;

    #[tactic(auto, unfolding(crate::specs::Symbols::symbol_entry))]
    pub(crate) fn read(bytes: &[u8], at: usize) -> SymbolEntry
        requires { at + 16 ≤ length bytes.now }
        ensures { result ≡ symbol_entry at bytes.now }
    {
        SymbolEntry {
            name: LittleEndian::read_u32(&bytes[at..]),
            value: LittleEndian::read_u32(&bytes[at + 4..]),
            info: bytes[at + 12],
            section: LittleEndian::read_u16(&bytes[at + 14..]),
        }
    }

    pub(crate) fn names_address(&self) -> bool
        ensures { result ≡ names_address self.now }
    {
        self.section != SHN_UNDEF && self.info % 16 != STT_SECTION && self.info % 16 != STT_FILE
    }

    pub(crate) fn is_global(&self) -> bool
        ensures { result ≡ is_global self.now }
    {
        self.info / 16 == STB_GLOBAL || self.info / 16 == STB_WEAK
    }
}
