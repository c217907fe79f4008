//! A program header of a file, and what it loads.
ghost use Rattle.std.specs.Prelude.{◌≡◌, ◌+◌, ◌≤◌, length};
ghost use Rattle.elf_load.specs.File.{program_header, is_dynamic, is_load, is_within, loaded_size, loaded_end};
ghost use Rattle.elf_load.specs.Loading.{loads_bytes};

use crate::format::{MEMORY_END, PT_DYNAMIC, PT_INTERP, PT_LOAD};
use crate::range::AddressRange;
use byteorder::{ByteOrder, LittleEndian};

/// A program header's fields that are looked at (System V ABI, "Program Header").
#[derive(Clone, Copy, Debug, PartialEq, Eq)]
pub(crate) struct ProgramHeader {
    /// `p_type`: 1 is PT_LOAD, 2 PT_DYNAMIC, 3 PT_INTERP.
    pub kind: u32,
    /// `p_offset`, where the segment's bytes begin in the file.
    pub offset: u32,
    /// `p_vaddr`, the segment's first address.
    pub address: u32,
    /// `p_filesz`, the number of its bytes in the file.
    pub file_size: u32,
    /// `p_memsz`, the number of its bytes in memory.
    pub memory_size: u32,
    /// `p_flags`: 1 execute, 2 write, 4 read.
    pub flags: u32,
}

impl ProgramHeader {
    /// The bytes of a program header.
    pub(crate) const SIZE: usize = 32;

    /// The most program headers of a file that is loaded.
    pub(crate) const MOST: usize = 64;

    pub(crate) const EMPTY: ProgramHeader = ProgramHeader {
        kind: 0,
        offset: 0,
        address: 0,
        file_size: 0,
        memory_size: 0,
        flags: 0,
    };

    #[tactic(auto, unfolding(crate::specs::File::program_header))]
    pub(crate) fn read(bytes: &[u8], at: usize) -> ProgramHeader
        requires { at + 32 ≤ length bytes.now }
        ensures { result ≡ program_header at bytes.now }
    {
        ProgramHeader {
            kind: LittleEndian::read_u32(&bytes[at..]),
            offset: LittleEndian::read_u32(&bytes[at + 4..]),
            address: LittleEndian::read_u32(&bytes[at + 8..]),
            file_size: LittleEndian::read_u32(&bytes[at + 16..]),
            memory_size: LittleEndian::read_u32(&bytes[at + 20..]),
            flags: LittleEndian::read_u32(&bytes[at + 24..]),
        }
    }

    pub(crate) fn is_dynamic(&self) -> bool
        ensures { result ≡ is_dynamic self.now }
    {
        self.kind == PT_DYNAMIC || self.kind == PT_INTERP
    }

    pub(crate) fn is_load(&self) -> bool
        ensures { result ≡ is_load self.now }
    {
        self.kind == PT_LOAD
    }

    pub(crate) fn loads_bytes(&self) -> bool
        ensures { result ≡ loads_bytes self.now }
    {
        self.is_load() && self.memory_size != 0
    }

    pub(crate) fn is_within(&self, size: usize) -> bool
        ensures { result ≡ is_within size self.now }
    {
        self.file_size <= self.memory_size
            && (self.file_size == 0
                || u64::from(self.offset) + u64::from(self.file_size) <= size as u64)
            && u64::from(self.address) + u64::from(self.memory_size) <= MEMORY_END
    }

    /// How many bytes it loads.
    pub(crate) fn loaded_size(&self) -> u32
        ensures { result ≡ loaded_size self.now }
    {
        if self.is_load() { self.memory_size } else { 0 }
    }
}

impl AddressRange for ProgramHeader {
    ghost first = { λ header. header.address };

    ghost past = { loaded_end };

    fn start(&self) -> u64 {
        u64::from(self.address)
    }

    fn end(&self) -> u64 {
        u64::from(self.address) + u64::from(self.loaded_size())
    }
}
