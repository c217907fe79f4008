//! The headers of an ELF file (System V ABI, "ELF Header", "Program Header", "Sections").
ghost use Rattle.std.specs.Prelude.{◌≡◌, ◌++◌};
ghost use Rattle.std.specs.Result.{OnOk};
ghost use Rattle.ct_gen.specs.Files.{file_header, segment_header, section_header};

use crate::bytes::{push_halves, push_words};
use std::alloc::AllocError;

pub const FILE_HEADER_SIZE: u16 = 52;

pub const SEGMENT_HEADER_SIZE: u16 = 32;

pub const SECTION_HEADER_SIZE: u16 = 40;

pub const SYMBOL_SIZE: u16 = 16;

pub const SHT_SYMTAB: u32 = 2;

pub const SHT_STRTAB: u32 = 3;

const ET_EXEC: u16 = 2;

const EM_RISCV: u16 = 243;

const EV_CURRENT: u32 = 1;

const PT_LOAD: u32 = 1;

// The magic number, 32 bits, little-endian numbers, the version, and nothing else.
const IDENTIFICATION: [u8; 16] = [0x7f, 0x45, 0x4c, 0x46, 1, 1, 1, 0, 0, 0, 0, 0, 0, 0, 0, 0];

/// The fields in which ELF headers differ here.
#[derive(Drop)]
pub struct FileFields {
    pub entry: u32,
    /// The offset of the section headers.
    pub section_table: u32,
    pub program_count: u16,
    pub section_entry_size: u16,
    pub section_count: u16,
}

/// The fields in which program headers differ here.
#[derive(Drop)]
pub struct SegmentFields {
    pub offset: u32,
    pub address: u32,
    pub file_size: u32,
    pub memory_size: u32,
    pub flags: u32,
}

/// The fields in which section headers differ here.
#[derive(Drop)]
pub struct SectionFields {
    pub kind: u32,
    pub offset: u32,
    pub size: u32,
    pub link: u32,
    pub info: u32,
    pub alignment: u32,
    pub entry_size: u32,
}

impl FileFields {
    /// Appends an ELF header, which program headers follow.
    #[tactic(auto, unfolding(crate::specs::Files::file_header))]
    pub fn push(&self, bytes: &mut Vec<u8>) -> Result<(), AllocError>
        ensures { OnOk result (bytes.new.items ≡ bytes.old.items ++ file_header self.now) }
    {
        bytes.extend_from_slice(&IDENTIFICATION)?;
        push_halves(bytes, &[ET_EXEC, EM_RISCV])?;
        let after = u32::from(FILE_HEADER_SIZE);
        push_words(
            bytes,
            &[EV_CURRENT, self.entry, after, self.section_table, 0],
        )?;
        push_halves(
            bytes,
            &[
                FILE_HEADER_SIZE,
                SEGMENT_HEADER_SIZE,
                self.program_count,
                self.section_entry_size,
                self.section_count,
                0,
            ],
        )
    }
}

impl SegmentFields {
    /// Appends a program header of type PT_LOAD.
    #[tactic(auto, unfolding(crate::specs::Files::segment_header))]
    pub fn push(&self, bytes: &mut Vec<u8>) -> Result<(), AllocError>
        ensures { OnOk result (bytes.new.items ≡ bytes.old.items ++ segment_header self.now) }
    {
        push_words(
            bytes,
            &[
                PT_LOAD,
                self.offset,
                self.address,
                self.address,
                self.file_size,
                self.memory_size,
                self.flags,
                4,
            ],
        )
    }
}

impl SectionFields {
    /// Appends a section header.
    #[tactic(auto, unfolding(crate::specs::Files::section_header))]
    pub fn push(&self, bytes: &mut Vec<u8>) -> Result<(), AllocError>
        ensures { OnOk result (bytes.new.items ≡ bytes.old.items ++ section_header self.now) }
    {
        push_words(
            bytes,
            &[
                0,
                self.kind,
                0,
                0,
                self.offset,
                self.size,
                self.link,
                self.info,
                self.alignment,
                self.entry_size,
            ],
        )
    }
}
