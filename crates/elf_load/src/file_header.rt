//! The ELF header of a file.
ghost use Rattle.std.specs.Prelude.{◌≡◌, ◌≤◌, length};
ghost use Rattle.elf_load.specs.File.{file_header};

use byteorder::{ByteOrder, LittleEndian};

/// The ELF header's fields that are looked at (System V ABI, "ELF Header").
#[derive(Clone, Copy, Debug, PartialEq, Eq)]
pub(crate) struct FileHeader {
    /// EI_CLASS, 1 for 32 bits.
    pub class: u8,
    /// EI_DATA, 1 for little-endian numbers.
    pub order: u8,
    /// EI_VERSION.
    pub identity_version: u8,
    /// `e_type`, 2 for an executable file.
    pub kind: u16,
    /// `e_machine`, 243 for RISC-V.
    pub machine: u16,
    /// `e_version`.
    pub version: u32,
    /// `e_entry`, the address of the first instruction.
    pub entry: u32,
    /// `e_phoff`, the offset of the program header table in the file.
    pub program_table: u32,
    /// `e_shoff`, the offset of the section header table in the file.
    pub section_table: u32,
    /// `e_flags`; bit 0 is EF_RISCV_RVC, compressed instructions (RISC-V psABI).
    pub flags: u32,
    /// `e_phentsize`, the bytes of one program header.
    pub program_entry_size: u16,
    /// `e_phnum`, the number of program headers.
    pub program_count: u16,
    /// `e_shentsize`, the bytes of one section header.
    pub section_entry_size: u16,
    /// `e_shnum`, the number of section headers.
    pub section_count: u16,
}

impl FileHeader {
    /// The bytes of the ELF header.
    pub(crate) const SIZE: usize = 52;

    #[tactic(auto, unfolding(crate::specs::File::file_header))]
    pub(crate) fn read(bytes: &[u8]) -> FileHeader
        requires { 52 ≤ length bytes.now }
        ensures { result ≡ file_header bytes.now }
    {
        FileHeader {
            class: bytes[4],
            order: bytes[5],
            identity_version: bytes[6],
            kind: LittleEndian::read_u16(&bytes[16..]),
            machine: LittleEndian::read_u16(&bytes[18..]),
            version: LittleEndian::read_u32(&bytes[20..]),
            entry: LittleEndian::read_u32(&bytes[24..]),
            program_table: LittleEndian::read_u32(&bytes[28..]),
            section_table: LittleEndian::read_u32(&bytes[32..]),
            flags: LittleEndian::read_u32(&bytes[36..]),
            program_entry_size: LittleEndian::read_u16(&bytes[42..]),
            program_count: LittleEndian::read_u16(&bytes[44..]),
            section_entry_size: LittleEndian::read_u16(&bytes[46..]),
            section_count: LittleEndian::read_u16(&bytes[48..]),
        }
    }
}
