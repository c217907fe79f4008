//! ELF files made of code.
ghost use Rattle.std.specs.Prelude.{◌≡◌, ◌≤◌, ◌<◌, ◌^◌, ◌++◌, length, IfOk};
ghost use Rattle.std.specs.Result.{OnOk};
ghost use Rattle.ct_gen.specs.Files as spelled;

use crate::bytes::{push_halves, push_words};
use crate::headers::{
    FileFields, SECTION_HEADER_SIZE, SHT_STRTAB, SHT_SYMTAB, SYMBOL_SIZE, SectionFields,
    SegmentFields,
};
use std::alloc::{AllocError, Global};

const EXECUTABLE: u32 = 5;

const WRITABLE: u32 = 6;

const SMALL_START: u32 = 0x0001_0054;

const SMALL_OFFSET: u32 = 84;

// The addresses of the code, of the secret bytes and of the work memory.
const ROUTINE: u32 = 0x0001_0074;

const BUF: u32 = 0x0010_0000;

const WORK: u32 = 0x0010_0040;

const CODE_OFFSET: u32 = 116;

// The bytes of memory from `BUF` on.
const MEMORY_SIZE: u32 = 128;

const SYMBOLS_SIZE: u32 = 64;

const NAMES_SIZE: u32 = 18;

// The zeros behind the names, so that the section headers are aligned to words.
const PADDING_SIZE: u32 = 2;

// The binding STB_GLOBAL with no type.
const GLOBAL: u8 = 0x10;

// The section of fixed addresses.
const SHN_ABS: u16 = 0xfff1;

const NAMES: &[u8] = b"\0routine\0buf\0work\0";

/// An ELF file of 1 to 4,096 words of code, in one segment that may be read and executed, and entered
/// at its first word. It has no symbols.
#[tactic(auto, unfolding(crate::specs::Files::small_file))]
pub fn small_elf(alloc: Global, code: &[u32]) -> Result<Vec<u8>, AllocError>
    requires least { 1 ≤ length code.now }
    requires most { length code.now ≤ 4096 }
    ensures { IfOk result (λ file. file.items ≡ spelled.small_file code.now) }
{
    let size = 4 * code.len() as u32;
    let mut bytes = Vec::new(alloc);
    FileFields {
        entry: SMALL_START,
        section_table: 0,
        program_count: 1,
        section_entry_size: 0,
        section_count: 0,
    }
    .push(&mut bytes)?;
    SegmentFields {
        offset: SMALL_OFFSET,
        address: SMALL_START,
        file_size: size,
        memory_size: size,
        flags: EXECUTABLE,
    }
    .push(&mut bytes)?;
    push_words(&mut bytes, code)?;
    Ok(bytes)
}

fn symbols_offset(size: u32) -> u32
    requires { size < 2 ^ 31 }
    ensures { result ≡ spelled.symbols_offset size }
{
    CODE_OFFSET + size
}

fn names_offset(size: u32) -> u32
    requires { size < 2 ^ 31 }
    ensures { result ≡ spelled.names_offset size }
{
    symbols_offset(size) + SYMBOLS_SIZE
}

fn sections_offset(size: u32) -> u32
    requires { size < 2 ^ 31 }
    ensures { result ≡ spelled.sections_offset size }
{
    names_offset(size) + NAMES_SIZE + PADDING_SIZE
}

/// Appends the headers of a file of generated code of so many bytes.
#[tactic(auto, unfolding(crate::specs::Files::headers))]
fn push_headers(bytes: &mut Vec<u8>, size: u32) -> Result<(), AllocError>
    requires { size < 2 ^ 31 }
    ensures { OnOk result (bytes.new.items ≡ bytes.old.items ++ spelled.headers size) }
{
    FileFields {
        entry: ROUTINE,
        section_table: sections_offset(size),
        program_count: 2,
        section_entry_size: SECTION_HEADER_SIZE,
        section_count: 3,
    }
    .push(bytes)?;
    SegmentFields {
        offset: CODE_OFFSET,
        address: ROUTINE,
        file_size: size,
        memory_size: size,
        flags: EXECUTABLE,
    }
    .push(bytes)?;
    SegmentFields {
        offset: symbols_offset(size),
        address: BUF,
        file_size: 0,
        memory_size: MEMORY_SIZE,
        flags: WRITABLE,
    }
    .push(bytes)
}

/// Appends a global symbol, by the offset of its name.
fn push_symbol(bytes: &mut Vec<u8>, name: u32, value: u32) -> Result<(), AllocError>
    ensures { OnOk result (bytes.new.items ≡ bytes.old.items ++ spelled.symbol name value) }
{
    push_words(bytes, &[name, value, 0])?;
    bytes.extend_from_slice(&[GLOBAL, 0])?;
    push_halves(bytes, &[SHN_ABS])
}

/// Appends the symbol table.
#[tactic(auto, unfolding(crate::specs::Files::symbol_table))]
fn push_symbols(bytes: &mut Vec<u8>) -> Result<(), AllocError>
    ensures { OnOk result (bytes.new.items ≡ bytes.old.items ++ spelled.symbol_table) }
{
    bytes.extend_from_slice(&[0; 16])?;
    push_symbol(bytes, 1, ROUTINE)?;
    push_symbol(bytes, 9, BUF)?;
    push_symbol(bytes, 13, WORK)
}

/// Appends the section headers behind code of so many bytes.
#[tactic(auto, unfolding(crate::specs::Files::section_headers))]
fn push_sections(bytes: &mut Vec<u8>, size: u32) -> Result<(), AllocError>
    requires { size < 2 ^ 31 }
    ensures { OnOk result (bytes.new.items ≡ bytes.old.items ++ spelled.section_headers size) }
{
    bytes.extend_from_slice(&[0; 40])?;
    SectionFields {
        kind: SHT_SYMTAB,
        offset: symbols_offset(size),
        size: SYMBOLS_SIZE,
        link: 2,
        info: 1,
        alignment: 4,
        entry_size: u32::from(SYMBOL_SIZE),
    }
    .push(bytes)?;
    SectionFields {
        kind: SHT_STRTAB,
        offset: names_offset(size),
        size: NAMES_SIZE,
        link: 0,
        info: 0,
        alignment: 1,
        entry_size: 0,
    }
    .push(bytes)
}

/// An ELF file of generated code: a segment of the code, entered at its first word, one of memory
/// for the secret bytes and for work, and symbols for their addresses.
#[tactic(auto, unfolding(crate::specs::Files::file_of, crate::specs::Files::names))]
pub fn file_of(alloc: Global, code: &[u32]) -> Result<Vec<u8>, AllocError>
    requires { length code.now < 2 ^ 28 }
    ensures { IfOk result (λ file. file.items ≡ spelled.file_of code.now) }
{
    let size = 4 * code.len() as u32;
    let mut bytes = Vec::new(alloc);
    push_headers(&mut bytes, size)?;
    push_words(&mut bytes, code)?;
    push_symbols(&mut bytes)?;
    bytes.extend_from_slice(NAMES)?;
    bytes.extend_from_slice(&[0, 0])?;
    push_sections(&mut bytes, size)?;
    Ok(bytes)
}
