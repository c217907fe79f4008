//! The symbols of a file, from its section, symbol and string tables.
ghost use Rattle.std.specs.Prelude.{◌≡◌, ◌+◌, ◌≤◌, ◌<◌, ◌==◌, length, find, position, IfOk, IfSome, IsTrue};
ghost use Rattle.std.specs.Option.{option_map};
ghost use Rattle.elf_load.specs.Fields.{bytes_at, entries};
ghost use Rattle.elf_load.specs.File.{file_header};
ghost use Rattle.elf_load.specs.Symbols.{section_header, has_section_table, is_symbol_table, symbol_section, string_section, section_bytes, only_if, is_name, name_at, symbol_of, symbols_in, symbols_of};

use crate::file_header::FileHeader;
use crate::section_header::SectionHeader;
use crate::symbol::Symbol;
use crate::symbol_entry::SymbolEntry;
use ct_rows::Text;
use std::alloc::{AllocError, Global};

/// The most bytes that names may take together. Names may overlap, so a small file can have names
/// that no memory holds: those of a file that needs more are answered as want of memory.
const NAME_BYTES: usize = 1 << 28;

fn has_section_table(size: usize, header: &FileHeader) -> bool
    ensures { result ≡ has_section_table size header.now }
{
    header.section_entry_size as usize == SectionHeader::SIZE
        && header.section_table as usize + SectionHeader::SIZE * header.section_count as usize
            <= size
}

#[tactic(auto, using(crate::proofs::Tables::drop_entries, crate::proofs::Tables::drop_entries_all))]
fn first_symbol_table(bytes: &[u8], header: &FileHeader) -> Option<SectionHeader>
    requires { IsTrue (has_section_table (length bytes.now) header.now) }
    ensures { result ≡ find is_symbol_table (entries section_header 40 header.now.section_count header.now.section_table bytes.now) }
{
    for index in 0..header.section_count as usize {
        let at = header.section_table as usize + SectionHeader::SIZE * index;
        let section = SectionHeader::read(bytes, at);
        if section.is_symbol_table() {
            return Some(section);
        }
    }
    None
}

#[tactic(auto, unfolding(crate::specs::Symbols::symbol_section, crate::specs::Symbols::section_headers))]
fn symbol_section(bytes: &[u8], header: &FileHeader) -> Option<SectionHeader>
    requires { header.now ≡ file_header bytes.now }
    ensures section { result ≡ symbol_section bytes.now }
    ensures table { IfSome result (λ _. IsTrue (has_section_table (length bytes.now) header.now)) }
    ensures within { IfSome result (λ section. section.offset + section.size ≤ length bytes.now) }
{
    if !has_section_table(bytes.len(), header) {
        return None;
    }
    let section = first_symbol_table(bytes, header)?;
    if section.is_sound_symbol_table(bytes.len()) {
        Some(section)
    } else {
        None
    }
}

#[tactic(auto, using(crate::proofs::Tables::slice_get_entries, crate::proofs::Tables::slice_get_entries_past), unfolding(crate::specs::Symbols::string_section, crate::specs::Symbols::section_headers))]
fn string_section(
    bytes: &[u8],
    header: &FileHeader,
    symbols: &SectionHeader,
) -> Option<SectionHeader>
    requires read { header.now ≡ file_header bytes.now }
    requires table { IsTrue (has_section_table (length bytes.now) header.now) }
    ensures section { result ≡ string_section bytes.now symbols.now }
    ensures within { IfSome result (λ section. section.offset + section.size ≤ length bytes.now) }
{
    if symbols.link >= u32::from(header.section_count) {
        return None;
    }
    let at = header.section_table as usize + SectionHeader::SIZE * symbols.link as usize;
    let section = SectionHeader::read(bytes, at);
    if section.is_sound_string_table(bytes.len()) {
        Some(section)
    } else {
        None
    }
}

fn section_bytes<'a>(bytes: &'a [u8], section: &SectionHeader) -> &'a [u8]
    requires { section.now.offset + section.now.size ≤ length bytes.now }
    ensures { result.now ≡ section_bytes bytes.now section.now }
{
    let start = section.offset as usize;
    &bytes[start..start + section.size as usize]
}

fn name_length(bytes: &[u8]) -> Option<usize>
    ensures first { result ≡ position (λ byte. byte == 0) bytes.now }
    ensures within { IfSome result (λ count. count < length bytes.now) }
{
    bytes.iter().position(|byte| *byte == 0)
}

fn name_in(bytes: &[u8]) -> Option<&str>
    ensures { option_map (λ name. name.now) result ≡ only_if is_name bytes.now }
{
    if bytes.is_empty() {
        return None;
    }
    match std::str::from_utf8(bytes) {
        Ok(name) => Some(name),
        Err(_) => None,
    }
}

#[tactic(auto, unfolding(crate::specs::Symbols::name_at))]
fn name_at(strings: &[u8], offset: u32) -> Option<&str>
    ensures { option_map (λ name. name.now) result ≡ name_at strings.now offset }
{
    let offset = offset as usize;
    if offset >= strings.len() {
        return None;
    }
    let rest = &strings[offset..];
    match name_length(rest) {
        Some(count) => name_in(&rest[..count]),
        None => None,
    }
}

#[tactic(auto, unfolding(crate::specs::Symbols::symbol_of))]
fn symbol_of(
    alloc: Global,
    strings: &[u8],
    entry: &SymbolEntry,
) -> Result<Option<Symbol>, AllocError>
    ensures { IfOk result (λ symbol. symbol ≡ symbol_of strings.now entry.now) }
{
    if !entry.names_address() {
        return Ok(None);
    }
    match name_at(strings, entry.name) {
        None => Ok(None),
        Some(name) => {
            let name = Text::from_string(String::from_str(alloc, name)?);
            Ok(Some(Symbol {
                name,
                value: entry.value,
                global: entry.is_global(),
            }))
        }
    }
}

#[tactic(auto, unfolding(crate::specs::Symbols::symbols_in))]
fn symbols_in(alloc: Global, table: &[u8], strings: &[u8]) -> Result<Vec<Symbol>, AllocError>
    ensures { IfOk result (λ symbols. symbols.items ≡ symbols_in table.now strings.now) }
{
    let mut symbols = Vec::new(alloc);
    for index in 0..table.len() / SymbolEntry::SIZE {
        let entry = SymbolEntry::read(table, SymbolEntry::SIZE * index);
        if let Some(symbol) = symbol_of(alloc, strings, &entry)? {
            symbols.push(symbol)?;
        }
    }
    Ok(symbols)
}

/// Whether the names take at most `NAME_BYTES` together. It looks at no more bytes than that.
fn names_fit(table: &[u8], strings: &[u8]) -> bool {
    let mut left = NAME_BYTES;
    for index in 0..table.len() / SymbolEntry::SIZE {
        let entry = SymbolEntry::read(table, SymbolEntry::SIZE * index);
        let offset = (entry.name as usize).min(strings.len());
        let rest = &strings[offset..];
        let seen = &rest[..rest.len().min(left)];
        let length = name_length(seen).unwrap_or(seen.len());
        if length == left {
            return false;
        }
        left -= length;
    }
    true
}

/// The kept symbols of a file; none where its tables are damaged.
#[tactic(auto, unfolding(crate::specs::Symbols::symbols_of))]
pub(crate) fn symbols_of(
    alloc: Global,
    bytes: &[u8],
    header: &FileHeader,
) -> Result<Vec<Symbol>, AllocError>
    requires { header.now ≡ file_header bytes.now }
    ensures { IfOk result (λ symbols. symbols.items ≡ symbols_of bytes.now) }
{
    let Some(table) = symbol_section(bytes, header) else {
        return Ok(Vec::new(alloc));
    };
    let Some(strings) = string_section(bytes, header, &table) else {
        return Ok(Vec::new(alloc));
    };
    let table = section_bytes(bytes, &table);
    let strings = section_bytes(bytes, &strings);
    if !names_fit(table, strings) {
        return Err(AllocError);
    }
    symbols_in(alloc, table, strings)
}
