//! The rules that a file meets, tried in order.
ghost use Rattle.std.specs.Prelude.{◌≡◌, ◌≤◌, ◌<◌, length, IfSome};
ghost use Rattle.ct_rows.specs.Rules.{first_of};
ghost use Rattle.elf_load.specs.File.{header_rules, segment_rules, first_refusal, first_misplaced, is_static, has_small_memory, has_program_table};

use crate::file_header::FileHeader;
use crate::format::{
    ELF_MAGIC, ELFCLASS32, ELFDATA2LSB, EM_RISCV, ET_EXEC, EV_CURRENT, MOST_MEMORY,
};
use crate::program_header::ProgramHeader;
use crate::range::first_overlap;
use crate::refusal::ElfRefusal;
use crate::table::program_table;

fn header_refusal(header: &FileHeader) -> Option<ElfRefusal>
    ensures { result ≡ first_of (header_rules header.now) }
{
    if header.class != ELFCLASS32 {
        Some(ElfRefusal::Class)
    } else if header.order != ELFDATA2LSB {
        Some(ElfRefusal::Order)
    } else if header.identity_version != EV_CURRENT || header.version != u32::from(EV_CURRENT) {
        Some(ElfRefusal::Version)
    } else if header.kind != ET_EXEC {
        Some(ElfRefusal::Kind)
    } else if header.machine != EM_RISCV {
        Some(ElfRefusal::Machine)
    } else if header.flags % 2 != 0 {
        Some(ElfRefusal::Compressed)
    } else {
        None
    }
}

fn has_program_table(size: usize, header: &FileHeader) -> bool
    ensures { result ≡ has_program_table size header.now }
{
    header.program_count >= 1
        && header.program_count as usize <= ProgramHeader::MOST
        && header.program_entry_size as usize == ProgramHeader::SIZE
        && header.program_table as usize + ProgramHeader::SIZE * header.program_count as usize
            <= size
}

fn is_static(headers: &[ProgramHeader]) -> bool
    ensures { result ≡ is_static headers.now }
{
    !headers.iter().any(|header| header.is_dynamic())
}

#[tactic(auto, unfolding(crate::specs::File::first_misplaced))]
fn first_misplaced(size: usize, headers: &[ProgramHeader]) -> Option<usize>
    ensures first { result ≡ first_misplaced size headers.now }
    ensures within { IfSome result (λ index. index < length headers.now) }
{
    headers
        .iter()
        .position(|header| header.is_load() && !header.is_within(size))
}

fn has_small_memory(headers: &[ProgramHeader]) -> bool
    requires { length headers.now ≤ 64 }
    ensures { result ≡ has_small_memory headers.now }
{
    let mut total: u64 = 0;
    for header in headers {
        total += u64::from(header.loaded_size());
    }
    total <= MOST_MEMORY
}

fn segment_refusal(size: usize, headers: &[ProgramHeader]) -> Option<ElfRefusal>
    requires { length headers.now ≤ 64 }
    ensures { result ≡ first_of (segment_rules size headers.now) }
{
    if !is_static(headers) {
        return Some(ElfRefusal::Dynamic);
    }
    if let Some(index) = first_misplaced(size, headers) {
        return Some(ElfRefusal::Segment(index as u32));
    }
    if let Some((left, right)) = first_overlap(headers) {
        return Some(ElfRefusal::Overlap(left as u32, right as u32));
    }
    if has_small_memory(headers) {
        None
    } else {
        Some(ElfRefusal::Large)
    }
}

/// The first rule that fails, in the order E1 to E13.
#[tactic(auto, unfolding(crate::specs::File::first_refusal, crate::specs::File::program_headers))]
pub(crate) fn first_refusal(bytes: &[u8]) -> Option<ElfRefusal>
    ensures { result ≡ first_refusal bytes.now }
{
    if bytes.len() < FileHeader::SIZE {
        return Some(ElfRefusal::Short);
    }
    if !bytes.starts_with(&ELF_MAGIC) {
        return Some(ElfRefusal::Magic);
    }
    let header = FileHeader::read(bytes);
    if let Some(refusal) = header_refusal(&header) {
        return Some(refusal);
    }
    if !has_program_table(bytes.len(), &header) {
        return Some(ElfRefusal::Table);
    }
    let count = header.program_count as usize;
    let table = program_table(bytes, header.program_table as usize, count);
    segment_refusal(bytes.len(), &table[..count])
}
