//! Loading: from the bytes of a file to the executable that they stand for.
ghost use Rattle.std.specs.Prelude.{◌≡◌, ◌≢◌, length, IfOk, IfErr, IfSome, IsTrue};
ghost use Rattle.elf_load.specs.Fields.{bytes_at};
ghost use Rattle.elf_load.specs.File.{is_within, first_misplaced, first_refusal};
ghost use Rattle.elf_load.specs.Loading.{loaded_bytes, segment_of, segments_of, elf_of};
ghost use Rattle.elf_load.specs.Layout.{FitsMemory, segment_extents, HoldsBytes};

use crate::elf::Elf;
use crate::file_header::FileHeader;
use crate::program_header::ProgramHeader;
use crate::refusal::ElfRefusal;
use crate::rules::first_refusal;
use crate::segment::Segment;
use crate::symbol_table::symbols_of;
use crate::table::program_table;
use ct_rows::Row;
use std::alloc::{AllocError, Global};

fn file_bytes<'a>(bytes: &'a [u8], header: &ProgramHeader) -> &'a [u8]
    requires { IsTrue (is_within (length bytes.now) header.now) }
    ensures { result.now ≡ bytes_at header.now.file_size header.now.offset bytes.now }
{
    if header.file_size == 0 {
        return &[];
    }
    let start = header.offset as usize;
    &bytes[start..start + header.file_size as usize]
}

#[tactic(auto, unfolding(crate::specs::Loading::loaded_bytes))]
fn loaded_bytes(alloc: Global, bytes: &[u8], header: &ProgramHeader) -> Result<Vec<u8>, AllocError>
    requires { IsTrue (is_within (length bytes.now) header.now) }
    ensures { IfOk result (λ loaded. loaded.items ≡ loaded_bytes bytes.now header.now) }
{
    let size = header.memory_size as usize;
    let mut loaded = Vec::with_capacity(alloc, size)?;
    loaded.extend_from_slice(file_bytes(bytes, header))?;
    loaded.resize(size, 0)?;
    Ok(loaded)
}

#[tactic(auto, unfolding(crate::specs::Loading::segment_of))]
fn segment_of(alloc: Global, bytes: &[u8], header: &ProgramHeader) -> Result<Segment, AllocError>
    requires { IsTrue (is_within (length bytes.now) header.now) }
    ensures { IfOk result (λ segment. segment ≡ segment_of bytes.now header.now) }
{
    let loaded = loaded_bytes(alloc, bytes, header)?;
    Ok(Segment {
        address: header.address,
        bytes: Row::from_vec(loaded),
        read: header.flags / 4 % 2 == 1,
        write: header.flags / 2 % 2 == 1,
        exec: header.flags % 2 == 1,
    })
}

fn segments_of(
    alloc: Global,
    bytes: &[u8],
    headers: &[ProgramHeader],
) -> Result<Vec<Segment>, AllocError>
    requires { first_misplaced (length bytes.now) headers.now ≡ None }
    ensures { IfOk result (λ segments. segments.items ≡ segments_of bytes.now headers.now) }
{
    let mut segments = Vec::new(alloc);
    for header in headers {
        if header.loads_bytes() {
            let segment = segment_of(alloc, bytes, header)?;
            segments.push(segment)?;
        }
    }
    Ok(segments)
}

/// Loads a static RISC-V executable (System V ABI, RISC-V psABI) from the bytes of its file.
///
/// Damaged section, symbol or string tables leave the executable without symbols, and are no
/// reason to refuse it. Time and memory grow with the file's bytes, the segments' sizes and the
/// names, which may overlap; names of more than 2^28 bytes together are want of memory.
pub fn load(alloc: Global, bytes: &[u8]) -> Result<Elf, ElfRefusal>
    // The file meets E1 to E13, and the executable is the one for which it stands.
    ensures loaded { IfOk result (λ elf. (first_refusal bytes.now ≡ None) × (elf ≡ elf_of bytes.now)) }
    // The file fails this rule first, unless memory ran out.
    ensures refused { IfErr result
        (λ refusal. refusal ≢ ElfRefusal.Memory → first_refusal bytes.now ≡ Some refusal) }
    // A file that fails a rule is always refused for it, and never for want of memory.
    ensures failing { IfSome (first_refusal bytes.now) (λ refusal. result ≡ Err refusal) }
    // The segments are apart, and within memory.
    ensures fits { IfOk result (λ elf. FitsMemory (segment_extents elf)) }
    ensures bytes { IfOk result HoldsBytes }
{
    if let Some(refusal) = first_refusal(bytes) {
        return Err(refusal);
    }
    let header = FileHeader::read(bytes);
    let count = header.program_count as usize;
    let table = program_table(bytes, header.program_table as usize, count);
    let segments = segments_of(alloc, bytes, &table[..count])?;
    let symbols = symbols_of(alloc, bytes, &header)?;
    Ok(Elf {
        segments: Row::from_vec(segments),
        entry: header.entry,
        symbols: Row::from_vec(symbols),
    })
}
