//! The program header table of a file.
ghost use Rattle.std.specs.Prelude.{◌≡◌, ◌+◌, ◌*◌, ◌≤◌, length, take};
ghost use Rattle.elf_load.specs.Fields.{entries};
ghost use Rattle.elf_load.specs.File.{program_header};

use crate::program_header::ProgramHeader;

/// So many program headers from an offset of the file on, in an array that has room for them.
#[tactic(auto, using(crate::proofs::Tables::entries_none, crate::proofs::Tables::entries_more))]
pub(crate) fn program_table(
    bytes: &[u8],
    offset: usize,
    count: usize,
) -> [ProgramHeader; ProgramHeader::MOST]
    requires few { count ≤ 64 }
    requires within { offset + 32 * count ≤ length bytes.now }
    ensures size { length result ≡ 64 }
    ensures table { take count result ≡ entries program_header 32 count offset bytes.now }
{
    let mut table = [ProgramHeader::EMPTY; ProgramHeader::MOST];
    for index in 0..count {
        table[index] = ProgramHeader::read(bytes, offset + ProgramHeader::SIZE * index);
    }
    table
}
