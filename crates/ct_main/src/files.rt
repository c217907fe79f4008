//! The files of a command, read and loaded.

ghost use Rattle.std.specs.Prelude.{◌≡◌, ◌≢◌, ◌<◌, ◌≤◌, None, Some, length, IfOk, IfErr, MatchResult};
ghost use Rattle.elf_load.specs.File.{first_refusal};
ghost use Rattle.elf_load.specs.Loading.{elf_of};
ghost use Rattle.elf_load.specs.Layout.{FitsMemory, segment_extents};
ghost use Rattle.ct_main.specs.Outside.{read_of};
ghost use Rattle.ct_main.specs.Tasks.{IsRead, IsUnread};

use ct_outside::{NAMES, ReadEnd, Shelf, read_all};
use ct_rows::Text;
use elf_load::{Elf, ElfRefusal, load};
use std::alloc::Global;

/// All bytes of the file of a name.
pub fn read_file<F: Shelf>(alloc: Global, shelf: &mut F, name: &Text) -> Result<Vec<u8>, ReadEnd>
    requires { length (F.asked shelf.old) < NAMES }
    ensures read { MatchResult result
        (λ bytes. IsRead (read_of F.files F.asked F.given F.faults shelf.old shelf.new) name.now bytes.items)
        (IsUnread (read_of F.files F.asked F.given F.faults shelf.old shelf.new) name.now) }
    ensures counts { F.faults shelf.old ≤ F.faults shelf.new }
    ensures same_files { F.files shelf.new ≡ F.files shelf.old }
{
    let name = name.copy(alloc)?;
    read_all(alloc, shelf, name.into_string())
}

/// The executable of a file's bytes, which are held no longer.
pub fn load_file(alloc: Global, bytes: Vec<u8>) -> Result<Elf, ElfRefusal>
    ensures loaded { IfOk result (λ elf. (first_refusal bytes.items ≡ None) × (elf ≡ elf_of bytes.items)) }
    ensures refused { IfErr result (λ rule. rule ≢ ElfRefusal.Memory → first_refusal bytes.items ≡ Some rule) }
    ensures fits { IfOk result (λ elf. FitsMemory (segment_extents elf)) }
{
    load(alloc, bytes.as_slice())
}
