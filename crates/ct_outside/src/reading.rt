//! The call that reads a file whole.

ghost use Rattle.std.specs.Prelude.{◌≡◌, ◌<◌, ◌≤◌, ◌↔◌, ◌^◌, ◌∷◌, ◌++◌, [], Some, length, vec_len, string_bytes, IfSome, IfNone, IfOk, IsErrOf};
ghost use Rattle.ct_outside.specs.declared.reading.ReadEnd.TheVariants.{Memory, Fault};
ghost use Rattle.ct_outside.specs.Count.{Rose};

use crate::{Failed, NAMES, Shelf};
use std::alloc::{AllocError, Global};

/// The greatest number of bytes of a file that is read.
pub const LONGEST: usize = 1 << 26;

// How many bytes are asked for at a time.
const PIECE: usize = 4096;

/// Why a file wasn't read whole.
#[derive(Clone, Copy, Debug, PartialEq, Eq)]
pub enum ReadEnd {
    /// There was no memory for its bytes.
    Memory,
    /// The shelf failed, or has no file of this name.
    Fault,
    /// It has more than `LONGEST` bytes.
    Long,
}

impl From<AllocError> for ReadEnd {
    ghost from_gives = { λ _ end. end ≡ Memory };

    fn from(_: AllocError) -> Self {
        ReadEnd::Memory
    }
}

impl From<Failed> for ReadEnd {
    ghost from_gives = { λ _ end. end ≡ Fault };

    fn from(_: Failed) -> Self {
        ReadEnd::Fault
    }
}

/// All bytes of the file of this name, of which there may be `LONGEST`.
pub fn read_all<F: Shelf>(alloc: Global, shelf: &mut F, name: String) -> Result<Vec<u8>, ReadEnd>
    requires { length (F.asked shelf.old) < NAMES }
    ensures whole { IfOk result (λ text. IfSome (F.files shelf.old)
        (λ known. known (string_bytes name) ≡ Some text.items)) }
    ensures size { IfOk result (λ text. vec_len text ≤ LONGEST) }
    ensures counted { IfOk result (λ text. F.given shelf.new ≡ length text.items) }
    ensures fault { IsErrOf result ReadEnd.Fault → Rose (F.faults shelf.old) (F.faults shelf.new) }
    ensures absent { IfSome (F.files shelf.old)
        (λ known. IfNone (known (string_bytes name)) (IsErrOf result ReadEnd.Fault)) }
    ensures long { IsErrOf result ReadEnd.Long ↔ (LONGEST < F.given shelf.new) }
    ensures within { IfSome (F.files shelf.old)
        (λ known. IfSome (known (string_bytes name)) (λ bytes. F.given shelf.new ≤ length bytes)) }
    ensures asks { F.asked shelf.new ≡ F.asked shelf.old ++ string_bytes name ∷ [] }
    ensures counts { F.faults shelf.old ≤ F.faults shelf.new }
    ensures same_files { F.files shelf.new ≡ F.files shelf.old }
{
    shelf.begin(name)?;
    let mut text = Vec::new(alloc);
    let mut piece = [0u8; PIECE];
    for _turn in 0..=LONGEST {
        let count = shelf.read(&mut piece)?;
        if count == 0 {
            return Ok(text);
        }
        if LONGEST - text.len() < count {
            return Err(ReadEnd::Long);
        }
        text.extend_from_slice(&piece[..count])?;
    }
    unreachable!()
}
