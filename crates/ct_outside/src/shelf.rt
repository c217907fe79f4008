//! The trait of what files are read from.

ghost use Rattle.std.specs.Prelude.{◌≡◌, ◌<◌, ◌≤◌, ◌∷◌, ◌++◌, [], ℕ, List, Option, length, take, is_some, string_bytes, IsSome, IfSome, IfOk, OnOk, OnErr};
ghost use Rattle.ct_outside.specs.Count.{raised_by, Rose};
ghost use Rattle.ct_outside.specs.Told.{told_prepend};

use crate::Failed;

/// How many names a shelf has room for.
pub const NAMES: usize = 16;

/// Files by name, of which one at a time is begun and read from front to back.
pub trait Shelf {
    /// For each name the bytes of its file, or that there is no such file, where the shelf tells its files.
    ghost files: { Self → Option (List ℕ → Option (List ℕ)) };

    /// The bytes of the file begun from the place in it on, where the shelf tells them. There are
    /// none at the end of the file, and none where no file is begun.
    ghost remaining: { Self → Option (List ℕ) };

    /// The names that `begin` was called with, in order.
    ghost asked: { Self → List (List ℕ) };

    /// How many bytes `read` gave since the last call of `begin`.
    ghost given: { Self → ℕ };

    /// How many calls have failed.
    ghost faults: { Self → ℕ };

    /// Begins the file of this name at its first byte. A name that isn't there fails, and after a
    /// failure no file is begun. A shelf has room for `NAMES` of them.
    fn begin(&mut self, name: String) -> Result<(), Failed>
        requires { length (asked self.old) < NAMES }
        ensures asks { asked self.new ≡ asked self.old ++ string_bytes name ∷ [] }
        ensures found { OnOk result (IfSome (files self.old) (λ known. IsSome (known (string_bytes name)))) }
        ensures begun { OnOk result (IfSome (files self.old)
            (λ known. remaining self.new ≡ known (string_bytes name))) }
        ensures none_begun { OnErr result (IfSome (remaining self.new) (λ rest. rest ≡ [])) }
        ensures restarts { given self.new ≡ 0 }
        ensures cause { OnErr result (Rose (faults self.old) (faults self.new)) }
        ensures counts { faults self.old ≤ faults self.new }
        ensures same_files { files self.new ≡ files self.old }
        ensures tells { is_some (remaining self.new) ≡ is_some (remaining self.old) };

    /// Puts the next bytes of the file begun in front of `into`, and says how many. None come only
    /// at the end of the file, or where no file is begun. A failure gives none and leaves the place.
    fn read(&mut self, into: &mut [u8]) -> Result<usize, Failed>
        requires { 0 < length into.old }
        ensures fits { IfOk result (λ count. count ≤ length into.new) }
        ensures gives { IfOk result (λ count.
            told_prepend (take count into.new) (remaining self.new) ≡ remaining self.old) }
        ensures ends { IfOk result (λ count. count ≡ 0 → IfSome (remaining self.old) (λ rest. rest ≡ [])) }
        ensures given { IfOk result (λ count. given self.new ≡ raised_by count (given self.old)) }
        ensures cause { OnErr result (Rose (faults self.old) (faults self.new)) }
        ensures counts { faults self.old ≤ faults self.new }
        ensures stays { OnErr result (remaining self.new ≡ remaining self.old) }
        ensures gives_none { OnErr result (given self.new ≡ given self.old) }
        ensures same_files { files self.new ≡ files self.old }
        ensures same_names { asked self.new ≡ asked self.old };
}
