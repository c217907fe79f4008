//! Lists kept end to end in one vector.
ghost use Rattle.std.specs.Prelude.{◌≡◌, ◌<◌, Some, length, slice_get};
ghost use Rattle.cnf_form.specs.Pieces.{pieces, start_of, AreEnds};

use std::alloc::{AllocError, Global};
use std::marker::Model;

/// Lists of small values: the values of all of them in one vector, and where each list ends in another.
///
/// Contracts see a list of lists. A list costs its values and eight bytes.
#[derive(Debug, Drop)]
pub(crate) struct Lists<T> {
    items: Vec<T>,
    ends: Vec<usize>,
}

impl<T> Model for Lists<T> {
    ghost use Rattle.std.specs.Prelude.{List};
    ghost use Rattle.std.specs.Coded.{coded_list};
    ghost use Rattle.cnf_form.specs.Pieces.{pieces, AreEnds};

    ghost Value = { List (List T) };

    ghost coded = { coded_list (coded_list T.code) };

    ghost view = { λ lists. pieces lists.items.items 0 lists.ends.items };

    ghost invariant = { λ lists. AreEnds lists.items.items 0 lists.ends.items };
}

impl<T: Copy> Lists<T> {
    ghost use Rattle.std.specs.Prelude.{◌≡◌, ◌<◌, ◌++◌, ◌∷◌, [], Some, length, take, slice_get, OnOk, OnErr};

    pub(crate) fn new(alloc: Global) -> Lists<T>
        ensures { result ≡ [] }
    {
        Lists {
            items: Vec::new(alloc),
            ends: Vec::new(alloc),
        }
    }

    pub(crate) fn len(&self) -> usize
        ensures { result ≡ length self.now }
    {
        self.ends.len()
    }

    /// One list more, at the end.
    pub(crate) fn push(&mut self, list: &[T]) -> Result<(), AllocError>
        ensures pushed { OnOk result (self.new ≡ self.old ++ list.now ∷ []) }
        ensures kept { OnErr result (self.new ≡ self.old) }
    {
        self.ends.reserve(1)?;
        self.items.extend_from_slice(list)?;
        self.ends.push_reserved(self.items.len());
        Ok(())
    }

    /// Keeps the first lists, as many as are told.
    pub(crate) fn truncate(&mut self, count: usize)
        ensures { self.new ≡ take count self.old }
    {
        if count < self.ends.len() {
            let end = start(self.ends.as_slice(), count);
            self.items.truncate(end);
            self.ends.truncate(count);
        }
    }

    /// The list at an index.
    pub(crate) fn get(&self, at: usize) -> &[T]
        requires { at < length self.now }
        ensures { slice_get self.now at ≡ Some result.now }
    {
        piece(self.items.as_slice(), self.ends.as_slice(), at)
    }
}

/// One piece of the values, by where the pieces end.
fn piece<'a, T>(items: &'a [T], ends: &[usize], at: usize) -> &'a [T]
    requires ends { AreEnds items.now 0 ends.now }
    requires within { at < length ends.now }
    ensures { slice_get (pieces items.now 0 ends.now) at ≡ Some result.now }
{
    let from = start(ends, at);
    let end = ends[at];
    &items[from..end]
}

/// Where a piece starts: at the end of the one before it.
fn start(ends: &[usize], at: usize) -> usize
    requires { at < length ends.now }
    ensures { result ≡ start_of 0 ends.now at }
{
    if at == 0 { 0 } else { ends[at - 1] }
}
