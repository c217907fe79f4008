//! Files in memory by name, as both shelves in memory hold them.

ghost use Rattle.std.specs.Prelude.{◌≡◌, ◌<◌, ◌∷◌, ◌++◌, [], length, take, drop, min, string_bytes, is_some, nat_lt, unwrap_or, slice_index_or, IfOk};
ghost use Rattle.ct_outside.specs.Count.{raised_by};
ghost use Rattle.ct_outside.specs.Files.{file_of, named, contents};

use crate::NAMES;
use std::alloc::{AllocError, Global};
use std::marker::Model;

/// Files by name, the names that were asked for, and the file begun with the place in it.
#[derive(Drop)]
pub(crate) struct NamedFiles {
    files: Vec<(String, Vec<u8>)>,
    asked: Vec<String>,
    // The index of the file begun, or one past the last where none is.
    begun: usize,
    place: usize,
}

impl Model for NamedFiles {
    ghost use Rattle.std.specs.Prelude.{◌≤◌, [], length, drop, slice_index_or, vec_capacity};
    ghost use Rattle.ct_outside.specs.Files.{Named, named, contents, texts};
    ghost use Rattle.ct_outside.specs.declared.shelf.TheConstants.{NAMES};

    ghost Value = { Named };

    ghost view = { λ a. record {
      files = named a.files.items;
      asked = texts a.asked.items;
      remaining = drop a.place (slice_index_or (contents a.files.items) a.begun []);
      given = a.place;
    } };

    ghost invariant = { λ a. (NAMES ≤ vec_capacity a.asked)
        × (a.place ≤ length (slice_index_or (contents a.files.items) a.begun [])) };
}

// The index of the first file of this name, or one past the last where there is none.
fn index_of(files: &[(String, Vec<u8>)], name: &str) -> usize
    ensures found { nat_lt result (length files.now) ≡ is_some (file_of (named files.now) name.now) }
    ensures bytes { slice_index_or (contents files.now) result [] ≡ unwrap_or (file_of (named files.now) name.now) [] }
{
    for (index, file) in files.iter().enumerate() {
        if file.0.as_str() == name {
            return index;
        }
    }
    files.len()
}

// Puts bytes of `from` in front of `into`, as many as both have, and at most `most`.
fn copy_front(from: &[u8], into: &mut [u8], most: usize) -> usize
    ensures count { result ≡ min most (min (length into.old) (length from.now)) }
    ensures front { take result into.new ≡ take result from.now }
{
    let count = most.min(into.len().min(from.len()));
    into[..count].copy_from_slice(&from[..count]);
    count
}

impl NamedFiles {
    pub(crate) fn new(
        alloc: Global,
        files: Vec<(String, Vec<u8>)>,
    ) -> Result<NamedFiles, AllocError>
        ensures { IfOk result (λ shelf. shelf ≡ record { files = named files.items; asked = []; remaining = []; given = 0 }) }
    {
        let asked = Vec::with_capacity(alloc, NAMES)?;
        let begun = files.len();
        Ok(NamedFiles {
            files,
            asked,
            begun,
            place: 0,
        })
    }

    /// Asks for a name and begins its file. Says whether there is one; if not, none is begun.
    pub(crate) fn begin(&mut self, name: String) -> bool
        requires { length self.old.asked < NAMES }
        ensures found { result ≡ is_some (file_of self.old.files (string_bytes name)) }
        ensures after { self.new ≡ record self.old {
          asked = self.old.asked ++ string_bytes name ∷ [];
          remaining = unwrap_or (file_of self.old.files (string_bytes name)) [];
          given = 0;
        } }
    {
        self.begun = index_of(&self.files, name.as_str());
        self.place = 0;
        self.asked.push_reserved(name);
        self.begun < self.files.len()
    }

    /// Asks for a name, and begins no file.
    pub(crate) fn refuse(&mut self, name: String)
        requires { length self.old.asked < NAMES }
        ensures { self.new ≡ record self.old {
          asked = self.old.asked ++ string_bytes name ∷ [];
          remaining = [];
          given = 0;
        } }
    {
        self.begun = self.files.len();
        self.place = 0;
        self.asked.push_reserved(name);
    }

    /// Gives the next bytes of the file begun, at most so many.
    pub(crate) fn give(&mut self, into: &mut [u8], most: usize) -> usize
        ensures count { result ≡ min most (min (length into.old) (length self.old.remaining)) }
        ensures front { take result into.new ≡ take result self.old.remaining }
        ensures after { self.new ≡ record self.old {
          remaining = drop result self.old.remaining;
          given = raised_by result self.old.given;
        } }
    {
        let Some(file) = self.files.get(self.begun) else {
            return 0;
        };
        let count = copy_front(&file.1[self.place..], into, most);
        self.place += count;
        count
    }
}
