//! A shelf of files in memory that never fails.

ghost use Rattle.std.specs.Prelude.{◌≡◌, ◌<◌, ◌∷◌, ◌++◌, [], Some, length, take, drop, min, string_bytes, unwrap_or, IsOk, IfOk};
ghost use Rattle.ct_outside.specs.Count.{raised_by};
ghost use Rattle.ct_outside.specs.Files.{file_of, named};

use crate::named_files::NamedFiles;
use crate::{Failed, NAMES, Shelf};
use std::alloc::{AllocError, Global};
use std::marker::Model;

/// Files in memory whose calls never fail: a name that isn't there means an empty file. Of two files
/// of one name the first stands.
#[derive(Drop)]
pub struct NeverShelf {
    held: NamedFiles,
}

impl Model for NeverShelf {
    ghost use Rattle.ct_outside.specs.Files.{Named};

    ghost Value = { Named };

    ghost view = { λ a. a.held };
}

impl NeverShelf {
    /// The files by their names; none is begun.
    pub fn new(alloc: Global, files: Vec<(String, Vec<u8>)>) -> Result<NeverShelf, AllocError>
        ensures { IfOk result (λ shelf. shelf ≡ record {
          files = named files.items;
          asked = [];
          remaining = [];
          given = 0;
        }) }
    {
        Ok(NeverShelf {
            held: NamedFiles::new(alloc, files)?,
        })
    }
}

impl Shelf for NeverShelf {
    ghost files = { λ s. Some (λ name. Some (unwrap_or (file_of s.files name) [])) };

    ghost remaining = { λ s. Some s.remaining };

    ghost asked = { λ s. s.asked };

    ghost given = { λ s. s.given };

    ghost faults = { λ _. 0 };

    fn begin(&mut self, name: String) -> Result<(), Failed>
        requires { length self.old.asked < NAMES }
        ensures never { IsOk result }
        ensures after { self.new ≡ record self.old {
          asked = self.old.asked ++ string_bytes name ∷ [];
          remaining = unwrap_or (file_of self.old.files (string_bytes name)) [];
          given = 0;
        } }
    {
        let _there = self.held.begin(name);
        Ok(())
    }

    fn read(&mut self, into: &mut [u8]) -> Result<usize, Failed>
        requires { 0 < length into.old }
        ensures never { IsOk result }
        ensures most { IfOk result (λ count. count ≡ min (length into.old) (length self.old.remaining)) }
        ensures front { IfOk result (λ count. take count into.new ≡ take count self.old.remaining) }
        ensures after { IfOk result (λ count. self.new ≡ record self.old {
          remaining = drop count self.old.remaining;
          given = raised_by count self.old.given;
        }) }
    {
        let most = into.len();
        Ok(self.held.give(into, most))
    }
}
