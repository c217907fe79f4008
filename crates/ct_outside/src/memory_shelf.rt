//! A shelf of files in memory, with faults where a test wants them.

ghost use Rattle.std.specs.Prelude.{◌≡◌, ◌<◌, ◌≤◌, ◌∷◌, ◌++◌, ◌&&◌, [], Some, length, take, drop, min, not, string_bytes, is_ok, is_some, unwrap_or, IfOk, OnOk, OnErr};
ghost use Rattle.ct_outside.specs.Calls.{is_listed};
ghost use Rattle.ct_outside.specs.Count.{raised_by};
ghost use Rattle.ct_outside.specs.Files.{file_of, named};

use crate::failing_calls::FailingCalls;
use crate::named_files::NamedFiles;
use crate::{Failed, NAMES, Shelf};
use std::alloc::{AllocError, Global};
use std::marker::Model;

/// Files in memory, read in pieces, whose calls of chosen numbers fail. Of two files of one name
/// the first stands.
#[derive(Drop)]
pub struct MemoryShelf {
    held: NamedFiles,
    calls: FailingCalls,
    piece: usize,
    faults: u64,
}

impl Model for MemoryShelf {
    ghost use Rattle.std.specs.Prelude.{◌<◌};
    ghost use Rattle.ct_outside.specs.Memory.{ShelfState};

    ghost Value = { ShelfState };

    ghost view = { λ a. record {
      files = a.held.files;
      asked = a.held.asked;
      remaining = a.held.remaining;
      given = a.held.given;
      failing = a.calls.failing.items;
      piece = a.piece;
      calls = a.calls.made;
      faults = a.faults;
    } };

    ghost invariant = { λ a. 0 < a.piece };
}

impl MemoryShelf {
    /// Calls of `begin` and `read` are counted together from 0, and those listed in `failing` fail.
    /// A read gives at most `piece` bytes.
    pub fn new(
        alloc: Global,
        files: Vec<(String, Vec<u8>)>,
        failing: Vec<u64>,
        piece: usize,
    ) -> Result<MemoryShelf, AllocError>
        requires { 0 < piece }
        ensures { IfOk result (λ shelf. shelf ≡ record {
          files = named files.items;
          asked = [];
          remaining = [];
          given = 0;
          failing = failing.items;
          piece = piece;
          calls = 0;
          faults = 0;
        }) }
    {
        Ok(MemoryShelf {
            held: NamedFiles::new(alloc, files)?,
            calls: FailingCalls { failing, made: 0 },
            piece,
            faults: 0,
        })
    }

    fn fault(&mut self) -> Failed
        ensures { self.new ≡ record self.old { faults = raised_by 1 self.old.faults } }
    {
        self.faults = self.faults.saturating_add(1);
        Failed
    }
}

impl Shelf for MemoryShelf {
    ghost files = { λ s. Some (file_of s.files) };

    ghost remaining = { λ s. Some s.remaining };

    ghost asked = { λ s. s.asked };

    ghost given = { λ s. s.given };

    ghost faults = { λ s. s.faults };

    fn begin(&mut self, name: String) -> Result<(), Failed>
        requires { length self.old.asked < NAMES }
        ensures answers { is_ok result ≡ (not (is_listed self.old.failing self.old.calls)
            && is_some (file_of self.old.files (string_bytes name))) }
        ensures ok { OnOk result (self.new ≡ record self.old {
          asked = self.old.asked ++ string_bytes name ∷ [];
          remaining = unwrap_or (file_of self.old.files (string_bytes name)) [];
          given = 0;
          calls = raised_by 1 self.old.calls;
        }) }
        ensures err { OnErr result (self.new ≡ record self.old {
          asked = self.old.asked ++ string_bytes name ∷ [];
          remaining = [];
          given = 0;
          calls = raised_by 1 self.old.calls;
          faults = raised_by 1 self.old.faults;
        }) }
        ensures counts { self.old.faults ≤ self.new.faults }
    {
        if self.calls.fails_next() {
            self.held.refuse(name);
            return Err(self.fault());
        }
        if !self.held.begin(name) {
            return Err(self.fault());
        }
        Ok(())
    }

    fn read(&mut self, into: &mut [u8]) -> Result<usize, Failed>
        requires { 0 < length into.old }
        ensures answers { is_ok result ≡ not (is_listed self.old.failing self.old.calls) }
        ensures most { IfOk result (λ count.
            count ≡ min self.old.piece (min (length into.old) (length self.old.remaining))) }
        ensures front { IfOk result (λ count. take count into.new ≡ take count self.old.remaining) }
        ensures ok { IfOk result (λ count. self.new ≡ record self.old {
          remaining = drop count self.old.remaining;
          given = raised_by count self.old.given;
          calls = raised_by 1 self.old.calls;
        }) }
        ensures err { OnErr result (self.new ≡ record self.old {
          calls = raised_by 1 self.old.calls;
          faults = raised_by 1 self.old.faults;
        }) }
        ensures ends { IfOk result (λ count. count ≡ 0 → self.old.remaining ≡ []) }
        ensures counts { self.old.faults ≤ self.new.faults }
    {
        if self.calls.fails_next() {
            return Err(self.fault());
        }
        Ok(self.held.give(into, self.piece))
    }
}
