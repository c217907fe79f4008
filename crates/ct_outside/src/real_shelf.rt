//! The shelf of the system's files.

ghost use Rattle.std.specs.Prelude.{◌≡◌, [], None, IfOk};

use crate::{Failed, NAMES, Shelf};
use std::alloc::{AllocError, Global};
use std::fs;
use std::io::Read;
use std::marker::Model;
use std::rt::Files;

/// The files of the system by their paths. It tells no bytes of them.
#[derive(Drop)]
pub struct RealShelf<R: Files + Drop> {
    rt: R,
    file: Option<R::File>,
    asked: Vec<String>,
    given: u64,
    faults: u64,
}

impl<R: Files + Drop> Model for RealShelf<R> {
    ghost use Rattle.std.specs.Prelude.{◌≤◌, vec_capacity};
    ghost use Rattle.ct_outside.specs.Files.{texts};
    ghost use Rattle.ct_outside.specs.Real.{RealState};
    ghost use Rattle.ct_outside.specs.declared.shelf.TheConstants.{NAMES};

    ghost Value = { RealState };

    ghost view = { λ a. record { asked = texts a.asked.items; given = a.given; faults = a.faults } };

    ghost invariant = { λ a. NAMES ≤ vec_capacity a.asked };
}

impl<R: Files + Drop> RealShelf<R> {
    /// Over a runtime that may open files; none is begun.
    pub fn new(alloc: Global, rt: R) -> Result<RealShelf<R>, AllocError>
        ensures { IfOk result (λ shelf. shelf ≡ record { asked = []; given = 0; faults = 0 }) }
    {
        let asked = Vec::with_capacity(alloc, NAMES)?;
        Ok(RealShelf {
            rt,
            file: None,
            asked,
            given: 0,
            faults: 0,
        })
    }
}

impl<R: Files + Drop> Shelf for RealShelf<R> {
    ghost files = { λ _. None };

    ghost remaining = { λ _. None };

    ghost asked = { λ s. s.asked };

    ghost given = { λ s. s.given };

    ghost faults = { λ s. s.faults };

    fn begin(&mut self, name: String) -> Result<(), Failed> {
        let opened = fs::open(&self.rt, name.as_str());
        self.asked.push_reserved(name);
        self.given = 0;
        match opened {
            Ok(file) => {
                self.file = Some(file);
                Ok(())
            }
            Err(_) => {
                self.file = None;
                self.faults = self.faults.saturating_add(1);
                Err(Failed)
            }
        }
    }

    fn read(&mut self, into: &mut [u8]) -> Result<usize, Failed> {
        let Some(file) = &mut self.file else {
            return Ok(0);
        };
        match file.read(into) {
            Ok(count) => {
                self.given = self.given.saturating_add(count as u64);
                Ok(count)
            }
            Err(_) => {
                self.faults = self.faults.saturating_add(1);
                Err(Failed)
            }
        }
    }
}
