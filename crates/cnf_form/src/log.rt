//! Logs of derived clauses.
use crate::line::Line;
use crate::lists::Lists;
use crate::lit::Lit;
use std::alloc::{AllocError, Global};
use std::marker::Model;

/// Lines in order. Contracts see the list of them.
///
/// A line costs eight bytes for each literal and for each number of its chain, and sixteen more.
#[derive(Debug, Drop)]
pub struct Log {
    clauses: Lists<Lit>,
    chains: Lists<u64>,
}

impl Model for Log {
    ghost use Rattle.std.specs.Prelude.{◌≡◌, List, length};
    ghost use Rattle.cnf_form.specs.declared.line.Line.{Line};
    ghost use Rattle.cnf_form.specs.Lines.{lines_of};

    ghost Value = { List Line };

    ghost view = { λ log. lines_of log.clauses log.chains };

    ghost invariant = { λ log. length log.clauses ≡ length log.chains };
}

impl Log {
    ghost use Rattle.std.specs.Prelude.{◌≡◌, ◌<◌, ◌++◌, ◌∷◌, [], Some, length, slice_get, map, OnOk, OnErr};
    ghost use Rattle.cnf_form.specs.Lines.{clause_of, chain_of};

    pub fn new(alloc: Global) -> Log
        ensures { result ≡ [] }
    {
        Log {
            clauses: Lists::new(alloc),
            chains: Lists::new(alloc),
        }
    }

    pub fn len(&self) -> usize
        ensures { result ≡ length self.now }
    {
        self.clauses.len()
    }

    /// One line more, at the end.
    pub fn push(&mut self, line: &Line) -> Result<(), AllocError>
        ensures pushed { OnOk result (self.new ≡ self.old ++ line.now ∷ []) }
        ensures kept { OnErr result (self.new ≡ self.old) }
    {
        let count = self.clauses.len();
        self.clauses.push(line.clause.lits())?;
        match self.chains.push(line.chain.as_slice()) {
            Ok(()) => Ok(()),
            Err(error) => {
                self.clauses.truncate(count);
                Err(error)
            }
        }
    }

    /// The clause of a line.
    pub fn clause(&self, at: usize) -> &[Lit]
        requires { at < length self.now }
        ensures { slice_get (map clause_of self.now) at ≡ Some result.now }
    {
        self.clauses.get(at)
    }

    /// The chain of a line.
    pub fn chain(&self, at: usize) -> &[u64]
        requires { at < length self.now }
        ensures { slice_get (map chain_of self.now) at ≡ Some result.now }
    {
        self.chains.get(at)
    }
}
