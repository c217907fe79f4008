//! The trail: what is assigned, in the order in which it came.
use crate::entry::Entry;
use crate::mark::Mark;
use cnf_form::{Assignment, Lit};
use ct_rows::Row;
use std::alloc::{AllocError, Global};
use std::marker::Model;

/// What is assigned. Contracts see the number of variables and the entries, the newest first.
#[derive(Debug, Drop)]
pub(crate) struct Trail {
    entries: Vec<Entry>,
    marks: Vec<Option<Mark>>,
    level: usize,
}

impl Model for Trail {
    ghost use Rattle.std.specs.Prelude.{reverse, length};
    ghost use Rattle.cdcl.specs.Trail.{Assigned};
    ghost use Rattle.cdcl.specs.Marks.{IsKept};

    ghost Value = { Assigned };

    ghost view = { λ trail. record { vars = length trail.marks.items; entries = reverse trail.entries.items } };

    ghost invariant = { λ trail. IsKept trail.marks.items trail.level trail.entries.items };
}

impl Trail {
    ghost use Rattle.std.specs.Prelude.{◌≡◌, ◌<◌, ◌≤◌, ◌^◌, ◌∷◌, [], true, IsTrue, IfOk, OnOk, ◌++◌, IfSome, IfNone, false, reverse, length};
    ghost use Rattle.std.specs.Bool.{MatchBool};
    ghost use Rattle.std.specs.Option.{option_to_list};
    ghost use Rattle.cnf_form.specs.Literals.{flip, has};
    ghost use Rattle.cnf_form.specs.Clauses.{all_below};
    ghost use Rattle.cnf_form.specs.News.{is_free, are_distinct};
    ghost use Rattle.cdcl.specs.Trail.{level_of, below, lits_of, mark_of, back_to};
    ghost use Rattle.cdcl.specs.Marks.{IsFull, AreValues};
    ghost use Rattle.cdcl.specs.Status.{IsValue};
    ghost use Rattle.cdcl.specs.Jump.{IsLower, IsAt};
    ghost use Rattle.cdcl.specs.Watch.{IsPlacedAt};

    /// A trail for so many variables, on which nothing is assigned.
    pub(crate) fn new(alloc: Global, vars: usize) -> Result<Trail, AllocError>
        requires { vars ≤ 2 ^ 32 }
        ensures { IfOk result (λ trail. trail ≡ record { vars = vars; entries = [] }) }
    {
        let mut marks = Vec::new(alloc);
        for _ in 0..vars {
            marks.push(None)?;
        }
        Ok(Trail {
            entries: Vec::new(alloc),
            marks,
            level: 0,
        })
    }

    /// How many decisions were made.
    pub(crate) fn level(&self) -> usize
        ensures { result ≡ level_of self.now.entries }
    {
        self.level
    }

    pub(crate) fn mark(&self, lit: Lit) -> Option<Mark>
        requires { lit.var < self.now.vars }
        ensures { result ≡ mark_of self.now.entries lit.var }
    {
        self.marks[lit.var as usize]
    }

    pub(crate) fn value(&self, lit: Lit) -> Option<bool>
        requires { lit.var < self.now.vars }
        ensures value { IsValue (lits_of self.now.entries) lit result }
        ensures distinct { are_distinct (lits_of self.now.entries) ≡ true }
    {
        let _ = &self.level;
        match self.mark(lit) {
            Some(mark) if mark.negated == lit.negated => Some(true),
            Some(_) => Some(false),
            None => None,
        }
    }

    pub(crate) fn is_true(&self, lit: Lit) -> bool
        requires { lit.var < self.now.vars }
        ensures { result ≡ has (lits_of self.now.entries) lit }
    {
        match self.value(lit) {
            Some(true) => true,
            Some(false) => false,
            None => false,
        }
    }

    pub(crate) fn is_false(&self, lit: Lit) -> bool
        requires { lit.var < self.now.vars }
        ensures { MatchBool result (has (lits_of self.now.entries) (flip lit) ≡ true)
            (has (lits_of self.now.entries) (flip lit) ≡ false) }
    {
        match self.value(lit) {
            Some(true) => false,
            Some(false) => true,
            None => false,
        }
    }

    /// Whether a false literal became so at the current level.
    pub(crate) fn is_current(&self, lit: Lit) -> bool
        requires in_range { lit.var < self.now.vars }
        requires falsified { has (lits_of self.now.entries) (flip lit) ≡ true }
        ensures { MatchBool result (has (lits_of (below self.now.entries)) (flip lit) ≡ false)
            (has (lits_of (below self.now.entries)) (flip lit) ≡ true) }
    {
        match self.mark(lit) {
            Some(mark) => mark.level == self.level,
            None => false,
        }
    }

    /// Whether a literal's variable was assigned at a level below the current one.
    pub(crate) fn is_below(&self, lit: Lit) -> bool
        requires { lit.var < self.now.vars }
        ensures { MatchBool result (IsLower self.now.entries lit) (is_free (lits_of (below self.now.entries)) lit.var ≡ true) }
    {
        match self.mark(lit) {
            Some(mark) => mark.level < self.level,
            None => false,
        }
    }

    /// Whether a literal's variable was assigned at this level.
    pub(crate) fn is_at(&self, lit: Lit, level: usize) -> bool
        requires { lit.var < self.now.vars }
        ensures { MatchBool result (IsAt self.now.entries level lit) (IsAt self.now.entries level lit → ⊥) }
    {
        match self.mark(lit) {
            Some(mark) => mark.level == level,
            None => false,
        }
    }

    /// Whether a literal's variable was assigned after a level.
    pub(crate) fn is_above(&self, lit: Lit, level: usize) -> bool {
        match self.marks.get(lit.var as usize) {
            Some(Some(mark)) => mark.level > level,
            _ => false,
        }
    }

    /// Whether a variable has no value.
    pub(crate) fn is_unset(&self, var: u32) -> bool
        ensures { IsTrue result → (var < self.now.vars) × (is_free (lits_of self.now.entries) var ≡ true) }
    {
        if var as usize >= self.marks.len() {
            return false;
        }
        self.marks[var as usize].is_none()
    }

    pub(crate) fn push(&mut self, entry: Entry) -> Result<(), AllocError>
        requires in_range { entry.lit.var < self.old.vars }
        requires free { is_free (lits_of self.old.entries) entry.lit.var ≡ true }
        ensures vars { self.new.vars ≡ self.old.vars }
        ensures entries { OnOk result (self.new.entries ≡ entry ∷ self.old.entries) }
    {
        self.entries.push(entry)?;
        if entry.reason.is_none() {
            self.level += 1;
        }
        self.marks[entry.lit.var as usize] = Some(Mark {
            negated: entry.lit.negated,
            level: self.level,
        });
        Ok(())
    }

    pub(crate) fn len(&self) -> usize
        ensures { result ≡ length self.now.entries }
    {
        self.entries.len()
    }

    /// The literal that came at this place.
    pub(crate) fn literal_at(&self, place: usize) -> Lit
        requires { place < length self.now.entries }
        ensures at { IsPlacedAt self.now.entries place result }
        ensures low { result.var < self.now.vars }
    {
        self.entries[place].lit
    }

    /// What is assigned, the oldest first.
    pub(crate) fn entries(&self) -> &[Entry]
        ensures entries { reverse result.now ≡ self.now.entries }
        ensures in_range { all_below self.now.vars (lits_of self.now.entries) ≡ true }
    {
        self.entries.as_slice()
    }

    pub(crate) fn pop(&mut self) -> Option<Entry>
        ensures vars { self.new.vars ≡ self.old.vars }
        ensures entries { self.old.entries ≡ option_to_list result ++ self.new.entries }
        ensures empty { IfNone result (self.old.entries ≡ []) }
    {
        let entry = self.entries.pop()?;
        if entry.reason.is_none() {
            self.level -= 1;
        }
        self.marks[entry.lit.var as usize] = None;
        Some(entry)
    }

    /// Takes back what came after a level.
    pub(crate) fn back_to(&mut self, level: usize)
        ensures vars { self.new.vars ≡ self.old.vars }
        ensures entries { self.new.entries ≡ back_to level self.old.entries }
    {
        'back: while self.level() > level {
            self.pop();
        }
    }

    /// The first variable without a value, if there is one.
    pub(crate) fn first_free(&self) -> Option<u32>
        ensures free { IfSome result (λ v. (v < self.now.vars) × (is_free (lits_of self.now.entries) v ≡ true)) }
        ensures full { IfNone result (IsFull self.now.vars (lits_of self.now.entries)) }
    {
        for var in 0..self.marks.len() {
            if self.marks[var].is_none() {
                return Some(var as u32);
            }
        }
        None
    }

    /// The values, where each variable has one.
    pub(crate) fn assignment(&self, alloc: Global) -> Result<Assignment, AllocError>
        ensures count { IfOk result (λ found. length found.values ≡ self.now.vars) }
        ensures values { IfOk result (λ found. AreValues self.now.vars (lits_of self.now.entries) found.values) }
    {
        let mut values = Vec::new(alloc);
        for var in 0..self.marks.len() {
            let value = match self.marks[var] {
                Some(mark) => !mark.negated,
                None => false,
            };
            values.push(value)?;
        }
        Ok(Assignment {
            values: Row::from_vec(values),
        })
    }
}
