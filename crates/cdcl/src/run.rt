//! The state of a search over watched literals.
ghost use Rattle.std.specs.Prelude.{◌≡◌, ◌<◌, ◌∷◌, ◌++◌, [], true, ℕ, IfOk, OnOk};
ghost use Rattle.cnf_form.specs.Clauses.{all_below, are_clauses};
ghost use Rattle.cdcl.specs.Trail.{level_of, IsTrail, IsLearnt};
ghost use Rattle.cdcl.specs.Watch.{IsWatched, ArePairs, AreListed, IsWatching, HasRoom};

use crate::entering::{enter_all, watch};
use crate::entry::Entry;
use crate::laws::{copied, decide};
use crate::learning::{jump_level, open_literal, second_literal};
use crate::order::Order;
use crate::trail::Trail;
use crate::watched::Watched;
use crate::watched_propagation::propagate_watched;
use crate::watches::Watches;
use cnf_form::{Clauses, Cnf, Line, Lit, Log};
use std::alloc::{AllocError, Global};

/// What a search keeps: what is assigned, the clauses with those that were learnt, what each watches, and
/// the lines. What came on the trail before the head is done.
#[derive(Debug, Drop)]
pub(crate) struct Run {
    pub trail: Trail,
    pub clauses: Clauses,
    pub pairs: Vec<Watched>,
    pub watches: Watches,
    pub log: Log,
    pub head: usize,
}

impl Run {
    ghost use Rattle.std.specs.Prelude.{◌≡◌, ◌<◌, ◌≤◌, ◌^◌, ◌∷◌, ◌++◌, [], true, None, ℕ, IfOk, OnOk, MatchOption};
    ghost use Rattle.cnf_form.specs.Clauses.{all_below, are_clauses};
    ghost use Rattle.cnf_form.specs.News.{is_free};
    ghost use Rattle.cdcl.specs.Trail.{lits_of, level_of, back_to, IsTrail, IsFalsified, IsLearnt};
    ghost use Rattle.cdcl.specs.Propagation.{Grows};
    ghost use Rattle.cdcl.specs.Watch.{AreGuarded, IsWatched};
    ghost use Rattle.cdcl.specs.Run.{IsBlankRun, IsPropagated};

    /// The state over a formula's clauses, where nothing is assigned or watched.
    pub(crate) fn new(alloc: Global, cnf: &Cnf) -> Result<Run, AllocError>
        requires { cnf.now.vars ≤ 2 ^ 32 }
        ensures vars { IfOk result (λ run. run.trail.vars ≡ cnf.now.vars) }
        ensures clauses { IfOk result (λ run. run.clauses ≡ cnf.now.clauses) }
        ensures blank { IfOk result IsBlankRun }
    {
        Ok(Run {
            trail: Trail::new(alloc, cnf.vars as usize)?,
            clauses: copied(alloc, &cnf.clauses)?,
            pairs: Vec::new(alloc),
            watches: Watches::new(alloc, cnf.vars as usize)?,
            log: Log::new(alloc),
            head: 0,
        })
    }

    pub(crate) fn into_log(self) -> Log
        ensures { result ≡ self.log }
    {
        let Run {
            trail: _,
            clauses: _,
            pairs: _,
            watches: _,
            log,
            head: _,
        } = self;
        log
    }

    /// Lets all clauses be watched. The answer is the number of a clause that is false at once.
    pub(crate) fn enter(&mut self) -> Result<Option<usize>, AllocError>
        requires in_range { are_clauses self.old.trail.vars self.old.clauses ≡ true }
        requires blank { IsBlankRun self.old }
        ensures clauses { self.new.clauses ≡ self.old.clauses }
        ensures log { self.new.log ≡ self.old.log }
        ensures grows { OnOk result (Grows self.new.clauses self.old.trail self.new.trail) }
        ensures found { IfOk result (λ found. MatchOption found (IsWatched self.new.clauses self.new.trail self.new.pairs.items self.new.watches self.new.head)
            (λ number. IsFalsified self.new.clauses number (lits_of self.new.trail.entries))) }
    {
        let found = enter_all(
            &mut self.trail,
            &self.clauses,
            &mut self.pairs,
            &mut self.watches,
        )?;
        Ok(found)
    }

    /// Sets what the clauses force. The answer is the number of a clause that is false.
    pub(crate) fn propagate(&mut self) -> Result<Option<usize>, AllocError>
        requires in_range { are_clauses self.old.trail.vars self.old.clauses ≡ true }
        requires trail { IsTrail self.old.clauses self.old.trail.entries }
        requires watched { IsWatched self.old.clauses self.old.trail self.old.pairs.items self.old.watches self.old.head }
        ensures clauses { self.new.clauses ≡ self.old.clauses }
        ensures log { self.new.log ≡ self.old.log }
        ensures grows { OnOk result (Grows self.new.clauses self.old.trail self.new.trail) }
        ensures propagated { OnOk result (IsPropagated self.new) }
        ensures found { IfOk result (λ found. MatchOption found (AreGuarded self.new.pairs.items (lits_of self.new.trail.entries) (lits_of self.new.trail.entries))
            (λ number. IsFalsified self.new.clauses number (lits_of self.new.trail.entries))) }
    {
        let found = propagate_watched(
            &mut self.trail,
            &self.clauses,
            &mut self.pairs,
            &mut self.watches,
            self.head,
        )?;
        Ok(found)
    }

    /// Decides a literal.
    pub(crate) fn decide(&mut self, lit: Lit) -> Result<(), AllocError>
        requires in_range { lit.var < self.old.trail.vars }
        requires free { is_free (lits_of self.old.trail.entries) lit.var ≡ true }
        requires propagated { IsPropagated self.old }
        requires quiet { AreGuarded self.old.pairs.items (lits_of self.old.trail.entries) (lits_of self.old.trail.entries) }
        ensures clauses { self.new.clauses ≡ self.old.clauses }
        ensures log { self.new.log ≡ self.old.log }
        ensures vars { self.new.trail.vars ≡ self.old.trail.vars }
        ensures entries { OnOk result (self.new.trail.entries ≡ record { lit = lit; reason = None } ∷ self.old.trail.entries) }
        ensures watched { OnOk result (IsWatched self.new.clauses self.new.trail self.new.pairs.items self.new.watches self.new.head) }
    {
        self.head = self.trail.len();
        decide(&mut self.trail, lit)?;
        Ok(())
    }

    /// Goes back to the start.
    pub(crate) fn restart(&mut self, order: &mut Order) -> Result<(), AllocError>
        requires propagated { IsPropagated self.old }
        requires quiet { AreGuarded self.old.pairs.items (lits_of self.old.trail.entries) (lits_of self.old.trail.entries) }
        ensures clauses { self.new.clauses ≡ self.old.clauses }
        ensures log { self.new.log ≡ self.old.log }
        ensures vars { self.new.trail.vars ≡ self.old.trail.vars }
        ensures entries { OnOk result (self.new.trail.entries ≡ back_to 0 self.old.trail.entries) }
        ensures watched { OnOk result (IsWatched self.new.clauses self.new.trail self.new.pairs.items self.new.watches self.new.head) }
    {
        order.give_back_above(&self.trail, 0)?;
        self.trail.back_to(0);
        self.head = self.trail.len();
        Ok(())
    }

    /// Adds a line, goes back to where its clause forces a literal, and sets that.
    pub(crate) fn learn(&mut self, order: &mut Order, line: &Line) -> Result<(), AllocError>
        requires in_range { are_clauses self.old.trail.vars self.old.clauses ≡ true }
        requires trail { IsTrail self.old.clauses self.old.trail.entries }
        requires level { 0 < level_of self.old.trail.entries }
        requires clause { all_below self.old.trail.vars line.now.clause ≡ true }
        requires learnt { IsLearnt self.old.trail.entries line.now.clause }
        requires propagated { IsPropagated self.old }
        ensures vars { self.new.trail.vars ≡ self.old.trail.vars }
        ensures clauses { OnOk result (self.new.clauses ≡ self.old.clauses ++ line.now.clause ∷ []) }
        ensures log { OnOk result (self.new.log ≡ self.old.log ++ line.now ∷ []) }
        ensures in_range { OnOk result (are_clauses self.new.trail.vars self.new.clauses ≡ true) }
        ensures trail { OnOk result (IsTrail self.new.clauses self.new.trail.entries) }
        ensures watched { OnOk result (IsWatched self.new.clauses self.new.trail self.new.pairs.items self.new.watches self.new.head) }
    {
        self.head = learn(
            &mut self.trail,
            &mut self.clauses,
            &mut self.log,
            &mut self.pairs,
            &mut self.watches,
            order,
            line,
        )?;
        Ok(())
    }
}

/// Adds a line, goes back to where its clause forces its open literal, and sets that. The answer is how
/// much of the trail is done.
fn learn(
    trail: &mut Trail,
    clauses: &mut Clauses,
    log: &mut Log,
    pairs: &mut Vec<Watched>,
    watches: &mut Watches,
    order: &mut Order,
    line: &Line,
) -> Result<usize, AllocError>
    requires in_range { are_clauses trail.old.vars clauses.old ≡ true }
    requires trail { IsTrail clauses.old trail.old.entries }
    requires level { 0 < level_of trail.old.entries }
    requires clause { all_below trail.old.vars line.now.clause ≡ true }
    requires learnt { IsLearnt trail.old.entries line.now.clause }
    requires pairs { ArePairs clauses.old pairs.old.items }
    requires room { (v : ℕ) → v < trail.old.vars → HasRoom watches.old v }
    requires listed { AreListed pairs.old.items watches.old }
    requires watching { IsWatching pairs.old.items trail.old.entries }
    ensures vars { trail.new.vars ≡ trail.old.vars }
    ensures clauses { OnOk result (clauses.new ≡ clauses.old ++ line.now.clause ∷ []) }
    ensures log { OnOk result (log.new ≡ log.old ++ line.now ∷ []) }
    ensures in_range { OnOk result (are_clauses trail.new.vars clauses.new ≡ true) }
    ensures trail { OnOk result (IsTrail clauses.new trail.new.entries) }
    ensures watched { IfOk result (IsWatched clauses.new trail.new pairs.new.items watches.new) }
{
    let lits = line.clause.lits();
    let first = open_literal(trail, lits);
    let level = jump_level(trail, lits);
    let second = second_literal(trail, lits, first, level);
    let number = clauses.len();
    clauses.push(lits)?;
    log.push(line)?;
    order.give_back_above(trail, level)?;
    trail.back_to(level);
    let head = trail.len();
    watch(pairs, watches, number, Watched { first, second })?;
    trail.push(Entry {
        lit: first,
        reason: Some(number),
    })?;
    Ok(head)
}
