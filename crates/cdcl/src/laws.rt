//! The search by scanning, which is the law for the search at speed: both have one contract.
ghost use Rattle.std.specs.Prelude.{◌≡◌, ◌<◌, ◌+◌, ◌^◌, ◌∷◌, ◌++◌, [], true, None, IfOk, OnOk, length};
ghost use Rattle.std.specs.Bool.{MatchBool};
ghost use Rattle.cnf_form.specs.Clauses.{all_below, are_clauses};
ghost use Rattle.cnf_form.specs.News.{is_free};
ghost use Rattle.cnf_form.specs.Spent.{AreLean};
ghost use Rattle.cdcl.specs.Trail.{lits_of, IsTrail, IsLearnt};
ghost use Rattle.cdcl.specs.Jump.{IsJump};
ghost use Rattle.cdcl.specs.Searched.{IsSearched, OnSpent};

use crate::analysis::analyze;
use crate::entry::Entry;
use crate::learning::jump_level;
use crate::propagation::propagate;
use crate::searched::Searched;
use crate::trail::Trail;
use cnf_form::{Clauses, Cnf, Line, Lit, Log};
use std::alloc::{AllocError, Global};

/// The greatest number of variables that a search takes; where there are more it wants memory.
pub const MOST_VARS: u64 = 0x1_0000_0000;

/// Looks for a solution, and learns at most `budget` lines. It propagates by looking at all clauses.
pub fn search_scan(alloc: Global, cnf: &Cnf, budget: u64) -> Result<Searched, AllocError>
    ensures searched { IfOk result (IsSearched cnf.now.vars cnf.now.clauses budget) }
    ensures lean { IfOk result (OnSpent (AreLean cnf.now.clauses)) }
    ensures few { IfOk result (OnSpent (λ _. budget + 1 < 3 ^ cnf.now.vars)) }
{
    if cnf.vars > MOST_VARS {
        return Err(AllocError);
    }
    let mut trail = Trail::new(alloc, cnf.vars as usize)?;
    let mut clauses = copied(alloc, &cnf.clauses)?;
    let mut log = Log::new(alloc);
    'search: loop {
        match propagate(&mut trail, &clauses)? {
            Some(conflict) => {
                let line = analyze(alloc, &trail, &clauses, conflict)?;
                if trail.level() == 0 {
                    log.push(&line)?;
                    return Ok(Searched::Refuted(log));
                }
                if is_spent(&log, budget) {
                    return Ok(Searched::Spent(log));
                }
                learn(&mut trail, &mut clauses, &mut log, &line)?;
            }
            None => match trail.first_free() {
                Some(var) => decide(&mut trail, Lit { var, negated: true })?,
                None => return Ok(Searched::Solved(trail.assignment(alloc)?)),
            },
        }
    }
}

/// Whether the budget has no line left.
pub(crate) fn is_spent(log: &Log, budget: u64) -> bool
    ensures { MatchBool result (length log.now ≡ budget) (length log.now ≡ budget → ⊥) }
{
    log.len() as u64 == budget
}

pub(crate) fn copied(alloc: Global, clauses: &Clauses) -> Result<Clauses, AllocError>
    ensures { IfOk result (λ copy. copy ≡ clauses.now) }
{
    let mut copy = Clauses::new(alloc);
    for number in 0..clauses.len() {
        copy.push(clauses.get(number))?;
    }
    Ok(copy)
}

pub(crate) fn decide(trail: &mut Trail, lit: Lit) -> Result<(), AllocError>
    requires in_range { lit.var < trail.old.vars }
    requires free { is_free (lits_of trail.old.entries) lit.var ≡ true }
    ensures vars { trail.new.vars ≡ trail.old.vars }
    ensures entries { OnOk result (trail.new.entries ≡ record { lit = lit; reason = None } ∷ trail.old.entries) }
{
    trail.push(Entry { lit, reason: None })
}

/// Adds a line, and goes back to where its clause is to be looked at.
fn learn(
    trail: &mut Trail,
    clauses: &mut Clauses,
    log: &mut Log,
    line: &Line,
) -> Result<(), AllocError>
    requires in_range { are_clauses trail.old.vars clauses.old ≡ true }
    requires trail { IsTrail clauses.old trail.old.entries }
    requires clause { all_below trail.old.vars line.now.clause ≡ true }
    requires learnt { IsLearnt trail.old.entries line.now.clause }
    ensures vars { trail.new.vars ≡ trail.old.vars }
    ensures clauses { OnOk result (clauses.new ≡ clauses.old ++ line.now.clause ∷ []) }
    ensures log { OnOk result (log.new ≡ log.old ++ line.now ∷ []) }
    ensures in_range { OnOk result (are_clauses trail.new.vars clauses.new ≡ true) }
    ensures trail { OnOk result (IsTrail clauses.new trail.new.entries) }
{
    let level = jump_level(trail, line.clause.lits());
    clauses.push(line.clause.lits())?;
    log.push(line)?;
    trail.back_to(level);
    Ok(())
}
