//! The way from a conflict to the clause that is learnt.
ghost use Rattle.std.specs.Prelude.{◌≡◌, ◌<◌, ◌≤◌, [], true, length, IfOk};
ghost use Rattle.std.specs.Bool.{MatchBool};
ghost use Rattle.std.specs.List.{AllWithin};
ghost use Rattle.cnf_form.specs.Literals.{has};
ghost use Rattle.cnf_form.specs.Clauses.{all_below, are_clauses, is_ascending};
ghost use Rattle.cnf_form.specs.Derivation.{IsDerived};
ghost use Rattle.cdcl.specs.Trail.{lits_of, level_of, AllFalse, IsTrail, IsFalsified, IsLearnt};
ghost use Rattle.cdcl.specs.Analysis.{IsOther, AreOthersLower};

use crate::derived::Derived;
use crate::trail::Trail;
use cnf_form::{Clauses, Line, Lit};
use std::alloc::{AllocError, Global};

/// The line of a conflict: at level 0 the empty clause, else the clause of the first unique implication
/// point. Looks for each literal that was assigned since in the clause so far, by halving it.
pub(crate) fn analyze(
    alloc: Global,
    trail: &Trail,
    clauses: &Clauses,
    conflict: usize,
) -> Result<Line, AllocError>
    requires in_range { are_clauses trail.now.vars clauses.now ≡ true }
    requires trail { IsTrail clauses.now trail.now.entries }
    requires conflict { IsFalsified clauses.now conflict (lits_of trail.now.entries) }
    ensures derived { IfOk result (IsDerived clauses.now) }
    ensures empty { level_of trail.now.entries ≡ 0 → IfOk result (λ line. line.clause ≡ []) }
    ensures in_range { IfOk result (λ line. all_below trail.now.vars line.clause ≡ true) }
    ensures learnt { 0 < level_of trail.now.entries → IfOk result (λ line. IsLearnt trail.now.entries line.clause) }
{
    let entries = trail.entries();
    let mut derived = Derived::new(alloc, clauses.get(conflict), conflict)?;
    let mut at = entries.len();
    'walk: while at > 0 {
        at -= 1;
        let entry = entries[at];
        let negation = entry.lit.flip();
        if contains(derived.so_far.as_slice(), negation) {
            let Some(reason) = entry.reason else {
                return Ok(derived.into_line());
            };
            if trail.level() > 0 && !has_other(trail, derived.so_far.as_slice(), negation) {
                return Ok(derived.into_line());
            }
            derived.resolve_with(clauses.get(reason), reason)?;
        }
    }
    Ok(derived.into_line())
}

/// How many literals of a clause are of smaller variables, found by halving it.
fn smaller(lits: &[Lit], var: u32) -> usize
    requires ascending { is_ascending lits.now ≡ true }
    ensures bound { result ≤ length lits.now }
    ensures smaller { AllWithin (λ lit. lit.var < var) lits.now 0 result }
    ensures others { AllWithin (λ lit. var ≤ lit.var) lits.now result (length lits.now) }
{
    lits.partition_point(|lit| lit.var < var)
}

/// Whether a literal is one of a clause's.
fn contains(lits: &[Lit], lit: Lit) -> bool
    requires ascending { is_ascending lits.now ≡ true }
    ensures { result ≡ has lits.now lit }
{
    let at = smaller(lits, lit.var);
    if at == lits.len() {
        return false;
    }
    lits[at] == lit
}

/// Whether another literal than this is of the current level.
fn has_other(trail: &Trail, lits: &[Lit], lit: Lit) -> bool
    requires in_range { all_below trail.now.vars lits.now ≡ true }
    requires falsified { AllFalse (lits_of trail.now.entries) lits.now }
    ensures { MatchBool result (IsOther trail.now.entries lits.now lit) (AreOthersLower trail.now.entries lits.now lit) }
{
    for l in lits {
        if *l != lit && trail.is_current(*l) {
            return true;
        }
    }
    false
}
