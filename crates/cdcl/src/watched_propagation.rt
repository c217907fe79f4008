//! Unit propagation over watched literals.
ghost use Rattle.std.specs.Prelude.{◌≡◌, ◌<◌, ◌≤◌, [], true, IfOk, OnOk, MatchOption, length, slice_index_or, ℕ, List};
ghost use Rattle.std.specs.Bool.{MatchBool};
ghost use Rattle.cnf_form.specs.Literals.{flip, has};
ghost use Rattle.cnf_form.specs.Clauses.{all_below, are_clauses};
ghost use Rattle.cnf_form.specs.Spent.{IsWithin};
ghost use Rattle.cdcl.specs.declared.watched.Watched.{Watched};
ghost use Rattle.cdcl.specs.Trail.{lits_of, IsTrail, IsFalsified, OthersFalse};
ghost use Rattle.cdcl.specs.Propagation.{Grows};
ghost use Rattle.cdcl.specs.Watch.{IsPass, AreListed, AreGuarded, older_part, IsLonger, IsWatching, HasRoom, IsVisit, ArePairs, IsReplacement, NoReplacement};

use crate::entry::Entry;
use crate::trail::Trail;
use crate::watched::Watched;
use crate::watches::Watches;
use cnf_form::{Clauses, Lit};
use std::alloc::AllocError;

/// Sets what the clauses force, until nothing follows or all literals of a clause are false. The answer
/// is the number of that clause. What came before `from` is done already.
pub(crate) fn propagate_watched(
    trail: &mut Trail,
    clauses: &Clauses,
    pairs: &mut Vec<Watched>,
    watches: &mut Watches,
    from: usize,
) -> Result<Option<usize>, AllocError>
    requires in_range { are_clauses trail.old.vars clauses.now ≡ true }
    requires trail { IsTrail clauses.now trail.old.entries }
    requires pairs { ArePairs clauses.now pairs.old.items }
    requires room { (v : ℕ) → v < trail.old.vars → HasRoom watches.old v }
    requires listed { AreListed pairs.old.items watches.old }
    requires watching { IsWatching pairs.old.items trail.old.entries }
    requires within { from ≤ length trail.old.entries }
    requires done { AreGuarded pairs.old.items (lits_of (older_part from trail.old.entries)) (lits_of trail.old.entries) }
    ensures grows { OnOk result (Grows clauses.now trail.old trail.new) }
    ensures pairs { OnOk result (ArePairs clauses.now pairs.new.items) }
    ensures room { OnOk result ((v : ℕ) → v < trail.new.vars → HasRoom watches.new v) }
    ensures listed { OnOk result (AreListed pairs.new.items watches.new) }
    ensures watching { OnOk result (IsWatching pairs.new.items trail.new.entries) }
    ensures found { IfOk result (λ found. MatchOption found (AreGuarded pairs.new.items (lits_of trail.new.entries) (lits_of trail.new.entries))
        (λ number. IsFalsified clauses.now number (lits_of trail.new.entries))) }
{
    let mut head = from;
    'queue: while head < trail.len() {
        let lit = trail.literal_at(head);
        if let Some(number) = visit_list(trail, clauses, pairs, watches, lit.flip())? {
            return Ok(Some(number));
        }
        head += 1;
    }
    Ok(None)
}

/// Looks at all clauses that watch a literal which became false, until all literals of one are.
fn visit_list(
    trail: &mut Trail,
    clauses: &Clauses,
    pairs: &mut Vec<Watched>,
    watches: &mut Watches,
    lit: Lit,
) -> Result<Option<usize>, AllocError>
    requires in_range { are_clauses trail.old.vars clauses.now ≡ true }
    requires trail { IsTrail clauses.now trail.old.entries }
    requires pairs { ArePairs clauses.now pairs.old.items }
    requires room { (v : ℕ) → v < trail.old.vars → HasRoom watches.old v }
    requires listed { AreListed pairs.old.items watches.old }
    requires watching { IsWatching pairs.old.items trail.old.entries }
    requires low { lit.var < trail.old.vars }
    requires falsified { has (lits_of trail.old.entries) (flip lit) ≡ true }
    ensures { IfOk result (IsPass clauses.now lit trail.old trail.new pairs.old.items pairs.new.items watches.new) }
{
    let count = watches.len(lit);
    for place in 0..count {
        let number = watches.at(lit, place);
        if number < clauses.len() && visit(trail, clauses, pairs, watches, number, lit)? {
            return Ok(Some(number));
        }
    }
    watches.keep_watching(pairs.as_slice(), lit);
    Ok(None)
}

/// Looks at a clause after this literal became false. The answer is whether all its literals are.
fn visit(
    trail: &mut Trail,
    clauses: &Clauses,
    pairs: &mut Vec<Watched>,
    watches: &mut Watches,
    number: usize,
    lit: Lit,
) -> Result<bool, AllocError>
    requires in_range { are_clauses trail.old.vars clauses.now ≡ true }
    requires trail { IsTrail clauses.now trail.old.entries }
    requires pairs { ArePairs clauses.now pairs.old.items }
    requires room { (v : ℕ) → v < trail.old.vars → HasRoom watches.old v }
    requires within { number < length clauses.now }
    requires falsified { has (lits_of trail.old.entries) (flip lit) ≡ true }
    ensures { IfOk result (IsVisit clauses.now number lit trail.old trail.new pairs.old.items pairs.new.items watches.old watches.new) }
{
    let watched = pairs[number];
    let Some(other) = watched.other_than(lit) else {
        return Ok(false);
    };
    if trail.is_true(other) {
        return Ok(false);
    }
    match replacement(trail, clauses.get(number), lit, other) {
        Some(found) => {
            watches.add(found, number)?;
            pairs[number] = Watched {
                first: found,
                second: other,
            };
            Ok(false)
        }
        None => {
            let conflict = settle(trail, clauses, number, other)?;
            Ok(conflict)
        }
    }
}

/// A literal that isn't false, other than these two.
fn replacement(trail: &Trail, lits: &[Lit], lit: Lit, other: Lit) -> Option<Lit>
    requires { all_below trail.now.vars lits.now ≡ true }
    ensures { MatchOption result (NoReplacement (lits_of trail.now.entries) lits.now lit other) (IsReplacement (lits_of trail.now.entries) lits.now lit other) }
{
    for l in lits {
        if *l != lit && *l != other && !trail.is_false(*l) {
            return Some(*l);
        }
    }
    None
}

/// All other literals of the clause are false: this one is set, unless it is false, which is the answer.
pub(crate) fn settle(
    trail: &mut Trail,
    clauses: &Clauses,
    number: usize,
    lit: Lit,
) -> Result<bool, AllocError>
    requires in_range { lit.var < trail.old.vars }
    requires trail { IsTrail clauses.now trail.old.entries }
    requires within { number < length clauses.now }
    requires of_clause { has (slice_index_or clauses.now number []) lit ≡ true }
    requires others { OthersFalse (lits_of trail.old.entries) (slice_index_or clauses.now number []) lit }
    ensures grows { OnOk result (Grows clauses.now trail.old trail.new) }
    ensures more { OnOk result (IsWithin (lits_of trail.old.entries) (lits_of trail.new.entries)) }
    ensures longer { OnOk result (IsLonger trail.old trail.new) }
    ensures watching { OnOk result ((p : List Watched) → IsWatching p trail.old.entries → IsWatching p trail.new.entries) }
    ensures answer { IfOk result (λ conflict. MatchBool conflict (IsFalsified clauses.now number (lits_of trail.new.entries))
        (has (lits_of trail.new.entries) lit ≡ true)) }
{
    match trail.value(lit) {
        Some(true) => Ok(false),
        Some(false) => Ok(true),
        None => {
            trail.push(Entry {
                lit,
                reason: Some(number),
            })?;
            Ok(false)
        }
    }
}
