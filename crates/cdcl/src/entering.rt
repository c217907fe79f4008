//! How a formula's clauses begin to be watched.
ghost use Rattle.std.specs.Prelude.{◌≡◌, ◌<◌, ◌+◌, ◌++◌, ◌∷◌, [], true, false, IfOk, OnOk, MatchOption, length, take, ℕ};
ghost use Rattle.std.specs.Bool.{MatchBool};
ghost use Rattle.cnf_form.specs.Clauses.{are_clauses};
ghost use Rattle.cdcl.specs.Trail.{lits_of, IsTrail, IsFalsified};
ghost use Rattle.cdcl.specs.Propagation.{Grows};
ghost use Rattle.cdcl.specs.Watch.{IsEntered, HasRoom, IsAdded};

use crate::trail::Trail;
use crate::watched::Watched;
use crate::watched_propagation::settle;
use crate::watches::Watches;
use cnf_form::{Clauses, Lit};
use std::alloc::AllocError;

/// Lets each clause watch its first two literals. Sets the literals of clauses that have no other, until
/// all literals of a clause are false: the answer is the number of that clause.
pub(crate) fn enter_all(
    trail: &mut Trail,
    clauses: &Clauses,
    pairs: &mut Vec<Watched>,
    watches: &mut Watches,
) -> Result<Option<usize>, AllocError>
    requires in_range { are_clauses trail.old.vars clauses.now ≡ true }
    requires trail { trail.old.entries ≡ [] }
    requires pairs { pairs.old.items ≡ [] }
    requires room { (v : ℕ) → v < trail.old.vars → HasRoom watches.old v }
    ensures grows { OnOk result (Grows clauses.now trail.old trail.new) }
    ensures found { IfOk result (λ found. MatchOption found (IsEntered clauses.now trail.new pairs.new.items watches.new)
        (λ number. IsFalsified clauses.now number (lits_of trail.new.entries))) }
{
    for number in 0..clauses.len() {
        if enter(trail, clauses, pairs, watches, number)? {
            return Ok(Some(number));
        }
    }
    Ok(None)
}

/// Lets a clause watch its first two literals. The answer is whether all its literals are false.
fn enter(
    trail: &mut Trail,
    clauses: &Clauses,
    pairs: &mut Vec<Watched>,
    watches: &mut Watches,
    number: usize,
) -> Result<bool, AllocError>
    requires in_range { are_clauses trail.old.vars clauses.now ≡ true }
    requires trail { IsTrail clauses.now trail.old.entries }
    requires within { number < length clauses.now }
    requires entered { IsEntered (take number clauses.now) trail.old pairs.old.items watches.old }
    ensures grows { OnOk result (Grows clauses.now trail.old trail.new) }
    ensures found { IfOk result (λ conflict. MatchBool conflict (IsFalsified clauses.now number (lits_of trail.new.entries))
        (IsEntered (take (number + 1) clauses.now) trail.new pairs.new.items watches.new)) }
{
    let lits = clauses.get(number);
    if lits.is_empty() {
        return Ok(true);
    }
    let first = lits[0];
    if lits.len() > 1 {
        watch(
            pairs,
            watches,
            number,
            Watched {
                first,
                second: lits[1],
            },
        )?;
        return Ok(false);
    }
    watch(
        pairs,
        watches,
        number,
        Watched {
            first,
            second: first,
        },
    )?;
    let conflict = settle(trail, clauses, number, first)?;
    Ok(conflict)
}

/// Lets a clause, the next one, watch two literals.
pub(crate) fn watch(
    pairs: &mut Vec<Watched>,
    watches: &mut Watches,
    number: usize,
    watched: Watched,
) -> Result<(), AllocError>
    requires first { HasRoom watches.old watched.first.var }
    requires second { HasRoom watches.old watched.second.var }
    ensures pairs { OnOk result (pairs.new.items ≡ pairs.old.items ++ watched ∷ []) }
    ensures watches { OnOk result (IsAdded watches.old watches.new watched number) }
{
    watches.add(watched.first, number)?;
    watches.add(watched.second, number)?;
    pairs.push(watched)?;
    Ok(())
}
