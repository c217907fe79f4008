//! Unit propagation by looking at all clauses.
ghost use Rattle.std.specs.Prelude.{◌≡◌, ◌<◌, true, IfOk, OnOk, MatchOption, [], length, slice_index_or};
ghost use Rattle.cnf_form.specs.Clauses.{are_clauses};
ghost use Rattle.cnf_form.specs.News.{are_quiet};
ghost use Rattle.cdcl.specs.Trail.{lits_of, IsTrail, IsFalsified};
ghost use Rattle.cdcl.specs.Propagation.{Grows, IsSwept, LookedAt};

use crate::entry::Entry;
use crate::status::{Status, status_of};
use crate::trail::Trail;
use cnf_form::Clauses;
use std::alloc::AllocError;

/// What one look at all clauses gives.
#[derive(Debug, Clone, Copy)]
pub(crate) enum Swept {
    /// All literals of the clause with this number are false.
    Conflict(usize),
    /// A literal was set.
    Forced,
    /// No clause is false or forces a literal.
    Complete,
}

/// Sets what the clauses force, until nothing follows or all literals of a clause are false. The answer
/// is the number of that clause.
pub(crate) fn propagate(trail: &mut Trail, clauses: &Clauses) -> Result<Option<usize>, AllocError>
    requires in_range { are_clauses trail.old.vars clauses.now ≡ true }
    requires trail { IsTrail clauses.now trail.old.entries }
    ensures grows { OnOk result (Grows clauses.now trail.old trail.new) }
    ensures found { IfOk result (λ found. MatchOption found (are_quiet (lits_of trail.new.entries) clauses.now ≡ true)
        (λ number. IsFalsified clauses.now number (lits_of trail.new.entries))) }
{
    'fixpoint: loop {
        match sweep(trail, clauses)? {
            Swept::Conflict(number) => return Ok(Some(number)),
            Swept::Complete => return Ok(None),
            Swept::Forced => {}
        }
    }
}

/// Looks at each clause once.
fn sweep(trail: &mut Trail, clauses: &Clauses) -> Result<Swept, AllocError>
    requires in_range { are_clauses trail.old.vars clauses.now ≡ true }
    requires trail { IsTrail clauses.now trail.old.entries }
    ensures grows { OnOk result (Grows clauses.now trail.old trail.new) }
    ensures swept { IfOk result (IsSwept clauses.now trail.old trail.new) }
{
    let mut swept = Swept::Complete;
    for number in 0..clauses.len() {
        match look_at(trail, clauses, number)? {
            Status::Falsified => return Ok(Swept::Conflict(number)),
            Status::Forcing(_) => swept = Swept::Forced,
            Status::Quiet => {}
        }
    }
    Ok(swept)
}

/// Sets the literal that a clause forces, if it does. The answer is what the clause was.
fn look_at(trail: &mut Trail, clauses: &Clauses, number: usize) -> Result<Status, AllocError>
    requires in_range { are_clauses trail.old.vars clauses.now ≡ true }
    requires trail { IsTrail clauses.now trail.old.entries }
    requires within { number < length clauses.now }
    ensures grows { OnOk result (Grows clauses.now trail.old trail.new) }
    ensures looked { IfOk result (LookedAt (slice_index_or clauses.now number []) trail.old trail.new) }
{
    match status_of(trail, clauses.get(number)) {
        Status::Forcing(lit) => {
            trail.push(Entry {
                lit,
                reason: Some(number),
            })?;
            Ok(Status::Forcing(lit))
        }
        Status::Falsified => Ok(Status::Falsified),
        Status::Quiet => Ok(Status::Quiet),
    }
}
