//! What clauses are under an assignment.
ghost use Rattle.std.specs.Prelude.{◌≡◌, true};
ghost use Rattle.cnf_form.specs.Clauses.{all_below};
ghost use Rattle.cdcl.specs.Trail.{lits_of};
ghost use Rattle.cdcl.specs.Status.{IsStatus};

use crate::trail::Trail;
use cnf_form::Lit;

/// What a clause is under an assignment.
#[derive(Debug, Clone, Copy)]
pub(crate) enum Status {
    /// All literals are false.
    Falsified,
    /// All literals but this one are false, and this one is unset.
    Forcing(Lit),
    /// Neither.
    Quiet,
}

pub(crate) fn status_of(trail: &Trail, lits: &[Lit]) -> Status
    requires { all_below trail.now.vars lits.now ≡ true }
    ensures { IsStatus (lits_of trail.now.entries) lits.now result }
{
    let mut found: Option<Lit> = None;
    for lit in lits {
        match trail.value(*lit) {
            Some(true) => return Status::Quiet,
            Some(false) => {}
            None => {
                if found.is_some() {
                    return Status::Quiet;
                }
                found = Some(*lit);
            }
        }
    }
    match found {
        Some(lit) => Status::Forcing(lit),
        None => Status::Falsified,
    }
}
