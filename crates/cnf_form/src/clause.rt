//! Clauses.
ghost use Rattle.std.specs.Prelude.{◌≡◌, ◌<◌, ◌≤◌, ◌+◌, length, drop};
ghost use Rattle.cnf_form.specs.Clauses.{is_before, is_clause};

use crate::lit::Lit;
use std::alloc::{AllocError, Global};
use std::marker::Model;

/// Literals over different variables, in ascending order of these. Contracts see the list of them.
#[derive(Debug, Drop)]
pub struct Clause {
    lits: Vec<Lit>,
}

impl Model for Clause {
    ghost use Rattle.std.specs.Prelude.{◌≡◌, true, List};
    ghost use Rattle.cnf_form.specs.declared.lit.Lit.{Lit};
    ghost use Rattle.cnf_form.specs.Clauses.{is_ascending};

    ghost Value = { List Lit };

    ghost view = { λ clause. clause.lits.items };

    ghost invariant = { λ clause. is_ascending clause.lits.items ≡ true };
}

impl Clause {
    ghost use Rattle.std.specs.Prelude.{◌≡◌, true, IfOk};
    ghost use Rattle.cnf_form.specs.Clauses.{is_ascending};

    pub fn from_vec(lits: Vec<Lit>) -> Clause
        requires { is_ascending lits.items ≡ true }
        ensures { result ≡ lits.items }
    {
        Clause { lits }
    }

    pub fn lits(&self) -> &[Lit]
        ensures lits { result.now ≡ self.now }
        ensures ascending { is_ascending self.now ≡ true }
    {
        self.lits.as_slice()
    }

    pub fn copy(&self, alloc: Global) -> Result<Clause, AllocError>
        ensures { IfOk result (λ clause. clause ≡ self.now) }
    {
        let lits = Vec::from_slice(alloc, self.lits.as_slice())?;
        Ok(Clause { lits })
    }
}

/// Whether literals are a clause over the variables below `vars`: over different variables in ascending
/// order.
pub fn is_clause(vars: u64, lits: &[Lit]) -> bool
    ensures { result ≡ is_clause vars lits.now }
{
    let mut good = true;
    let mut at = lits.len();
    'back: while at > 0 {
        at -= 1;
        good = is_clause_from(vars, lits, at, good);
    }
    good
}

/// Whether the literals from an index on are a clause, where it is told whether those after it are.
fn is_clause_from(vars: u64, lits: &[Lit], at: usize, rest: bool) -> bool
    requires within { at < length lits.now }
    requires rest { rest ≡ is_clause vars (drop (at + 1) lits.now) }
    ensures { result ≡ is_clause vars (drop at lits.now) }
{
    let var = lits[at].var;
    if !rest || var as u64 >= vars {
        return false;
    }
    is_before_rest(var, lits, at + 1)
}

/// Whether a variable is below that of the literal at an index, if there is one.
fn is_before_rest(var: u32, lits: &[Lit], at: usize) -> bool
    requires { at ≤ length lits.now }
    ensures { result ≡ is_before var (drop at lits.now) }
{
    at == lits.len() || var < lits[at].var
}
