//! Values for the variables.
ghost use Rattle.std.specs.Prelude.{◌≡◌, ◌≤◌, length};
ghost use Rattle.cnf_form.specs.Solutions.{holds, is_met, are_met};

use crate::cnf::Cnf;
use crate::lit::Lit;
use ct_rows::Row;

/// A value for each variable.
#[derive(Debug, Drop)]
pub struct Assignment {
    pub values: Row<bool>,
}

/// Whether the values make a literal of each clause true. Takes time in the length of the formula.
pub fn meets(cnf: &Cnf, found: &Assignment) -> bool
    requires { cnf.now.vars ≤ length found.now.values }
    ensures { result ≡ are_met found.now.values cnf.now.clauses }
{
    for number in 0..cnf.clauses.len() {
        if !is_met(found, cnf.clauses.get(number)) {
            return false;
        }
    }
    true
}

fn is_met(found: &Assignment, lits: &[Lit]) -> bool
    ensures { result ≡ is_met found.now.values lits.now }
{
    lits.iter().any(|lit| holds(found, *lit))
}

fn holds(found: &Assignment, lit: Lit) -> bool
    ensures { result ≡ holds found.now.values lit }
{
    match found.values.get(lit.var as usize) {
        Some(value) => *value != lit.negated,
        None => false,
    }
}
