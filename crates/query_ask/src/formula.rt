//! The formula of a question.
ghost use Rattle.std.specs.Prelude.{◌≡◌, IfOk};
ghost use Rattle.query_ask.specs.Questions.{claims};
ghost use Rattle.query_ask.specs.Formulas.{IsFormula};

use crate::question::Question;
use bit_blast::{Blasted, blast_nodes};
use cnf_form::{Cnf, encode};
use gate_form::Gates;
use std::alloc::{AllocError, Global};

/// A formula with the gates that it came from. Gate input 8 i + b is bit b of the variable `vars[i]`.
#[derive(Drop)]
pub(crate) struct Formula {
    pub gates: Gates,
    pub vars: Vec<usize>,
    pub cnf: Cnf,
}

/// The formula whose solutions are the bytes that meet a question.
pub(crate) fn formula_of(alloc: Global, question: &Question) -> Result<Formula, AllocError>
    ensures { IfOk result (IsFormula question.now) }
{
    question.law();
    let roots = claims(alloc, question)?;
    let blasted = blast_nodes(alloc, question.nodes(), roots.as_slice())?;
    blasted.gates.net_law();
    let cnf = encode(alloc, &blasted.gates, blasted.roots.as_slice())?;
    let Blasted { gates, vars, .. } = blasted;
    Ok(Formula { gates, vars, cnf })
}

// The nodes that are to be true.
fn claims(alloc: Global, question: &Question) -> Result<Vec<usize>, AllocError>
    ensures { IfOk result (λ r. r.items ≡ claims question.now) }
{
    let mut roots = Vec::from_slice(alloc, question.conjuncts())?;
    roots.push(question.asked())?;
    Ok(roots)
}
