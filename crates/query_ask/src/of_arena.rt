//! Questions about expressions of an arena.

ghost use Rattle.std.specs.Prelude.{◌≡◌, ℕ, ◌∷◌, ◌++◌, [], All, IfOk};
ghost use Rattle.bv_expr.specs.Nodes.{HasWidth};
ghost use Rattle.query_ask.specs.Copies.{HasVars};
ghost use Rattle.bit_blast.specs.Roots.{numbers};
ghost use Rattle.query_ask.specs.Questions.{are_true, meets};

use crate::cone::Cone;
use crate::question::Question;
use bv_expr::{Arena, ExprId};
use ct_rows::Row;
use indexmap::IndexSet;
use std::alloc::{AllocError, Global};

/// The question whether some bytes for the variables below `vars` make the conjuncts and the asked expression
/// true, which have one bit.
///
/// Nodes are numbered by first visit, the conjuncts in order and then the asked expression, operands before
/// their node and left to right. A conjunct that is there already is left out. Only nodes on which these depend
/// are visited, each once, with no recursion; and only they take memory.
pub fn question_of(
    alloc: Global,
    arena: &Arena,
    vars: usize,
    conjuncts: &[ExprId],
    asked: ExprId,
) -> Result<Question, AllocError>
    requires bits { All (λ id. HasWidth arena.now id.0 1) conjuncts.now }
    requires bit { HasWidth arena.now asked.0 1 }
    requires variables { All (λ id. HasVars arena.now vars id.0) conjuncts.now }
    requires asked_variables { HasVars arena.now vars asked.0 }
    ensures vars { IfOk result (λ q. q.vars ≡ vars) }
    ensures meaning { IfOk result (λ q. (env : ℕ → ℕ) → meets env q ≡ are_true env arena.now (numbers conjuncts.now ++ asked.0 ∷ [])) }
{
    let nodes = arena.nodes();
    let mut cone = Cone::new(alloc, nodes, vars);
    let mut kept = IndexSet::new(alloc);
    for id in conjuncts {
        let number = cone.visit(alloc, nodes, id.0)?;
        kept.insert(number)?;
    }
    let asked = cone.visit(alloc, nodes, asked.0)?;
    let conjuncts = Vec::from_slice(alloc, kept.as_slice())?;
    Ok(Question::new(
        vars,
        Row::from_vec(cone.copies),
        Row::from_vec(conjuncts),
        asked,
    ))
}
