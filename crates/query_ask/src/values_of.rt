//! Values from solutions of formulas.
ghost use Rattle.std.specs.Prelude.{◌≡◌, true, length, IfOk};
ghost use Rattle.cnf_form.specs.Solutions.{are_met};
ghost use Rattle.query_ask.specs.Formulas.{IsFormula};
ghost use Rattle.query_ask.specs.Answers.{DoMeet};

use crate::formula::Formula;
use crate::placing::{bytes_of_bits, place};
use crate::question::Question;
use bv_expr::Values;
use cnf_form::{Assignment, read_inputs};
use std::alloc::{AllocError, Global};

/// The values that a solution of a question's formula spells.
pub(crate) fn values_of(
    alloc: Global,
    question: &Question,
    formula: &Formula,
    found: &Assignment,
) -> Result<Values, AllocError>
    requires formula { IsFormula question.now formula.now }
    requires count { length found.now.values ≡ formula.now.cnf.vars }
    requires met { are_met found.now.values formula.now.cnf.clauses ≡ true }
    ensures { IfOk result (DoMeet question.now) }
{
    question.law();
    let bits = read_inputs(alloc, &formula.gates, found)?;
    let bytes = bytes_of_bits(alloc, bits.as_slice(), formula.vars.len())?;
    let values = place(
        alloc,
        question.vars(),
        formula.vars.as_slice(),
        bytes.as_slice(),
    )?;
    Ok(values)
}
