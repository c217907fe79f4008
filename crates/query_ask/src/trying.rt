//! All valuations of a question's variables.
ghost use Rattle.std.specs.Prelude.{◌≡◌, ◌*◌, ◌^◌, ◌<◌, ◌≤◌, length, slice_index, IfOk, OnOk, MatchOption, OnSome};
ghost use Rattle.std.specs.Bool.{MatchBool};
ghost use Rattle.query_ask.specs.Questions.{meets};
ghost use Rattle.query_ask.specs.Formulas.{CanBeMet};
ghost use Rattle.query_ask.specs.Placing.{placed, byte_of_number};
ghost use Rattle.query_ask.specs.Trying.{with_variable};
ghost use Rattle.query_ask.specs.Answers.{AreVariables, DoMeet};

use crate::meeting::meets;
use crate::placing::{bytes_of_number, place};
use crate::question::Question;
use bv_expr::{QNode, Values};
use indexmap::IndexSet;
use std::alloc::{AllocError, Global};

/// From so many bytes on the valuations are more than any budget.
const TOO_MANY: usize = 8;

/// The different variables of nodes, in the order in which they come.
pub(crate) fn variables_of(alloc: Global, nodes: &[QNode]) -> Result<IndexSet<usize>, AllocError>
    ensures { IfOk result (λ variables. AreVariables nodes.now variables.keys) }
{
    let mut variables = IndexSet::new(alloc);
    for node in nodes {
        add(&mut variables, *node)?;
    }
    Ok(variables)
}

fn add(variables: &mut IndexSet<usize>, node: QNode) -> Result<(), AllocError>
    ensures { OnOk result (variables.new.keys ≡ with_variable variables.old.keys node) }
{
    match node {
        QNode::Input { variable } => {
            variables.insert(variable)?;
            Ok(())
        }
        _ => Ok(()),
    }
}

/// Whether the valuations of so many variables are no more than a budget.
pub(crate) fn are_few(count: usize, budget: u64) -> bool
    ensures { MatchBool result ((count < 8) × (2 ^ (8 * count) ≤ budget)) (budget < 2 ^ (8 * count)) }
{
    count < TOO_MANY && valuations(count) <= budget
}

// How many valuations so many variables have.
fn valuations(count: usize) -> u64
    requires { count < 8 }
    ensures { result ≡ 2 ^ (8 * count) }
{
    1u64 << (8 * count as u32)
}

/// The first valuation that meets a question, where all are tried in the order of the numbers that they
/// spell. None where no bytes meet it.
pub(crate) fn try_all(
    alloc: Global,
    question: &Question,
    variables: &[usize],
) -> Result<Option<Values>, AllocError>
    requires variables { AreVariables question.now.nodes variables.now }
    requires few { length variables.now < 8 }
    ensures { IfOk result (λ found. MatchOption found (CanBeMet question.now → ⊥) (DoMeet question.now)) }
{
    question.law();
    let mut results = Vec::new(alloc);
    let end = valuations(variables.len());
    for number in 0..end {
        let values = numbered(alloc, question, variables, number)?;
        if meets(question, &values, &mut results)? {
            return Ok(Some(values));
        }
    }
    Ok(None)
}

// The values in which the variables have the bytes of a number.
fn numbered(
    alloc: Global,
    question: &Question,
    variables: &[usize],
    number: u64,
) -> Result<Values, AllocError>
    requires { length variables.now < 8 }
    ensures count { IfOk result (λ values. length values.0 ≡ question.now.vars) }
    ensures meets { IfOk result (λ values. meets (slice_index values.0) question.now ≡ meets (placed (byte_of_number number) variables.now) question.now) }
{
    question.law();
    let bytes = bytes_of_number(alloc, number, variables.len())?;
    let values = place(alloc, question.vars(), variables, bytes.as_slice())?;
    Ok(values)
}
