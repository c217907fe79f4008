//! Whether values meet a question.
ghost use Rattle.std.specs.Prelude.{◌≡◌, ◌==◌, slice_index, length, IfOk, OnOk, All};
ghost use Rattle.std.specs.List.{list_all};
ghost use Rattle.bv_expr.specs.Nodes.{IsValuation};
ghost use Rattle.query_ask.specs.Questions.{meets};

use crate::question::Question;
use bv_expr::Values;
use std::alloc::AllocError;

/// Whether values meet a question. Each node is evaluated once, into `results`, where its value stays.
pub(crate) fn meets(
    question: &Question,
    values: &Values,
    results: &mut Vec<u32>,
) -> Result<bool, AllocError>
    ensures { IfOk result (λ met. met ≡ meets (slice_index values.now.0) question.now) }
{
    question.law();
    evaluate(question, values, results)?;
    let conjuncts = are_true(results.as_slice(), question.conjuncts());
    let asked = is_true(results.as_slice(), question.asked());
    Ok(conjuncts && asked)
}

// The values of all nodes.
fn evaluate(question: &Question, values: &Values, results: &mut Vec<u32>) -> Result<(), AllocError>
    ensures { OnOk result (IsValuation (slice_index values.now.0) (slice_index results.new.items) question.now.nodes) }
{
    question.law();
    results.clear();
    for node in question.nodes() {
        results.push(node.value(values, results.as_slice()))?;
    }
    Ok(())
}

fn are_true(results: &[u32], numbers: &[usize]) -> bool
    ensures { result ≡ list_all (λ k. slice_index results.now k == 1) numbers.now }
{
    numbers.iter().all(|number| is_true(results, *number))
}

/// Whether the result of a node is 1.
pub(crate) fn is_true(results: &[u32], number: usize) -> bool
    ensures { result ≡ (slice_index results.now number == 1) }
{
    if number < results.len() {
        results[number] == 1
    } else {
        false
    }
}
