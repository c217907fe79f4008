//! One step of a search.
use cnf_form::Assignment;

/// What a step of a search comes to.
#[derive(Debug, Drop)]
pub(crate) enum Step {
    /// These values make a literal of each clause true.
    Solved(Assignment),
    /// The last line is empty.
    Refuted,
    /// No line may be learnt any more.
    Spent,
    /// The search goes on.
    Onward,
}
