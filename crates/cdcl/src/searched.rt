//! Answers of a search.
use cnf_form::{Assignment, Log};

/// What a search found.
#[derive(Debug, Drop)]
pub enum Searched {
    /// These values make a literal of each clause true.
    Solved(Assignment),
    /// No values do: the log is a derivation that ends with the empty clause.
    Refuted(Log),
    /// The budget's lines were learnt, and that settled nothing.
    Spent(Log),
}
