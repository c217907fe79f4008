//! Formulas with the numbers of their clauses.
use cnf_form::Cnf;

/// A formula that was read.
///
/// A clause with both signs of a variable always holds: it counts, and isn't in the formula.
#[derive(Debug, Drop)]
pub struct Formula {
    pub cnf: Cnf,
    /// For each clause of the formula its number in the text, from 1.
    pub numbers: Vec<usize>,
    /// How many clauses the text has.
    pub count: usize,
}
