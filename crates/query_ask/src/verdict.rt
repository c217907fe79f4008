//! Verdicts on questions.

use bv_expr::Values;

/// What is known of a question in the end.
#[derive(Debug, Drop)]
pub enum Verdict {
    /// These values, one for each variable, meet the question.
    Yes(Values),
    /// No values do.
    No,
}
