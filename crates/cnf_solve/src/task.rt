//! The words of the command line.
use std::alloc::{AllocError, Global};

/// What is asked for.
#[derive(Debug, Drop)]
pub struct Task {
    /// The name of the formula's file.
    pub file: String,
    /// How many lines may be learnt.
    pub budget: u64,
    /// Whether a refutation's derivation is written.
    pub derivation: bool,
}

/// Reads `FILE BUDGET`, and perhaps `--lrat` behind them. Other words are no task.
pub fn read_task(alloc: Global, words: &[String]) -> Result<Option<Task>, AllocError> {
    let (file, budget, derivation) = match words {
        [file, budget] => (file, budget, false),
        [file, budget, flag] if flag.as_str() == "--lrat" => (file, budget, true),
        _ => return Ok(None),
    };
    let Ok(budget) = budget.as_str().parse::<u64>() else {
        return Ok(None);
    };
    Ok(Some(Task {
        file: String::from_str(alloc, file.as_str())?,
        budget,
        derivation,
    }))
}
