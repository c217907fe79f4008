//! The search of one file.
ghost use Rattle.std.specs.Prelude.{◌≡◌, [], ◌<◌, length};

use crate::failure::Failure;
use crate::task::Task;
use cdcl::{Searched, search};
use cnf_text::{answer_text, read_formula};
use ct_outside::{NAMES, Shelf, Sink, read_all, write_all};
use std::alloc::Global;

/// Reads the file, searches, and writes the answer. Gives the exit status of SAT competitions: 10 where
/// there is a solution, 20 where there is none, 0 where the budget was spent.
pub fn solve<F: Shelf, S: Sink>(
    alloc: Global,
    task: Task,
    shelf: &mut F,
    out: &mut S,
) -> Result<u8, Failure>
    requires { length (F.asked shelf.old) < NAMES }
{
    let Task {
        file,
        budget,
        derivation,
    } = task;
    let text = read_all(alloc, shelf, file)?;
    let formula = read_formula(alloc, text.as_slice())?;
    let found = search(alloc, &formula.cnf, budget)?;
    let answer = answer_text(alloc, &formula, &found, derivation)?;
    write_all(out, answer.as_str().as_bytes())?;
    Ok(status(&found))
}

fn status(found: &Searched) -> u8 {
    match found {
        Searched::Solved(_) => 10,
        Searched::Refuted(_) => 20,
        Searched::Spent(_) => 0,
    }
}
