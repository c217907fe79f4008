//! Answers of a search as texts.
ghost use Rattle.std.specs.Prelude.{◌≡◌};

use crate::formula::Formula;
use cdcl::Searched;
use cnf_form::{Assignment, Lit, Log};
use std::alloc::{AllocError, Global};
use std::fmt::Write;

/// How many literals stand on a line of a solution.
const ON_A_LINE: usize = 10;

/// The answer in the form of SAT competitions: an `s` line, and the solution in `v` lines. Where it is
/// asked for, a refutation's derivation follows in the LRAT format.
pub fn answer_text(
    alloc: Global,
    formula: &Formula,
    found: &Searched,
    derivation: bool,
) -> Result<String, AllocError> {
    let mut text = String::new(alloc);
    match found {
        Searched::Solved(found) => {
            text.push_str("s SATISFIABLE\n")?;
            write_solution(&mut text, found)?;
        }
        Searched::Refuted(log) => {
            text.push_str("s UNSATISFIABLE\n")?;
            if derivation {
                write_derivation(&mut text, formula, log)?;
            }
        }
        Searched::Spent(_) => text.push_str("s UNKNOWN\n")?,
    }
    Ok(text)
}

fn write_solution(text: &mut String, found: &Assignment) -> Result<(), AllocError> {
    text.push_str("v")?;
    for (at, value) in found.values.as_slice().iter().enumerate() {
        if at > 0 && at % ON_A_LINE == 0 {
            text.push_str("\nv")?;
        }
        text.push_str(if *value { " " } else { " -" })?;
        write!(text, "{}", at + 1)?;
    }
    text.push_str(" 0\n")?;
    Ok(())
}

fn write_derivation(text: &mut String, formula: &Formula, log: &Log) -> Result<(), AllocError> {
    for at in 0..log.len() {
        write!(text, "{}", line_number(formula, at))?;
        for lit in log.clause(at) {
            write_literal(text, *lit)?;
        }
        text.push_str(" 0")?;
        for number in log.chain(at).iter().rev() {
            write!(text, " {}", clause_number(formula, *number))?;
        }
        text.push_str(" 0\n")?;
    }
    Ok(())
}

fn write_literal(text: &mut String, lit: Lit) -> Result<(), AllocError> {
    text.push_str(if lit.negated { " -" } else { " " })?;
    write!(text, "{}", lit.var as u64 + 1)?;
    Ok(())
}

/// The number of a line: those of the formula's text come first.
fn line_number(formula: &Formula, at: usize) -> u128 {
    formula.count as u128 + at as u128 + 1
}

/// The number by which a chain's clause goes in the text.
fn clause_number(formula: &Formula, number: u64) -> u128 {
    match formula.numbers.get(number as usize) {
        Some(number) => *number as u128,
        None => line_number(formula, number as usize - formula.numbers.len()),
    }
}
