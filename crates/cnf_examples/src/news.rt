//! A slow test of whether the lines of a log were news when they came, by its definition.
use cnf_form::{Clauses, Cnf, Lit, Log, is_clause};
use std::alloc::{AllocError, Global};

/// Whether each line was news to unit propagation from the formula and the lines before it.
pub(crate) fn are_news(alloc: Global, cnf: &Cnf, log: &Log) -> Result<bool, AllocError> {
    let mut older = Cnf::new(alloc, cnf.vars);
    for number in 0..cnf.clauses.len() {
        if !add(&mut older, cnf.clauses.get(number))? {
            return Ok(false);
        }
    }
    for at in 0..log.len() {
        if !is_news(alloc, &older.clauses, log.clause(at))? || !add(&mut older, log.clause(at))? {
            return Ok(false);
        }
    }
    Ok(true)
}

/// Adds a clause; false where it is none.
fn add(older: &mut Cnf, lits: &[Lit]) -> Result<bool, AllocError> {
    if !is_clause(older.vars, lits) {
        return Ok(false);
    }
    older.push(lits)?;
    Ok(true)
}

/// Whether for a literal of the clause propagation from the negations of the others leaves it open.
fn is_news(alloc: Global, older: &Clauses, clause: &[Lit]) -> Result<bool, AllocError> {
    for literal in clause {
        let mut given = Vec::new(alloc);
        for other in clause {
            if *other != *literal {
                given.push(other.flip())?;
            }
        }
        if settles(alloc, older, &mut given)?
            && !holds(&given, *literal)
            && !holds(&given, literal.flip())
        {
            return Ok(true);
        }
    }
    Ok(false)
}

/// Propagates until nothing follows; false where a clause has all its literals negated.
fn settles(alloc: Global, older: &Clauses, given: &mut Vec<Lit>) -> Result<bool, AllocError> {
    for _round in 0..100 {
        for number in 0..older.len() {
            let clause = older.get(number);
            let mut open = Vec::new(alloc);
            for lit in clause {
                if !holds(given, lit.flip()) {
                    open.push(*lit)?;
                }
            }
            if open.is_empty() {
                return Ok(false);
            }
            if open.len() == 1 && !holds(given, open[0]) {
                given.push(open[0])?;
            }
        }
    }
    Ok(true)
}

fn holds(given: &[Lit], lit: Lit) -> bool {
    given.contains(&lit)
}
