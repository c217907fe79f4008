//! The search, both ways, and the check of what it derives.
use crate::formulas::{ROWS, formula};
use crate::news::are_news;
use cdcl::laws::search_scan;
use cdcl::{Searched, search};
use cnf_form::{Clause, Cnf, Line, Lit, Log, is_clause, meets};
use ct_rows::Row;
use proof_check::{Rejected, accept};
use std::alloc::{AllocError, Global};
use std::test::Fail;

const FOUR: &[i32] = &[1, 2, 0, 1, -2, 0, -1, 2, 0, -1, -2, 0];

const AMPLE: u64 = 1000;

/// An answer of a search, with the number of lines.
#[derive(Debug, Clone, Copy, PartialEq, Eq)]
enum Answer {
    Solved,
    Refuted(usize),
    Spent(usize),
}

/// What a search answers, where its solution meets the formula, its derivation is accepted, or its lines
/// were news.
fn checked(alloc: Global, scanning: bool, cnf: Cnf, budget: u64) -> Result<Answer, Fail> {
    match searched(alloc, scanning, &cnf, budget)? {
        Searched::Solved(found) => {
            if found.values.len() as u64 == cnf.vars && meets(&cnf, &found) {
                return Ok(Answer::Solved);
            }
        }
        Searched::Refuted(log) => {
            let lines = log.len();
            if accept(alloc, cnf, log).is_ok() {
                return Ok(Answer::Refuted(lines));
            }
        }
        Searched::Spent(log) => {
            if are_news(alloc, &cnf, &log)? {
                return Ok(Answer::Spent(log.len()));
            }
        }
    }
    Err(Fail::from("a wrong answer"))
}

fn searched(alloc: Global, scanning: bool, cnf: &Cnf, budget: u64) -> Result<Searched, AllocError> {
    if scanning {
        search_scan(alloc, cnf, budget)
    } else {
        search(alloc, cnf, budget)
    }
}

// Each formula is solved or refuted as its row says, and spent with a budget below the learnt lines.
#[test]
fn formulas_are_solved_or_refuted(rt: HostRuntime) -> Result<(), Fail> {
    let alloc = rt.alloc();
    for (name, vars, numbers, solvable) in ROWS {
        for scanning in [true, false] {
            match checked(alloc, scanning, formula(alloc, vars, numbers)?, AMPLE)? {
                Answer::Solved => assert!(rt; solvable, "{name}"),
                Answer::Refuted(lines) => {
                    assert!(rt; !solvable, "{name}");
                    for budget in [0, 1, lines.saturating_sub(2)] {
                        if budget < lines.saturating_sub(1) {
                            let spent = checked(
                                alloc,
                                scanning,
                                formula(alloc, vars, numbers)?,
                                budget as u64,
                            )?;
                            assert_eq!(rt; spent, Answer::Spent(budget), "{name}");
                        }
                    }
                }
                Answer::Spent(_) => assert!(rt; false, "{name} is spent"),
            }
        }
    }
    Ok(())
}

// Variables, clauses, budget, and the answer with its number of lines.
const BUDGETS: [(u64, &[i32], u64, Answer); 7] = [
    (2, FOUR, 0, Answer::Spent(0)),
    (2, FOUR, 1, Answer::Refuted(2)),
    (2, FOUR, 9, Answer::Refuted(2)),
    (0, &[], 0, Answer::Solved),
    (0, &[0], 0, Answer::Refuted(1)),
    (1, &[1, 0, -1, 0], 0, Answer::Refuted(1)),
    (3, &[1, 2, 0, -1, 3, 0], 9, Answer::Solved),
];

#[test]
fn budgets_bound_the_lines(rt: HostRuntime) -> Result<(), Fail> {
    let alloc = rt.alloc();
    for (vars, numbers, budget, want) in BUDGETS {
        for scanning in [true, false] {
            assert_eq!(rt;
                checked(alloc, scanning, formula(alloc, vars, numbers)?, budget)?,
                want
            );
        }
    }
    Ok(())
}

const X: Lit = Lit {
    var: 0,
    negated: false,
};

// Logs over the four clauses: how many lines of x and of nothing, their chains, and what `accept` answers.
const LOGS: [(&str, usize, &[u64], &[u64], Option<Rejected>); 10] = [
    ("both derived", 2, &[1, 0], &[3, 2, 4], None),
    ("the other way round", 2, &[0, 1], &[2, 3, 4], None),
    (
        "an empty chain",
        2,
        &[],
        &[3, 2, 4],
        Some(Rejected::BadLine(0)),
    ),
    (
        "a number left out",
        2,
        &[1, 0],
        &[3, 2],
        Some(Rejected::BadLine(1)),
    ),
    (
        "an order that gives not x",
        2,
        &[1, 0],
        &[4, 3, 2],
        Some(Rejected::BadLine(1)),
    ),
    (
        "a copy of another clause",
        2,
        &[1],
        &[3, 2, 4],
        Some(Rejected::BadLine(0)),
    ),
    (
        "a later line",
        2,
        &[1, 0],
        &[3, 2, 5],
        Some(Rejected::BadLine(1)),
    ),
    (
        "a number of no clause",
        2,
        &[1, 0, 9],
        &[3, 2, 4],
        Some(Rejected::BadLine(0)),
    ),
    (
        "without the last line",
        1,
        &[1, 0],
        &[],
        Some(Rejected::NotEmpty),
    ),
    ("no line", 0, &[], &[], Some(Rejected::NotEmpty)),
];

#[test]
fn logs_are_accepted_or_rejected(rt: HostRuntime) -> Result<(), Fail> {
    let alloc = rt.alloc();
    for (name, lines, first, second, want) in LOGS {
        assert_eq!(rt; rejection(alloc, lines, first, second)?, want, "{name}");
    }
    Ok(())
}

/// What `accept` answers for a log over the four clauses. What it takes it lends.
fn rejection(
    alloc: Global,
    lines: usize,
    first: &[u64],
    second: &[u64],
) -> Result<Option<Rejected>, Fail> {
    let mut log = Log::new(alloc);
    if lines > 0 {
        log.push(&line(alloc, &[X], first)?)?;
    }
    if lines > 1 {
        log.push(&line(alloc, &[], second)?)?;
    }
    match accept(alloc, formula(alloc, 2, FOUR)?, log) {
        Ok(refutation) => {
            if refutation.formula().clauses.len() == 4 && refutation.log().len() == lines {
                Ok(None)
            } else {
                Err(Fail::from("another formula or log"))
            }
        }
        Err(rejected) => Ok(Some(rejected)),
    }
}

/// A line with these literals and this chain.
fn line(alloc: Global, lits: &[Lit], chain: &[u64]) -> Result<Line, Fail> {
    let lits = Vec::from_slice(alloc, lits)?;
    if !is_clause(AMPLE, lits.as_slice()) {
        return Err(Fail::from("no clause"));
    }
    Ok(Line {
        clause: Clause::from_vec(lits),
        chain: Row::from_vec(Vec::from_slice(alloc, chain)?),
    })
}
