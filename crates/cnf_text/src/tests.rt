//! Texts that are read, refused and written.
use super::*;
use cdcl::Searched;
use cnf_form::{Assignment, Clause, Line, Lit, Log, is_clause};
use ct_rows::Row;
use std::alloc::Global;
use std::test::Fail;

// A text, and what it is refused for.
const REFUSED: [(&str, TextError); 12] = [
    ("", TextError::NoHeader),
    ("c p cnf 1 1\n", TextError::NoHeader),
    ("1 0\n", TextError::Line(1, Fault::Header)),
    ("c\n\np cnf 1\n", TextError::Line(3, Fault::Header)),
    ("p cnf 1 1 1\n", TextError::Line(1, Fault::Header)),
    ("p cnf 1 0\np cnf 1 0\n", TextError::Line(2, Fault::Header)),
    ("p cnf 2 1\n1 3 0\n", TextError::Line(2, Fault::Literal)),
    ("p cnf 2 1\n\n1 -3 0\n", TextError::Line(3, Fault::Literal)),
    ("p cnf 2 1\n1 x 0\n", TextError::Line(2, Fault::Literal)),
    ("p cnf 2 1\n1 2\n", TextError::Open),
    ("p cnf 2 2\n1 2 0\n", TextError::Count),
    ("p cnf 2 0\n1 2 0\n", TextError::Count),
];

#[test]
fn texts_are_refused(rt: HostRuntime) -> Result<(), Fail> {
    for (text, error) in REFUSED {
        assert_eq!(rt;
            read_formula(rt.alloc(), text.as_bytes()).err(),
            Some(error),
            "{text:?}"
        );
    }
    Ok(())
}

// Clauses over lines as they come, one that always holds, and one that names a literal twice.
const FIVE: &str = "c five clauses\np cnf 2 5\n2 1 0 1\n-1 0\n\n-2 1 1 0 -1 2 0\n-1 -2 0\n";

#[test]
fn clauses_are_sorted_and_numbered(rt: HostRuntime) -> Result<(), Fail> {
    let formula = read_formula(rt.alloc(), FIVE.as_bytes()).map_err(|_| Fail::from("refused"))?;
    assert_eq!(rt; formula.cnf.vars, 2);
    assert_eq!(rt; formula.count, 5);
    assert_eq!(rt; formula.numbers.as_slice(), [1, 3, 4, 5].as_slice());
    let expected: [(bool, bool); 4] = [(false, false), (false, true), (true, false), (true, true)];
    for (at, (first, second)) in expected.iter().enumerate() {
        assert_eq!(rt;
            literals(&formula, at),
            [lit(0, *first), lit(1, *second)].as_slice()
        );
    }
    Ok(())
}

fn literals(formula: &Formula, at: usize) -> &[Lit] {
    if at < formula.cnf.clauses.len() {
        formula.cnf.clauses.get(at)
    } else {
        &[]
    }
}

fn lit(var: u32, negated: bool) -> Lit {
    Lit { var, negated }
}

fn answer(alloc: Global, found: &Searched, derivation: bool) -> Result<String, Fail> {
    let formula = read_formula(alloc, FIVE.as_bytes()).map_err(|_| Fail::from("refused"))?;
    let text = answer_text(alloc, &formula, found, derivation)?;
    Ok(text)
}

// The first clause and the second give x; x and the others give y and not y.
fn refutation(alloc: Global) -> Result<Searched, Fail> {
    let mut log = Log::new(alloc);
    log.push(&line(alloc, &[lit(0, false)], &[0, 1])?)?;
    log.push(&line(alloc, &[], &[3, 2, 4])?)?;
    Ok(Searched::Refuted(log))
}

#[test]
fn refutations_are_written(rt: HostRuntime) -> Result<(), Fail> {
    let refuted = refutation(rt.alloc())?;
    let text = answer(rt.alloc(), &refuted, false)?;
    assert_eq!(rt; text.as_str(), "s UNSATISFIABLE\n");
    let text = answer(rt.alloc(), &refuted, true)?;
    assert_eq!(rt;
        text.as_str(),
        "s UNSATISFIABLE\n6 1 0 3 1 0\n7 0 6 4 5 0\n"
    );
    Ok(())
}

#[test]
fn spent_budgets_are_written(rt: HostRuntime) -> Result<(), Fail> {
    let text = answer(rt.alloc(), &Searched::Spent(Log::new(rt.alloc())), true)?;
    assert_eq!(rt; text.as_str(), "s UNKNOWN\n");
    Ok(())
}

// Eleven values, of which the third alone is false.
fn solution(alloc: Global) -> Result<Searched, Fail> {
    let mut values = Vec::new(alloc);
    for at in 0..11 {
        values.push(at != 2)?;
    }
    Ok(Searched::Solved(Assignment {
        values: Row::from_vec(values),
    }))
}

#[test]
fn solutions_are_written(rt: HostRuntime) -> Result<(), Fail> {
    let solved = solution(rt.alloc())?;
    let text = answer(rt.alloc(), &solved, true)?;
    assert_eq!(rt;
        text.as_str(),
        "s SATISFIABLE\nv 1 2 -3 4 5 6 7 8 9 10\nv 11 0\n"
    );
    Ok(())
}

fn line(alloc: Global, lits: &[Lit], chain: &[u64]) -> Result<Line, Fail> {
    let lits = Vec::from_slice(alloc, lits)?;
    if !is_clause(2, lits.as_slice()) {
        return Err(Fail::from("no clause"));
    }
    Ok(Line {
        clause: Clause::from_vec(lits),
        chain: Row::from_vec(Vec::from_slice(alloc, chain)?),
    })
}
