//! Formulas, and whether they have a solution.
use cnf_form::{Cnf, Lit, is_clause};
use std::alloc::Global;
use std::test::Fail;

// A name, the number of variables, the clauses with a 0 behind each, a variable's number negated for its
// negation, and whether there is a solution. That was found by trying all values.
pub(crate) const ROWS: [(&str, u64, &[i32], bool); 22] = [
    ("nothing", 0, &[], true),
    ("three free variables", 3, &[], true),
    ("the empty clause", 1, &[0], false),
    ("x and not x", 1, &[1, 0, -1, 0], false),
    (
        "four clauses of two variables",
        2,
        &[1, 2, 0, 1, -2, 0, -1, 2, 0, -1, -2, 0],
        false,
    ),
    ("x or y, not x or z", 3, &[1, 2, 0, -1, 3, 0], true),
    (
        "a chain of units",
        4,
        &[1, 0, -1, 2, 0, -2, 3, 0, -3, 4, 0],
        true,
    ),
    (
        "a chain of units and its end negated",
        4,
        &[1, 0, -1, 2, 0, -2, 3, 0, -3, 4, 0, -4, 0],
        false,
    ),
    ("a clause twice", 2, &[1, 2, 0, 1, 2, 0, -1, 0], true),
    (
        "the empty clause among others",
        3,
        &[1, 2, 0, 0, -2, 3, 0],
        false,
    ),
    (
        "three pigeons in two holes",
        6,
        &[
            1, 2, 0, 3, 4, 0, 5, 6, 0, -1, -3, 0, -1, -5, 0, -3, -5, 0, -2, -4, 0, -2, -6, 0, -4,
            -6, 0,
        ],
        false,
    ),
    (
        "three pigeons in three holes",
        9,
        &[
            1, 2, 3, 0, 4, 5, 6, 0, 7, 8, 9, 0, -1, -4, 0, -1, -7, 0, -4, -7, 0, -2, -5, 0, -2, -8,
            0, -5, -8, 0, -3, -6, 0, -3, -9, 0, -6, -9, 0,
        ],
        true,
    ),
    (
        "four pigeons in three holes",
        12,
        &[
            1, 2, 3, 0, 4, 5, 6, 0, 7, 8, 9, 0, 10, 11, 12, 0, -1, -4, 0, -1, -7, 0, -1, -10, 0,
            -4, -7, 0, -4, -10, 0, -7, -10, 0, -2, -5, 0, -2, -8, 0, -2, -11, 0, -5, -8, 0, -5,
            -11, 0, -8, -11, 0, -3, -6, 0, -3, -9, 0, -3, -12, 0, -6, -9, 0, -6, -12, 0, -9, -12,
            0,
        ],
        false,
    ),
    (
        "three differ in a ring",
        3,
        &[1, 2, 0, -1, -2, 0, 2, 3, 0, -2, -3, 0, 1, 3, 0, -1, -3, 0],
        false,
    ),
    (
        "four differ in a ring",
        4,
        &[
            1, 2, 0, -1, -2, 0, 2, 3, 0, -2, -3, 0, 3, 4, 0, -3, -4, 0, 1, 4, 0, -1, -4, 0,
        ],
        true,
    ),
    (
        "parities that agree",
        5,
        &[
            1, 2, 3, 0, 1, -2, -3, 0, -1, 2, -3, 0, -1, -2, 3, 0, 3, 4, -5, 0, 3, -4, 5, 0, -3, 4,
            5, 0, -3, -4, -5, 0, 1, 2, 4, 5, 0, 1, 2, -4, -5, 0, 1, -2, 4, -5, 0, 1, -2, -4, 5, 0,
            -1, 2, 4, -5, 0, -1, 2, -4, 5, 0, -1, -2, 4, 5, 0, -1, -2, -4, -5, 0,
        ],
        true,
    ),
    (
        "parities that contradict",
        5,
        &[
            1, 2, 3, 0, 1, -2, -3, 0, -1, 2, -3, 0, -1, -2, 3, 0, 3, 4, -5, 0, 3, -4, 5, 0, -3, 4,
            5, 0, -3, -4, -5, 0, 1, 2, 4, -5, 0, 1, 2, -4, 5, 0, 1, -2, 4, 5, 0, 1, -2, -4, -5, 0,
            -1, 2, 4, 5, 0, -1, 2, -4, -5, 0, -1, -2, 4, -5, 0, -1, -2, -4, 5, 0,
        ],
        false,
    ),
    (
        "all but one of eight clauses",
        3,
        &[
            1, 2, -3, 0, 1, -2, 3, 0, 1, -2, -3, 0, -1, 2, 3, 0, -1, 2, -3, 0, -1, -2, 3, 0, 1, 2,
            3, 0,
        ],
        true,
    ),
    (
        "all eight clauses",
        3,
        &[
            1, 2, 3, 0, 1, 2, -3, 0, 1, -2, 3, 0, 1, -2, -3, 0, -1, 2, 3, 0, -1, 2, -3, 0, -1, -2,
            3, 0, -1, -2, -3, 0,
        ],
        false,
    ),
    (
        "one of four",
        4,
        &[
            1, 2, 3, 4, 0, -1, -2, 0, -1, -3, 0, -1, -4, 0, -2, -3, 0, -2, -4, 0, -3, -4, 0,
        ],
        true,
    ),
    (
        "a square in two colours",
        8,
        &[
            1, 2, 0, 3, 4, 0, 5, 6, 0, 7, 8, 0, -1, -3, 0, -2, -4, 0, -3, -5, 0, -4, -6, 0, -5, -7,
            0, -6, -8, 0, -1, -7, 0, -2, -8, 0,
        ],
        true,
    ),
    (
        "a pentagon in two colours",
        10,
        &[
            1, 2, 0, 3, 4, 0, 5, 6, 0, 7, 8, 0, 9, 10, 0, -1, -3, 0, -2, -4, 0, -3, -5, 0, -4, -6,
            0, -5, -7, 0, -6, -8, 0, -7, -9, 0, -8, -10, 0, -1, -9, 0, -2, -10, 0,
        ],
        false,
    ),
];

/// The formula with these clauses.
pub(crate) fn formula(alloc: Global, vars: u64, numbers: &[i32]) -> Result<Cnf, Fail> {
    let mut cnf = Cnf::new(alloc, vars);
    let mut lits: Vec<Lit> = Vec::new(alloc);
    for number in numbers {
        if *number == 0 {
            if !is_clause(cnf.vars, lits.as_slice()) {
                return Err(Fail::from("no clause"));
            }
            cnf.push(lits.as_slice())?;
            lits.clear();
        } else {
            lits.push(Lit {
                var: number.unsigned_abs() - 1,
                negated: *number < 0,
            })?;
        }
    }
    Ok(cnf)
}
