//! Reading of formulas.
ghost use Rattle.std.specs.Prelude.{◌≡◌};

use crate::fault::{Fault, TextError};
use crate::formula::Formula;
use cnf_form::{Cnf, Lit, is_clause};
use std::alloc::{AllocError, Global};
use std::str;

/// Reads a formula in the DIMACS format: comments, lines that begin with `c`; the header
/// `p cnf VARIABLES CLAUSES`; and the clauses, numbers with a 0 behind each clause, over lines as they come.
///
/// A literal that stands twice in a clause counts once. Takes time in the length of the text, and in
/// n log n for a clause of n literals.
pub fn read_formula(alloc: Global, text: &[u8]) -> Result<Formula, TextError> {
    let Ok(text) = str::from_utf8(text) else {
        return Err(TextError::NotText);
    };
    let mut read: Option<Body> = None;
    for (at, line) in text.lines().enumerate() {
        if line.starts_with('c') {
            continue;
        }
        match &mut read {
            None => {
                if line.trim().is_empty() {
                    continue;
                }
                match header(line) {
                    Some((vars, count)) => read = Some(Body::new(alloc, vars, count)),
                    None => return Err(TextError::Line(at + 1, Fault::Header)),
                }
            }
            Some(body) => {
                if line.starts_with('p') {
                    return Err(TextError::Line(at + 1, Fault::Header));
                }
                if !body.line(line)? {
                    return Err(TextError::Line(at + 1, Fault::Literal));
                }
            }
        }
    }
    match read {
        None => Err(TextError::NoHeader),
        Some(body) => body.end(),
    }
}

/// The numbers of variables and of clauses.
fn header(line: &str) -> Option<(u32, usize)> {
    let mut words = line.split_ascii_whitespace();
    if words.next()? != "p" || words.next()? != "cnf" {
        return None;
    }
    let vars = words.next()?.parse::<u32>().ok()?;
    let count = words.next()?.parse::<usize>().ok()?;
    match words.next() {
        None => Some((vars, count)),
        Some(_) => None,
    }
}

/// What was read behind the header.
#[derive(Debug, Drop)]
struct Body {
    formula: Formula,
    /// How many clauses the header has.
    promised: usize,
    /// The clause that was begun.
    lits: Vec<Lit>,
}

impl Body {
    fn new(alloc: Global, vars: u32, promised: usize) -> Body {
        Body {
            formula: Formula {
                cnf: Cnf::new(alloc, vars as u64),
                numbers: Vec::new(alloc),
                count: 0,
            },
            promised,
            lits: Vec::new(alloc),
        }
    }

    /// Takes a line; the answer is whether it is right.
    fn line(&mut self, line: &str) -> Result<bool, AllocError> {
        for word in line.split_ascii_whitespace() {
            match word.parse::<i64>() {
                Ok(0) => self.clause()?,
                Ok(number) => {
                    let Ok(var) = u32::try_from(number.unsigned_abs() - 1) else {
                        return Ok(false);
                    };
                    if u64::from(var) >= self.formula.cnf.vars {
                        return Ok(false);
                    }
                    self.lits.push(Lit {
                        var,
                        negated: number < 0,
                    })?;
                }
                Err(_) => return Ok(false),
            }
        }
        Ok(true)
    }

    /// Ends a clause.
    fn clause(&mut self) -> Result<(), AllocError> {
        self.lits.sort_unstable_by_key(|lit| (lit.var, lit.negated));
        self.lits.dedup();
        self.formula.add(self.lits.as_slice())?;
        self.lits.clear();
        Ok(())
    }

    fn end(self) -> Result<Formula, TextError> {
        let Body {
            formula,
            promised,
            lits,
        } = self;
        if !lits.is_empty() {
            return Err(TextError::Open);
        }
        if formula.count != promised {
            return Err(TextError::Count);
        }
        Ok(formula)
    }
}

impl Formula {
    /// One clause more. In ascending order it is either a clause or has both signs of a variable.
    fn add(&mut self, lits: &[Lit]) -> Result<(), AllocError> {
        self.count = self.count.saturating_add(1);
        if is_clause(self.cnf.vars, lits) {
            self.numbers.push(self.count)?;
            self.cnf.push(lits)?;
        }
        Ok(())
    }
}
