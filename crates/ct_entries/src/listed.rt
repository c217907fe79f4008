//! A question that a check could not settle.

use cnf_form::{Cnf, Log};
use ct_pairs::Pair;
use ct_rows::Row;

/// A next address of a step, and a pair both of whose runs go there.
#[derive(Debug, Drop)]
pub struct Seen {
    pub next: u32,
    pub pair: Pair,
}

/// Why a question was left open.
#[derive(Debug, Drop)]
pub enum Cause {
    /// The search for a pair that splits in the next step ran out of its budget. The formula has a solution
    /// exactly where there is such a pair, and the log is what was learnt.
    SpentLeak {
        cnf: Cnf,
        log: Log,
    },
    /// The search for a pair that goes to none of the explored nexts ran out of its budget.
    SpentNext {
        explored: Row<u32>,
        cnf: Cnf,
        log: Log,
    },
    /// A step has more nexts than are explored: these, one more than the job's targets, of which the last isn't
    /// explored.
    Over {
        seen: Row<Seen>,
    },
}

/// A question that was left open, after the control path where it was asked.
#[derive(Debug, Drop)]
pub struct Listed {
    pub path: Row<u32>,
    pub cause: Cause,
}
