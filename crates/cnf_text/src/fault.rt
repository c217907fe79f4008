//! What is wrong with a formula's text.
ghost use Rattle.std.specs.Prelude.{◌≡◌};

use std::alloc::AllocError;
use thiserror::Error;

/// What is wrong with a line.
#[derive(Clone, Copy, Debug, PartialEq, Eq, Error)]
pub enum Fault {
    /// The first line that is no comment isn't `p cnf VARIABLES CLAUSES`, or there is another such line.
    #[error("expected one line `p cnf VARIABLES CLAUSES`, before the clauses")]
    Header,
    /// A word of a clause is no number, or its variable isn't among the header's.
    #[error("expected a literal of the header's variables, or 0")]
    Literal,
}

/// Why a text is no formula.
#[derive(Clone, Copy, Debug, PartialEq, Eq, Error)]
pub enum TextError {
    /// There was no memory.
    #[error("out of memory")]
    Memory,
    /// The text isn't UTF-8.
    #[error("the file is no text")]
    NotText,
    /// A line is wrong; lines are counted from 1.
    #[error("line {0}: {1}")]
    Line(usize, Fault),
    /// There is no header.
    #[error("there is no line `p cnf VARIABLES CLAUSES`")]
    NoHeader,
    /// The last clause has no 0 at its end.
    #[error("the last clause has no 0 at its end")]
    Open,
    /// The number of clauses isn't the header's.
    #[error("the header has another number of clauses")]
    Count,
}

impl From<AllocError> for TextError {
    fn from(_: AllocError) -> Self {
        TextError::Memory
    }
}
