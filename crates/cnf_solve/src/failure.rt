//! Why there is no answer.
ghost use Rattle.std.specs.Prelude.{◌≡◌};

use cnf_text::TextError;
use ct_outside::{ReadEnd, WriteEnd};
use std::alloc::AllocError;
use thiserror::Error;

/// Why there is no answer. As text it is the line on standard error, without the program's name.
#[derive(Clone, Copy, Debug, PartialEq, Eq, Error)]
pub enum Failure {
    /// The words are no task.
    #[error("usage: ctrel_solve FILE BUDGET [--lrat]")]
    Words,
    /// There was no memory.
    #[error("out of memory")]
    Memory,
    /// The file isn't there, or reading it failed.
    #[error("the file can't be read")]
    Read,
    /// The file has more bytes than are read.
    #[error("the file is too long")]
    Long,
    /// The file's text is no formula.
    #[error("{0}")]
    Text(TextError),
    /// The output failed.
    #[error("the answer can't be written")]
    Write,
}

impl From<AllocError> for Failure {
    fn from(_: AllocError) -> Self {
        Failure::Memory
    }
}

impl From<TextError> for Failure {
    fn from(error: TextError) -> Self {
        match error {
            TextError::Memory => Failure::Memory,
            error => Failure::Text(error),
        }
    }
}

impl From<ReadEnd> for Failure {
    fn from(end: ReadEnd) -> Self {
        match end {
            ReadEnd::Memory => Failure::Memory,
            ReadEnd::Fault => Failure::Read,
            ReadEnd::Long => Failure::Long,
        }
    }
}

impl From<WriteEnd> for Failure {
    fn from(_: WriteEnd) -> Self {
        Failure::Write
    }
}
