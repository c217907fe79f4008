//! Why a log is no refutation.

/// Why a log is no refutation.
#[derive(Debug, Clone, Copy, PartialEq, Eq)]
pub enum Rejected {
    /// There is too little memory.
    Memory,
    /// The first line that isn't derived: its chain is empty, names no clause, or doesn't give its clause.
    BadLine(u64),
    /// All lines are derived, and the last isn't empty or there is none.
    NotEmpty,
}
