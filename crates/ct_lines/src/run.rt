//! A routine and how far to run it.

use ct_pairs::Entry;
use ct_rows::Text;

/// A routine of a file, and how far to run it.
#[derive(Debug, Drop, PartialEq, Eq, Hash)]
pub(crate) struct Run {
    /// The name of the ELF file.
    pub binary: Text,
    /// Where the routine begins.
    pub entry: Entry,
    /// The greatest number of steps of a run.
    pub bound: u32,
}
