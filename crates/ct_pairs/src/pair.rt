//! Two starts that agree on public inputs.
use ct_rows::Row;

/// The input values of two starts: one list for the public bytes of both, and one list each for the
/// secret bytes, all in input order. So two starts of a pair agree on public inputs.
#[derive(Debug, Drop, PartialEq, Eq)]
pub struct Pair {
    pub shared: Row<u8>,
    pub left: Row<u8>,
    pub right: Row<u8>,
}
