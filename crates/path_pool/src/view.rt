//! What a seat at a pool's table knows.

use path_tree::{Bag, PoolCall};

/// The calls that the seat of a number made. No value of it is made. Clauses read an array as a list, of any length.
pub struct Told {
    pub number: u32,
    pub calls: [PoolCall; 0],
}

/// What a seat at the table knows. No value of it is made.
pub struct View {
    /// The seats whose calls it holds, its own first.
    pub held: [Told; 0],
    /// The history as it was after its last call.
    pub seen: Bag,
    /// What others had seen that it took in.
    pub older: [Bag; 0],
    /// The ticket that it drew.
    pub ticket: Option<u64>,
    /// The history that it has, where it has the turn.
    pub turn: Option<Bag>,
}
