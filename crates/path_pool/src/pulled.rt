//! What a seat gets from a shared pool.

use path_tree::Path;

/// What a seat gets that asks for a path.
#[derive(Debug, Drop)]
pub enum Pulled {
    /// The path of this number, which is out to the seat from now on.
    Path { number: u64, path: Path },
    /// No path is left for the seat.
    Finished,
}
