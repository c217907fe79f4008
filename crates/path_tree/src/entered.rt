//! What a seat did with the pool.

/// What changed a pool.
#[derive(Clone, Copy, Debug, PartialEq, Eq)]
pub enum PoolCall {
    /// A seat got the path of this number.
    Took(u64),
    /// A seat was told that no path is left.
    Finished,
    /// A path was replaced by its kids, whose numbers follow one another.
    Split { number: u64, first: u64, count: u64 },
    /// A path is done.
    Closed(u64),
    /// A seat gave a path back, and ended.
    GaveBack(u64),
}

/// An entry of a pool's history.
#[derive(Clone, Copy, Debug, PartialEq, Eq)]
pub struct Entered {
    pub seat: u32,
    pub call: PoolCall,
}
