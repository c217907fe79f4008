//! A member of a crew, and what it holds and leaves.

use bv_passes::Kit;
use path_pool::PoolSeat;
use path_run::RecordOf;
use path_tree::Path;
use rel_step::Node;

/// A path that is to be walked, and its node where there is one.
#[derive(Drop)]
pub(crate) struct Start {
    pub path: Path,
    pub node: Option<Node>,
}

/// A path of the pool that is out to a member.
#[derive(Drop)]
pub(crate) struct Held {
    pub number: u64,
    pub start: Start,
}

/// The record of a path, its kids for the pool, and the start of the first, where there is one.
#[derive(Drop)]
pub(crate) struct Forked {
    pub record: RecordOf,
    pub kids: Vec<Path>,
    pub first: Option<Start>,
}

/// A seat, with a record of each path that it said is done.
#[derive(Drop)]
pub(crate) struct Account {
    pub seat: PoolSeat,
    pub records: Vec<RecordOf>,
}

/// A member of a crew.
#[derive(Drop)]
pub(crate) struct Member {
    /// From 0 on, as the seats.
    pub number: u32,
    pub kit: Kit,
    /// The path that it is started with.
    pub held: Option<Held>,
    pub account: Account,
}
