//! A byte that differs from start to start.
use crate::place::Place;

/// A byte that differs from start to start. A public one is equal in both starts of a pair.
#[derive(Clone, Copy, Debug, PartialEq, Eq)]
pub struct InputByte {
    pub place: Place,
    pub secret: bool,
}
