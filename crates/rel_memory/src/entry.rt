//! One write among those since the first at an address that is no number.

use crate::contents::Written;

/// A write: at a number, where the byte is the one that is kept for it, or at an address that is none.
#[derive(Clone, Copy)]
pub enum Entry {
    Number(u32),
    Computed(Written),
}
