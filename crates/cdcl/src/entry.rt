//! Entries of a trail.
use cnf_form::Lit;

/// An assigned literal, and the number of the clause that forces it; a decision has none.
#[derive(Debug, Clone, Copy)]
pub(crate) struct Entry {
    pub lit: Lit,
    pub reason: Option<usize>,
}
