//! How two runs compare.
use ct_pairs::Split;

/// How the two runs of a pair compare up to a job's bound.
#[derive(Clone, Copy, Debug, PartialEq, Eq)]
pub enum Replayed {
    /// They show the same in all their steps, of which there are so many.
    Agree { steps: u32 },
    /// They first differ here.
    Differ(Split),
}
