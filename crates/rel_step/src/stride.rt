//! What the next step of two runs can show.

use bv_expr::ExprId;
use ct_rows::Row;
use rv_machine::End;

/// A next address, and whether the left run goes there: an expression of one bit.
#[derive(Clone, Copy, Debug, PartialEq, Eq)]
pub struct NextIf {
    pub next: u32,
    pub when: ExprId,
}

/// The next step of two runs.
#[derive(Debug, Drop)]
pub struct Stride {
    /// The pc of both runs.
    pub site: u32,
    /// Two expressions that are equal exactly where both runs show the same.
    pub sides: Option<(ExprId, ExprId)>,
    /// Whether the runs show different things: one bit. None where they never do.
    pub leak: Option<ExprId>,
    /// Whether the left run's access is refused: one bit. None where it never is.
    pub fault: Option<ExprId>,
    /// Where the left run can go, each address once.
    pub nexts: Row<NextIf>,
    /// Where the left run goes, in place of a list, for an indirect jump to no constant address.
    pub target: Option<ExprId>,
}

/// What comes after a control path.
#[derive(Debug, Drop)]
pub enum Ahead {
    /// The path is as long as the bound.
    Bound,
    /// Both runs end here without showing anything.
    Ended(End),
    Step(Stride),
}
