//! Where a walk stands.

use crate::stage::Stage;
use rel_step::Node;

/// Where a walk stands: the node of its control path so far, and how far the next step has come.
#[derive(Drop)]
pub(crate) struct Stand {
    pub node: Node,
    pub stage: Stage,
}
