//! Variables of nodes.
ghost use Rattle.std.specs.Prelude.{◌≡◌, ℕ, ◌<◌, true, Some, slice_get};
ghost use Rattle.query_ask.specs.Variables.{is_variable_below};
ghost use Rattle.bv_expr.specs.declared.q_node.QNode.TheVariants.{Input};

use bv_expr::QNode;

/// Whether all variables of the nodes are below a number.
pub fn are_variables_below(nodes: &[QNode], vars: usize) -> bool
    ensures { result ≡ true → (i variable : ℕ) → slice_get nodes.now i ≡ Some (Input variable) → variable < vars }
{
    nodes.iter().all(|node| is_variable_below(*node, vars))
}

fn is_variable_below(node: QNode, vars: usize) -> bool
    ensures { result ≡ is_variable_below vars node }
{
    match node {
        QNode::Input { variable } => variable < vars,
        _ => true,
    }
}
