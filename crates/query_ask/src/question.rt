//! A question by itself, apart from the arena that it came from.

use bv_expr::QNode;
use ct_rows::Row;
use std::marker::Model;

/// Whether some bytes for the variables make the conjuncts and the asked node true, which are nodes of one
/// bit. The operands of a node are earlier nodes, by their numbers.
#[derive(Debug, Drop, PartialEq, Eq, Hash)]
pub struct Question {
    vars: usize,
    nodes: Row<QNode>,
    conjuncts: Row<usize>,
    asked: usize,
}

impl Model for Question {
    ghost use Rattle.query_ask.specs.Questions.{Asked, IsQuestion};

    ghost Value = { Asked };

    ghost view = { λ q. record { vars = q.vars; nodes = q.nodes; conjuncts = q.conjuncts; asked = q.asked } };

    ghost inverse = { λ q. record { vars = q.vars; nodes = q.nodes; conjuncts = q.conjuncts; asked = q.asked } };

    ghost invariant = { λ q. IsQuestion (record { vars = q.vars; nodes = q.nodes; conjuncts = q.conjuncts; asked = q.asked }) };
}

impl Question {
    ghost use Rattle.std.specs.Prelude.{◌≡◌};
    ghost use Rattle.query_ask.specs.Questions.{IsQuestion};

    /// A question of these parts.
    pub fn new(vars: usize, nodes: Row<QNode>, conjuncts: Row<usize>, asked: usize) -> Question
        requires { IsQuestion (record { vars = vars; nodes = nodes; conjuncts = conjuncts; asked = asked }) }
        ensures { result ≡ record { vars = vars; nodes = nodes; conjuncts = conjuncts; asked = asked } }
    {
        Question {
            vars,
            nodes,
            conjuncts,
            asked,
        }
    }

    /// How many variables there are bytes for.
    pub fn vars(&self) -> usize
        ensures { result ≡ self.now.vars }
    {
        self.vars
    }

    pub fn nodes(&self) -> &[QNode]
        ensures { result.now ≡ self.now.nodes }
    {
        self.nodes.as_slice()
    }

    /// The numbers of the conjuncts, in order.
    pub fn conjuncts(&self) -> &[usize]
        ensures { result.now ≡ self.now.conjuncts }
    {
        self.conjuncts.as_slice()
    }

    pub fn asked(&self) -> usize
        ensures { result ≡ self.now.asked }
    {
        self.asked
    }

    /// The question about the same nodes with other conjuncts.
    pub(crate) fn with_conjuncts(self, conjuncts: Row<usize>) -> Question
        requires { IsQuestion (record { vars = self.vars; nodes = self.nodes; conjuncts = conjuncts; asked = self.asked }) }
        ensures { result ≡ record { vars = self.vars; nodes = self.nodes; conjuncts = conjuncts; asked = self.asked } }
    {
        let Question {
            vars,
            nodes,
            asked,
            ..
        } = self;
        Question {
            vars,
            nodes,
            conjuncts,
            asked,
        }
    }

    /// Law: every question is well formed.
    pub fn law(&self)
        ensures { IsQuestion self.now }
    {
        let _vars = self.vars;
    }
}
