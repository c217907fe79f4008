//! What sums are without their numbers.

ghost use Rattle.std.specs.Prelude.{◌≡◌, ℕ, ◌<◌, ◌^◌, length, Some, IfSome};
ghost use Rattle.std.specs.Option.{option_map_or};
ghost use Rattle.bv_passes.specs.declared.body.Body.TheVariants.{Old};
ghost use Rattle.ct_words.specs.Words.{alu_value};
ghost use Rattle.ct_words.specs.declared.alu_op.AluOp.TheVariants.{Add, Sub};
ghost use Rattle.bv_expr.specs.Nodes.{HasWidth, IsValuation, AreBytes};
ghost use Rattle.bv_passes.specs.Rewriting.{IsRight};
ghost use Rattle.bv_passes.specs.Adding.{difference_by, difference_body, plain_by, sum_apart, sum_body, less, negated, seen, sum_of, difference_of, with_number, rest_value, body_value, HasWords, IsBodyOf, IsWordOrNone};

use crate::rewrite::{Operand, Rewrite};
use crate::terms::{added_to, less, lessened, negated};
use bv_expr::Arena;
use ct_words::AluOp;

/// What a sum is without the number that is added to it.
#[derive(Clone, Copy, Debug, PartialEq, Eq)]
pub enum Body {
    Nothing,
    /// An expression that is there.
    Old(usize),
    /// 0 less an expression.
    Negative(usize),
    /// An operation on two expressions.
    Operation { op: AluOp, a: usize, b: usize },
}

impl Body {
    // x - y, where x isn't y, by what the two are.
    fn difference_by(
        x: usize,
        y: usize,
        gone: Option<usize>,
        left: Option<usize>,
        turned: Option<usize>,
    ) -> Body
        ensures { result ≡ difference_by x y gone left turned }
    {
        match (gone, left, turned) {
            (Some(p), _, _) => Body::Old(p),
            (None, Some(q), _) => Body::Old(q),
            (None, None, Some(q)) => Body::Operation {
                op: AluOp::Add,
                a: x,
                b: q,
            },
            (None, None, None) => Body::Operation {
                op: AluOp::Sub,
                a: x,
                b: y,
            },
        }
    }

    // x - y, without what is added and taken away.
    fn difference(arena: &Arena, x: usize, y: usize) -> Body
        requires left { HasWidth arena.now x 32 }
        requires right { HasWidth arena.now y 32 }
        ensures body { result ≡ difference_body arena.now x y }
        ensures right { IsBodyOf arena.now (λ v. alu_value Sub (v x) (v y)) result }
    {
        arena.law();
        let gone = added_to(arena, x, y);
        let left = lessened(arena, y, x);
        let turned = negated(arena, y);
        if x == y {
            Body::Nothing
        } else {
            Body::difference_by(x, y, gone, left, turned)
        }
    }

    // x + y, where neither takes the other away, and y is no 0 - q.
    fn sum_plain(arena: &Arena, x: usize, y: usize) -> Body
        requires left { HasWidth arena.now x 32 }
        requires right { HasWidth arena.now y 32 }
        ensures body { result ≡ plain_by arena.now x y (seen arena.now (negated arena.now) x) }
        ensures right { IsBodyOf arena.now (λ v. alu_value Add (v x) (v y)) result }
    {
        arena.law();
        match negated(arena, x) {
            Some(q) => Body::difference(arena, y, q),
            None => Body::Operation {
                op: AluOp::Add,
                a: x,
                b: y,
            },
        }
    }

    // x + y, where neither takes the other away.
    fn sum_apart(arena: &Arena, x: usize, y: usize) -> Body
        requires left { HasWidth arena.now x 32 }
        requires right { HasWidth arena.now y 32 }
        ensures body { result ≡ sum_apart arena.now x y }
        ensures right { IsBodyOf arena.now (λ v. alu_value Add (v x) (v y)) result }
    {
        arena.law();
        match negated(arena, y) {
            Some(q) => Body::difference(arena, x, q),
            None => Body::sum_plain(arena, x, y),
        }
    }

    // x + y, where x isn't p - y.
    fn sum_behind(arena: &Arena, x: usize, y: usize) -> Body
        requires left { HasWidth arena.now x 32 }
        requires right { HasWidth arena.now y 32 }
        ensures body { result ≡ option_map_or Old (seen arena.now (less x) y) (sum_apart arena.now x y) }
        ensures right { IsBodyOf arena.now (λ v. alu_value Add (v x) (v y)) result }
    {
        arena.law();
        match less(arena, y, x) {
            Some(p) => Body::Old(p),
            None => Body::sum_apart(arena, x, y),
        }
    }

    // x + y, without what is added and taken away.
    fn sum(arena: &Arena, x: usize, y: usize) -> Body
        requires left { HasWidth arena.now x 32 }
        requires right { HasWidth arena.now y 32 }
        ensures body { result ≡ sum_body arena.now x y }
        ensures right { IsBodyOf arena.now (λ v. alu_value Add (v x) (v y)) result }
    {
        arena.law();
        match less(arena, x, y) {
            Some(p) => Body::Old(p),
            None => Body::sum_behind(arena, x, y),
        }
    }

    // The sum of what two words are without their numbers.
    pub(crate) fn sum_of(arena: &Arena, x: Option<usize>, y: Option<usize>) -> Body
        requires left { IsWordOrNone arena.now x }
        requires right { IsWordOrNone arena.now y }
        ensures body { result ≡ sum_of arena.now x y }
        ensures right { IsBodyOf arena.now (λ v. alu_value Add (rest_value v x) (rest_value v y)) result }
    {
        arena.law();
        match x {
            Some(left) => match y {
                Some(right) => Body::sum(arena, left, right),
                None => Body::Old(left),
            },
            None => match y {
                Some(right) => Body::Old(right),
                None => Body::Nothing,
            },
        }
    }

    // The difference of what two words are without their numbers.
    pub(crate) fn difference_of(arena: &Arena, x: Option<usize>, y: Option<usize>) -> Body
        requires left { IsWordOrNone arena.now x }
        requires right { IsWordOrNone arena.now y }
        ensures body { result ≡ difference_of arena.now x y }
        ensures right { IsBodyOf arena.now (λ v. alu_value Sub (rest_value v x) (rest_value v y)) result }
    {
        arena.law();
        match x {
            Some(left) => match y {
                Some(right) => Body::difference(arena, left, right),
                None => Body::Old(left),
            },
            None => match y {
                Some(right) => Body::Negative(right),
                None => Body::Nothing,
            },
        }
    }

    // The body with a number added.
    pub(crate) fn with_number(self, number: u32) -> Rewrite
        ensures { result ≡ with_number self number }
    {
        match self {
            Body::Nothing => Rewrite::Number(number),
            Body::Old(x) if number == 0 => Rewrite::Old(x),
            Body::Old(x) => Rewrite::Operation {
                op: AluOp::Add,
                a: Operand::Node(x),
                b: Operand::Word(number),
            },
            Body::Negative(x) => Rewrite::Operation {
                op: AluOp::Sub,
                a: Operand::Word(number),
                b: Operand::Node(x),
            },
            Body::Operation { op, a, b } if number == 0 => Rewrite::Operation {
                op,
                a: Operand::Node(a),
                b: Operand::Node(b),
            },
            Body::Operation { op, a, b } => Rewrite::Raised {
                op,
                a,
                b,
                by: number,
            },
        }
    }
}
