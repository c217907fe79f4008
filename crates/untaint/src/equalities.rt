//! The equalities that are kept.

use crate::equality::Equality;
use crate::keeping::keep;
use bv_expr::{Arena, ExprId};
use indexmap::IndexSet;
use std::alloc::{AllocError, Global};
use std::marker::Model;

/// Expressions of one arena that are known to be equal: a list of pairs, each there once and found by one look-up.
/// What the arena gets later leaves them as they were.
#[derive(Drop)]
pub struct Equalities {
    kept: IndexSet<Equality>,
}

impl Model for Equalities {
    ghost use Rattle.std.specs.Prelude.{List, All};
    ghost use Rattle.untaint.specs.declared.equality.Equality.{Equality};
    ghost use Rattle.untaint.specs.Kept.{IsOrdered};

    ghost Value = { List Equality };

    ghost view = { λ equalities. equalities.kept.keys };

    ghost invariant = { λ equalities. All IsOrdered equalities.kept.keys };
}

impl Equalities {
    ghost use Rattle.std.specs.Prelude.{◌≡◌, ◌↔◌, ℕ, ◌<◌, [], length, All, OnOk, OnErr, IsTrue};
    ghost use Rattle.bv_expr.specs.Nodes.{IsValuation, AreBytes};
    ghost use Rattle.untaint.specs.Kept.{equality, AllHold, AreKnown, IsOf, Appends};
    ghost use Rattle.untaint.specs.Peeling.{KeepsPeeled};

    /// No equality. It takes no memory.
    pub fn new(alloc: Global) -> Equalities
        ensures { result ≡ [] }
    {
        Equalities {
            kept: IndexSet::new(alloc),
        }
    }

    /// The equalities, the oldest first.
    pub fn as_slice(&self) -> &[Equality]
        ensures { result.now ≡ self.now }
    {
        self.kept.as_slice()
    }

    /// Keeps two expressions as equal. Where both are sums or exclusive ors with one number, one number less an
    /// expression, or the other bits of two, what is below them is kept as equal too, and so on down.
    ///
    /// Takes time in proportion to the number of operations that are taken off, and no recursion.
    pub fn prove(&mut self, arena: &Arena, l: ExprId, r: ExprId) -> Result<(), AllocError>
        requires left { l.0 < length arena.now }
        requires right { r.0 < length arena.now }
        ensures kept { OnOk result (KeepsPeeled arena.now (equality l.0 r.0) self.old self.new) }
        ensures appended { OnOk result (Appends arena.now (equality l.0 r.0) self.old self.new) }
        ensures known { OnOk result (AreKnown self.new l.0 r.0) }
        ensures inside { OnOk result (All (IsOf arena.now) self.old → All (IsOf arena.now) self.new) }
        ensures holds { OnOk result ((env v : ℕ → ℕ) → AreBytes env → IsValuation env v arena.now → v l.0 ≡ v r.0 → AllHold v self.old → AllHold v self.new) }
        ensures unchanged { OnErr result (self.new ≡ self.old) }
    {
        arena.law();
        let before = self.kept.len();
        if let Err(refused) = keep(&mut self.kept, arena, Equality::of(l, r)) {
            self.kept.truncate(before);
            return Err(refused);
        }
        Ok(())
    }

    /// Whether two expressions are known to be equal: they are one, or kept as equal.
    pub fn known(&self, l: ExprId, r: ExprId) -> bool
        ensures known { IsTrue result ↔ AreKnown self.now l.0 r.0 }
        ensures holds { IsTrue result → (v : ℕ → ℕ) → AllHold v self.now → v l.0 ≡ v r.0 }
    {
        l == r || self.kept.contains(&Equality::of(l, r))
    }
}
