//! Pairs of watched literals.
use cnf_form::Lit;

/// The two literals of a clause that are watched; one literal twice where the clause has no other.
#[derive(Debug, Clone, Copy)]
pub(crate) struct Watched {
    pub first: Lit,
    pub second: Lit,
}

impl Watched {
    ghost use Rattle.cdcl.specs.Watch.{IsOtherOf};

    /// The other watched literal, where this one is watched.
    pub(crate) fn other_than(self, lit: Lit) -> Option<Lit>
        ensures { IsOtherOf self lit result }
    {
        if self.first == lit {
            Some(self.second)
        } else if self.second == lit {
            Some(self.first)
        } else {
            None
        }
    }
}
