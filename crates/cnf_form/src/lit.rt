//! Literals.
ghost use Rattle.std.specs.Prelude.{◌≡◌};

/// A variable or its negation. Takes eight bytes.
#[derive(Debug, Clone, Copy, PartialEq, Eq)]
pub struct Lit {
    pub var: u32,
    pub negated: bool,
}

impl Lit {
    ghost use Rattle.std.specs.Prelude.{◌≡◌};
    ghost use Rattle.cnf_form.specs.Literals.{flip};

    /// The literal of the same variable with the other sign.
    pub fn flip(self) -> Lit
        ensures { result ≡ flip self }
    {
        Lit {
            var: self.var,
            negated: !self.negated,
        }
    }
}
