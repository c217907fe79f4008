//! Whether a condition holds of two words.
ghost use Rattle.std.specs.Prelude.{◌≡◌};
ghost use Rattle.ct_words.specs.Words.{test_value};

use crate::cond::Cond;

/// Whether the branch is taken.
#[tactic(auto, unfolding(crate::specs::Words::test_value))]
pub fn test(cond: Cond, a: u32, b: u32) -> bool
    ensures { result ≡ test_value cond a b }
{
    match cond {
        Cond::Eq => a == b,
        Cond::Ne => a != b,
        Cond::Lt => a.cast_signed() < b.cast_signed(),
        Cond::Ge => a.cast_signed() >= b.cast_signed(),
        Cond::Ltu => a < b,
        Cond::Geu => a >= b,
    }
}
