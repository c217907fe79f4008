//! The policy of generated code.
ghost use Rattle.std.specs.Prelude.{◌≡◌, IfOk};
ghost use Rattle.std.specs.String.{string_bytes};
ghost use Rattle.ct_gen.specs.Building as spelled;

use std::alloc::{AllocError, Global};

/// The policy of generated code of so many words: the run takes as many steps at most, s0 points to
/// 64 secret bytes, and s2 to memory.
#[tactic(auto, unfolding(crate::specs::Building::policy_of))]
pub fn policy_of(alloc: Global, words: u32) -> Result<String, AllocError>
    ensures { IfOk result (λ policy. string_bytes policy ≡ spelled.policy_of words) }
{
    format!(in alloc;
        "format = 1
entry = \"routine\"
bound = {words}
[registers]
s0 = \"buf\"
s2 = \"work\"
[[input]]
at = \"buf\"
length = 64
kind = \"secret\"
"
    )
}
