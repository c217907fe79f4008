//! Copies of verdicts.
ghost use Rattle.std.specs.Prelude.{◌≡◌, IfOk};

use bv_expr::Values;
use query_ask::Verdict;
use std::alloc::{AllocError, Global};

/// A copy of a verdict. Its cost is that of its values.
pub fn copy_of_verdict(alloc: Global, verdict: &Verdict) -> Result<Verdict, AllocError>
    ensures { IfOk result (λ copy. copy ≡ verdict.now) }
{
    match verdict {
        Verdict::Yes(values) => Ok(Verdict::Yes(Values(values.0.copy(alloc)?))),
        Verdict::No => Ok(Verdict::No),
    }
}
