//! What a question claims.

ghost use Rattle.std.specs.Prelude.{◌≡◌, ◌++◌, None, IfOk, option_to_list, if◌then◌else◌};
ghost use Rattle.rel_step.specs.Asking.{equal_claim};

use crate::last::Last;
use bv_expr::ExprId;
use std::alloc::{AllocError, Global};

/// Whether the runs show the same next, where that is to be claimed.
pub(crate) fn claim_of(last: &Option<Last>, equal: bool) -> Option<ExprId>
    ensures { result ≡ equal_claim last.now equal }
{
    if !equal {
        return None;
    }
    match last {
        Some(last) => last.equal,
        None => None,
    }
}

/// The conjuncts of a control path with one more claim.
pub(crate) fn claims(
    alloc: Global,
    conjuncts: &[ExprId],
    claim: Option<ExprId>,
) -> Result<Vec<ExprId>, AllocError>
    ensures { IfOk result (λ all. all.items ≡ conjuncts.now ++ option_to_list claim) }
{
    let mut all = Vec::from_slice(alloc, conjuncts)?;
    if let Some(claim) = claim {
        all.push(claim)?;
    }
    Ok(all)
}
