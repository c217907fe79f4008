//! Resolvents.
ghost use Rattle.std.specs.Prelude.{◌≡◌, [], length, IfOk, OnOk, Some, None};
ghost use Rattle.std.specs.Bool.{MatchBool};
ghost use Rattle.cnf_form.specs.Resolvent.{joined, resolvent};

use crate::lit::Lit;
use std::alloc::AllocError;

/// Puts the resolvent of two clauses into `out`, if they clash on exactly one variable; else answers
/// false. What `out` held before is lost. Takes time in the lengths of both.
pub fn resolve(out: &mut Vec<Lit>, left: &[Lit], right: &[Lit]) -> Result<bool, AllocError>
    ensures { IfOk result (λ found. MatchBool found (resolvent left.now right.now ≡ Some out.new.items) (resolvent left.now right.now ≡ None)) }
{
    out.clear();
    let clashes = join(out, left, right)?;
    Ok(clashes == 1)
}

/// Joins two clauses behind what `out` holds, which is nothing, and counts where they clash.
fn join(out: &mut Vec<Lit>, left: &[Lit], right: &[Lit]) -> Result<usize, AllocError>
    requires { out.old.items ≡ [] }
    ensures lits { OnOk result (out.new.items ≡ (joined left.now right.now).lits) }
    ensures clashes { IfOk result (λ count. count ≡ length (joined left.now right.now).clashes) }
{
    let mut clashes = 0usize;
    let mut i = 0;
    let mut j = 0;
    'merge: while i < left.len() && j < right.len() {
        let l = left[i];
        let r = right[j];
        if l.var < r.var {
            out.push(l)?;
            i += 1;
        } else if r.var < l.var {
            out.push(r)?;
            j += 1;
        } else {
            if l == r {
                out.push(l)?;
            } else {
                clashes += 1;
            }
            i += 1;
            j += 1;
        }
    }
    out.extend_from_slice(&left[i..])?;
    out.extend_from_slice(&right[j..])?;
    Ok(clashes)
}
