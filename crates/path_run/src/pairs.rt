//! The pair that values of the variables stand for.

ghost use Rattle.std.specs.Prelude.{◌≡◌, ℕ, ◌+◌, ◌*◌, ◌^◌, ◌<◌, drop, length, slice_index, IfOk, OnOk};
ghost use Rattle.bv_expr.specs.Nodes.{AreBytes};
ghost use Rattle.rel_step.specs.Bridge.{pair_of};
ghost use Rattle.path_run.specs.Pairs.{AreDealt};

use bv_expr::Values;
use ct_pairs::{Job, Pair};
use ct_rows::Row;
use std::alloc::{AllocError, Global};

/// The values of a pair so far.
#[derive(Debug, Drop)]
struct Dealt {
    shared: Vec<u8>,
    left: Vec<u8>,
    right: Vec<u8>,
}

// No value yet.
fn none_dealt(alloc: Global, job: &Job, values: &Values) -> Dealt
    ensures { AreDealt (slice_index values.now.0) 0 job.now.inputs result 0 job.now.inputs }
{
    let _job = job;
    let _values = values;
    Dealt {
        shared: Vec::new(alloc),
        left: Vec::new(alloc),
        right: Vec::new(alloc),
    }
}

// Deals the values of one input byte more.
fn deal(dealt: &mut Dealt, values: &Values, job: &Job, count: usize) -> Result<(), AllocError>
    requires inside { count < length job.now.inputs }
    requires dealt { AreDealt (slice_index values.now.0) 0 job.now.inputs dealt.old (2 * count) (drop count job.now.inputs) }
    ensures { OnOk result (AreDealt (slice_index values.now.0) 0 job.now.inputs dealt.new (2 * (count + 1)) (drop (count + 1) job.now.inputs)) }
{
    let input = job.inputs.as_slice()[count];
    if input.secret {
        dealt.left.push(values.byte(2 * count))?;
        dealt.right.push(values.byte(2 * count + 1))?;
    } else {
        dealt.shared.push(values.byte(2 * count))?;
    }
    Ok(())
}

/// The pair that values of the variables stand for.
pub(crate) fn pair_from(alloc: Global, job: &Job, values: &Values) -> Result<Pair, AllocError>
    ensures { IfOk result (λ pair. pair ≡ pair_of job.now (slice_index values.now.0)) }
{
    let mut dealt = none_dealt(alloc, job, values);
    for count in 0..job.inputs.len() {
        deal(&mut dealt, values, job, count)?;
    }
    let Dealt {
        shared,
        left,
        right,
    } = dealt;
    Ok(Pair {
        shared: Row::from_vec(shared),
        left: Row::from_vec(left),
        right: Row::from_vec(right),
    })
}

// Law: what a slice of bytes holds is below 256.
fn bytes_law(bytes: &[u8])
    ensures { (k : ℕ) → slice_index bytes.now k < 2 ^ 8 }
{
    let _count = bytes.len();
}

/// Law: values of the variables are bytes.
pub(crate) fn values_law(values: &Values)
    ensures { AreBytes (slice_index values.now.0) }
{
    bytes_law(values.0.as_slice());
}
