//! What the values met so far have shown.
ghost use Rattle.std.specs.Prelude.{◌≡◌, ◌+◌, ◌<◌, true, ℕ, OnOk, IfOk};
ghost use Rattle.std.specs.Ordering.{nat_cmp};
ghost use Rattle.std.specs.BTreeMap.{get};
ghost use Rattle.ct_pairs.specs.Inputs.{public_count, secret_count};
ghost use Rattle.ct_pairs.specs.Runs.{AreRuns};
ghost use Rattle.ct_pairs.specs.Survey.{SplitAt, value_trail, AreSplits, CoversBelow, Represent, IsSurveyed};

use crate::job::Job;
use crate::noting::{note, note_path};
use crate::runs::Runs;
use crate::value_split::ValueSplit;
use ct_rows::Row;
use indexmap::IndexSet;
use std::alloc::{AllocError, Global};
use std::collections::BTreeMap;

/// What the values met so far have shown: the least value of each different trail in ascending order,
/// the leaks by site, and each different list of next addresses.
#[derive(Drop)]
pub(crate) struct Survey {
    pub representatives: Vec<u8>,
    pub leaks: BTreeMap<u32, ValueSplit>,
    pub paths: IndexSet<Row<u32>>,
}

/// Takes up the next value.
pub(crate) fn survey_value(
    alloc: Global,
    job: &Job,
    runs: &mut Runs,
    survey: &mut Survey,
    value: u8,
) -> Result<(), AllocError>
    requires public { public_count job.now.inputs ≡ 0 }
    requires secret { secret_count job.now.inputs ≡ 1 }
    requires runs { AreRuns job.now runs.old }
    requires surveyed { IsSurveyed job.now value survey.old.representatives.items survey.old.leaks survey.old.paths.keys }
    ensures runs { AreRuns job.now runs.new }
    ensures surveyed { OnOk result (IsSurveyed job.now (value + 1)
        survey.new.representatives.items survey.new.leaks survey.new.paths.keys) }
{
    let Survey {
        representatives,
        leaks,
        paths,
    } = survey;
    if meet(job, runs, leaks, representatives.as_slice(), value)? {
        return Ok(());
    }
    representatives.push(value)?;
    let path = runs.nexts_of(alloc, job, value)?;
    note_path(paths, Row::from_vec(path))?;
    Ok(())
}

/// Compares a value with the representatives of the values before it, and notes where they split.
/// Answers whether one of them has its trail.
fn meet(
    job: &Job,
    runs: &mut Runs,
    leaks: &mut BTreeMap<u32, ValueSplit>,
    representatives: &[u8],
    value: u8,
) -> Result<bool, AllocError>
    requires public { public_count job.now.inputs ≡ 0 }
    requires secret { secret_count job.now.inputs ≡ 1 }
    requires runs { AreRuns job.now runs.old }
    requires represent { Represent SplitAt (value_trail job.now) representatives.now value }
    requires splits { AreSplits SplitAt (value_trail job.now) value (get nat_cmp leaks.old) }
    requires covers { CoversBelow SplitAt (value_trail job.now) value (get nat_cmp leaks.old) }
    ensures runs { AreRuns job.now runs.new }
    ensures splits { OnOk result (AreSplits SplitAt (value_trail job.now) (value + 1) (get nat_cmp leaks.new)) }
    ensures covers { OnOk result (CoversBelow SplitAt (value_trail job.now) (value + 1) (get nat_cmp leaks.new)) }
    ensures known { IfOk result (λ known. known ≡ true →
        (v : ℕ) × (v < value) × (value_trail job.now v ≡ value_trail job.now value)) }
{
    for left in representatives {
        match runs.split_of(job, *left, value) {
            None => return Ok(true),
            Some(split) => {
                let leak = ValueSplit {
                    step: split.step,
                    left: *left,
                    right: value,
                };
                note(leaks, split.left.pc, leak)?;
            }
        }
    }
    Ok(false)
}
