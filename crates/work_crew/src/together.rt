//! Records of a whole tree of paths, put together.
ghost use Rattle.std.specs.Prelude.{[], All, IfOk};
ghost use Rattle.work_crew.specs.Exploring.{IsExploring};
ghost use Rattle.work_crew.specs.Recorded.{AreWhole};
ghost use Rattle.work_crew.specs.TrueRecords.{IsTrueRecord};

use crate::exploring::{Explored, add};
use ct_pairs::Job;
use path_run::RecordOf;
use std::alloc::{AllocError, Global};

/// What the records of a whole tree say together, in any order.
pub(crate) fn put_together(
    alloc: Global,
    job: &Job,
    records: Vec<RecordOf>,
) -> Result<Explored, AllocError>
    requires true_records { All (IsTrueRecord job.now) records.items }
    requires whole { AreWhole records.items }
    ensures { IfOk result (λ explored. IsExploring job.now explored []) }
{
    let _job = job;
    let mut records = records;
    let mut explored = Explored::new(alloc);
    'records: while let Some(record) = records.pop() {
        let kids = add(&mut explored, record)?;
        drop(kids);
    }
    Ok(explored)
}
