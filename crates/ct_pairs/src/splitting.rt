//! Two machines run until they differ.
ghost use Rattle.std.specs.Prelude.{◌≡◌, ◌↔◌, IsTrue, IsNone, IfSome, None, length};
ghost use Rattle.rv_image.specs.Image.{size_of};
ghost use Rattle.ct_pairs.specs.Start.{bounded_trail};
ghost use Rattle.ct_pairs.specs.Split.{FirstSplit};

use crate::job::Job;
use crate::split::Split;
use rv_machine::{Machine, Record};

/// Runs two machines of the job from where they stand, and answers where they first show different
/// records, if they do so within the bound. It stops there, or where both runs have ended.
pub fn first_split(job: &Job, left: &mut Machine, right: &mut Machine) -> Option<Split>
    requires left_bytes { length left.old.bytes ≡ size_of job.now.image }
    requires right_bytes { length right.old.bytes ≡ size_of job.now.image }
    requires one_pc { left.old.pc ≡ right.old.pc }
    requires left_runs { left.old.ending ≡ None }
    requires right_runs { right.old.ending ≡ None }
    ensures none { IsNone result ↔ (bounded_trail job.now left.old ≡ bounded_trail job.now right.old) }
    ensures split { IfSome result (λ split. FirstSplit (bounded_trail job.now left.old)
        (bounded_trail job.now right.old) split.step split.left split.right) }
    ensures one_site { IfSome result (λ split. split.left.pc ≡ split.right.pc) }
    ensures left_size { length left.new.bytes ≡ length left.old.bytes }
    ensures right_size { length right.new.bytes ≡ length right.old.bytes }
{
    let stops = job.stops.as_slice();
    for at in 0..job.bound {
        let left_seen = left.step(&job.image, stops).seen;
        let right_seen = right.step(&job.image, stops).seen;
        let (Some(left_record), Some(right_record)) = (left_seen, right_seen) else {
            return None;
        };
        if !are_same(left_record, right_record) {
            return Some(Split {
                step: at + 1,
                left: left_record,
                right: right_record,
            });
        }
    }
    None
}

fn are_same(left: Record, right: Record) -> bool
    ensures { IsTrue result ↔ (left ≡ right) }
{
    left == right
}
