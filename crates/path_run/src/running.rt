//! One control path, run to its record.

ghost use Rattle.std.specs.Prelude.{◌≡◌, ◌≤◌, length, All, IfOk, IfSome};
ghost use Rattle.ct_entries.specs.Entries.{IsTrueListed};
ghost use Rattle.query_ask.specs.Verdicts.{IsRightAnswer};
ghost use Rattle.rel_step.specs.declared.simplifying.TheConstants.{MOST_PASSES};
ghost use Rattle.rel_step.specs.PathNodes.{IsNode};
ghost use Rattle.path_run.specs.Asking.{IsRightTold, IsSpentTold};
ghost use Rattle.path_run.specs.Counting.{IsCounted};
ghost use Rattle.path_run.specs.Records.{IsRecord};
ghost use Rattle.path_run.specs.Walking.{IsHandedOn};

use crate::record_of::RecordOf;
use crate::told::Told;
use crate::walk::{Walk, Walked};
use bv_passes::Kit;
use ct_pairs::Job;
use path_tree::Path;
use query_ask::{Answer, Question, ask};
use query_cache::{Cache, copy_of_verdict};
use rel_step::Node;
use std::alloc::{AllocError, Global};

// Keeps the verdict that an answer gives, if it gives one and there is memory.
fn keep(alloc: Global, cache: &mut Cache, question: Question, answer: &Answer)
    requires { IsRightAnswer question answer.now }
{
    if let Ok(Some(checked)) = answer.checked(alloc, question) {
        let _kept = cache.keep(checked);
    }
}

// What a walk is told of its question: the verdict that the cache has, and else the answer, whose verdict is kept.
fn tell(
    alloc: Global,
    cache: &mut Cache,
    question: Question,
    budget: u64,
) -> Result<Told, AllocError>
    ensures right { IfOk result (IsRightTold question) }
    ensures spent { IfOk result (IsSpentTold budget) }
{
    if let Some(verdict) = cache.look(&question) {
        return Ok(Told::from_verdict(copy_of_verdict(alloc, verdict)?));
    }
    let answer = ask(alloc, &question, budget)?;
    answer.law(&question, budget);
    keep(alloc, cache, question, &answer);
    Ok(Told::from_answer(answer))
}

/// Runs one control path to its record, and gives the node of the first kid. The node that is handed in, where there
/// is one, is that of the path; without one the path is replayed. A question that the cache has isn't asked again, and
/// the verdicts on those that are asked are kept there.
pub fn run_path(
    alloc: Global,
    job: &Job,
    node: Option<Node>,
    path: Path,
    cache: &mut Cache,
    kit: &mut Kit,
) -> Result<(RecordOf, Option<Node>), AllocError>
    requires node { IfSome node (λ n. IsNode job.now n × (n.path ≡ path.nexts)) }
    requires few { length kit.old.items ≤ MOST_PASSES }
    ensures path { IfOk result (λ run. run.0.path ≡ path) }
    ensures true_record { IfOk result (λ run. IsRecord job.now run.0) }
    ensures counted { IfOk result (λ run. IsCounted job.now run.0) }
    ensures spent { IfOk result (λ run. All (IsTrueListed job.now) run.0.listed) }
    ensures handed { IfOk result (λ run. IsHandedOn job.now run.0.kids run.1) }
    ensures passes { length kit.new.items ≡ length kit.old.items }
{
    let mut walk = Walk::begin(alloc, job, node, path, kit)?;
    loop {
        match walk.go(job, kit)? {
            Walked::Done(record, node) => return Ok((record, node)),
            Walked::Ask(question, asking) => {
                let told = tell(alloc, cache, question, job.budget)?;
                walk = asking.told(job, told)?;
            }
        }
    }
}
