//! The exploration of the tree of control paths.
ghost use Rattle.std.specs.Prelude.{◌≡◌, ◌≤◌, ◌<◌, ◌+◌, [], ◌∷◌, ◌++◌, length, IfOk, IfSome, OnOk, reverse};
ghost use Rattle.rel_step.specs.declared.simplifying.TheConstants.{MOST_PASSES};
ghost use Rattle.work_crew.specs.Exploring.{IsExploring, IsTopNode, root_path, work};

use bv_passes::Kit;
use ct_entries::Listed;
use ct_pairs::{Found, Job};
use ct_rows::Row;
use path_run::{RecordOf, run_path};
use path_tree::Path;
use query_cache::Cache;
use rel_step::Node;
use std::alloc::{AllocError, Global};

/// What the records of the paths so far say together.
#[derive(Debug, Drop)]
pub struct Explored {
    pub found: Vec<Found>,
    pub listed: Vec<Listed>,
    pub doubts: u128,
    pub ends: u128,
}

impl Explored {
    /// What no record says.
    pub(crate) fn new(alloc: Global) -> Explored
        ensures found { result.found.items ≡ [] }
        ensures listed { result.listed.items ≡ [] }
        ensures doubts { result.doubts ≡ 0 }
        ensures ends { result.ends ≡ 0 }
    {
        Explored {
            found: Vec::new(alloc),
            listed: Vec::new(alloc),
            doubts: 0,
            ends: 0,
        }
    }
}

// The sum; a check that would count beyond 128 bits ends as one that wants memory.
fn sum_of(sum: u128, more: u64) -> Result<u128, AllocError>
    ensures { IfOk result (λ whole. whole ≡ sum + more) }
{
    match sum.checked_add(u128::from(more)) {
        Some(whole) => Ok(whole),
        None => Err(AllocError),
    }
}

// The paths with which exploration begins.
fn root(alloc: Global) -> Result<Vec<Path>, AllocError>
    ensures { IfOk result (λ waiting. waiting.items ≡ root_path ∷ []) }
{
    let mut waiting = Vec::new(alloc);
    waiting.push(Path {
        nexts: Row::from_vec(Vec::new(alloc)),
        leaked: Row::from_vec(Vec::new(alloc)),
    })?;
    Ok(waiting)
}

// Opens the kids of a path, the first of them on top.
fn open(waiting: &mut Vec<Path>, kids: Row<Path>) -> Result<(), AllocError>
    ensures { OnOk result (waiting.new.items ≡ waiting.old.items ++ reverse kids) }
{
    let mut kids = kids.into_vec();
    kids.reverse();
    waiting.append(&mut kids)?;
    Ok(())
}

/// Adds what a record says, and gives the kids of its path.
pub(crate) fn add(explored: &mut Explored, made: RecordOf) -> Result<Row<Path>, AllocError>
    ensures found { OnOk result (explored.new.found.items ≡ explored.old.found.items ++ made.found) }
    ensures listed { OnOk result (explored.new.listed.items ≡ explored.old.listed.items ++ made.listed) }
    ensures doubts { OnOk result (explored.new.doubts ≡ explored.old.doubts + made.doubts) }
    ensures ends { OnOk result (explored.new.ends ≡ explored.old.ends + made.ends) }
    ensures kids { IfOk result (λ kids. kids ≡ made.kids) }
{
    let RecordOf {
        path: _,
        found,
        listed,
        doubts,
        ends,
        kids,
    } = made;
    explored.found.append(&mut found.into_vec())?;
    explored.listed.append(&mut listed.into_vec())?;
    explored.doubts = sum_of(explored.doubts, doubts)?;
    explored.ends = sum_of(explored.ends, ends)?;
    Ok(kids)
}

// Puts the record of one open path to the others, and opens its kids. The node is the path's, and then the one of the
// path on top.
fn advance(
    alloc: Global,
    job: &Job,
    cache: &mut Cache,
    kit: &mut Kit,
    explored: &mut Explored,
    waiting: &mut Vec<Path>,
    node: Option<Node>,
    path: Path,
) -> Result<Option<Node>, AllocError>
    requires exploring { IsExploring job.now explored.old (waiting.old.items ++ path ∷ []) }
    requires node { IfSome node (IsTopNode job.now (waiting.old.items ++ path ∷ [])) }
    requires few { length kit.old.items ≤ MOST_PASSES }
    ensures exploring { OnOk result (IsExploring job.now explored.new waiting.new.items) }
    ensures less { OnOk result (work job.now.bound waiting.new.items < work job.now.bound (waiting.old.items ++ path ∷ [])) }
    ensures node { IfOk result (λ top. IfSome top (IsTopNode job.now waiting.new.items)) }
    ensures passes { length kit.new.items ≡ length kit.old.items }
{
    let run = run_path(alloc, job, node, path, cache, kit)?;
    let (record, first) = run;
    let kids = add(explored, record)?;
    open(waiting, kids)?;
    Ok(first)
}

/// What the records of all control paths of a job say together, depth first, the kids of a path in ascending order of
/// their next address. A path is run from the node of the path that was run before where it is that one's first kid, and
/// else replayed. Of the paths that wait only the nexts and the sites found before are kept, four bytes each.
pub(crate) fn explore(
    alloc: Global,
    job: &Job,
    cache: &mut Cache,
    kit: &mut Kit,
) -> Result<Explored, AllocError>
    requires few { length kit.old.items ≤ MOST_PASSES }
    ensures exploring { IfOk result (λ explored. IsExploring job.now explored []) }
    ensures passes { length kit.new.items ≡ length kit.old.items }
{
    let mut explored = Explored::new(alloc);
    let mut waiting = root(alloc)?;
    let mut node = None;
    'paths: while let Some(path) = waiting.pop() {
        node = advance(
            alloc,
            job,
            cache,
            kit,
            &mut explored,
            &mut waiting,
            node,
            path,
        )?;
    }
    Ok(explored)
}
