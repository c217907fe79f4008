//! The work of a member of a crew.
ghost use Rattle.std.specs.Prelude.{◌≡◌, ◌≤◌, ◌<◌, length, All, Some, slice_get, IfOk, IfSome, MatchResult, vec_len, vec_capacity};
ghost use Rattle.rel_step.specs.declared.simplifying.TheConstants.{MOST_PASSES};
ghost use Rattle.path_pool.specs.Seats.{IsFree, IsHolding};
ghost use Rattle.path_run.specs.Walking.{IsHandedOn};
ghost use Rattle.work_crew.specs.Crew.{IsStart, IsFirstStart, IsForked, IsAccount, IsHeld, GoesOnWith, IsMember};
ghost use Rattle.work_crew.specs.TrueRecords.{IsTrueRecord};

use crate::member::{Account, Forked, Held, Member, Start};
use crate::telling::tell;
use bv_passes::Kit;
use ct_outside::Gate;
use ct_pairs::Job;
use path_pool::{PoolSeat, Pulled, SharedPool};
use path_run::{RecordOf, Walk, Walked};
use path_tree::Path;
use query_cache::SharedCache;
use rel_step::Node;
use std::alloc::{AllocError, Global};
use std::sync::Wait;

// Walks a path to its record, with a shared cache.
fn walk<R: Wait>(
    rt: &R,
    alloc: Global,
    job: &Job,
    cache: &SharedCache,
    kit: &mut Kit,
    start: Start,
) -> Result<(RecordOf, Option<Node>), AllocError>
    requires start { IsStart job.now start }
    requires few { length kit.old.items ≤ MOST_PASSES }
    ensures path { IfOk result (λ run. run.0.path ≡ start.path) }
    ensures true_record { IfOk result (λ run. IsTrueRecord job.now run.0) }
    ensures handed { IfOk result (λ run. IsHandedOn job.now run.0.kids run.1) }
    ensures passes { length kit.new.items ≡ length kit.old.items }
{
    let Start { path, node } = start;
    let mut walk = Walk::begin(alloc, job, node, path, kit)?;
    loop {
        match walk.go(job, kit)? {
            Walked::Done(record, node) => return Ok((record, node)),
            Walked::Ask(question, asking) => {
                let told = tell(rt, alloc, cache, question, job.budget)?;
                walk = asking.told(job, told)?;
            }
        }
    }
}

fn copy_of(alloc: Global, path: &Path) -> Result<Path, AllocError>
    ensures { IfOk result (λ copy. copy ≡ path.now) }
{
    Ok(Path {
        nexts: path.nexts.copy(alloc)?,
        leaked: path.leaked.copy(alloc)?,
    })
}

// Copies of paths, for the pool.
fn copies_of(alloc: Global, paths: &[Path]) -> Result<Vec<Path>, AllocError>
    ensures { IfOk result (λ copies. copies.items ≡ paths.now) }
{
    let mut copies = Vec::new(alloc);
    for path in paths {
        let copy = copy_of(alloc, path)?;
        copies.push(copy)?;
    }
    Ok(copies)
}

// The start of the first kid, of which the node is. There is none where there is no kid.
fn first_start(
    alloc: Global,
    job: &Job,
    kids: &[Path],
    node: Option<Node>,
) -> Result<Option<Start>, AllocError>
    requires { IsHandedOn job.now kids.now node }
    ensures { IfOk result (IsFirstStart job.now kids.now) }
{
    let _job = job;
    if kids.is_empty() {
        return Ok(None);
    }
    let path = copy_of(alloc, &kids[0])?;
    Ok(Some(Start { path, node }))
}

// Walks a path, and copies its kids.
fn fork<R: Wait>(
    rt: &R,
    alloc: Global,
    job: &Job,
    cache: &SharedCache,
    kit: &mut Kit,
    start: Start,
) -> Result<Forked, AllocError>
    requires start { IsStart job.now start }
    requires few { length kit.old.items ≤ MOST_PASSES }
    ensures forked { IfOk result (IsForked job.now start.path) }
    ensures passes { length kit.new.items ≡ length kit.old.items }
{
    let run = walk(rt, alloc, job, cache, kit, start)?;
    let (record, node) = run;
    let kids = copies_of(alloc, record.kids.as_slice())?;
    let first = first_start(alloc, job, record.kids.as_slice(), node)?;
    Ok(Forked {
        record,
        kids,
        first,
    })
}

// Gives a path back to the pool.
fn give_back<R: Wait>(rt: &R, job: &Job, pool: &SharedPool, account: &mut Account, number: u64)
    requires holds { IsHolding account.old.seat number }
    requires account { IsAccount job.now pool.now account.old }
    ensures account { IsAccount job.now pool.now account.new }
{
    let _job = job;
    let _given = pool.give_back(rt, &mut account.seat, number);
}

// Tells the pool that a path is done, and keeps its record, for which there is room. The first of several kids stays
// with the member. On want of memory the path is given back.
fn hand_in<R: Wait>(
    rt: &R,
    job: &Job,
    pool: &SharedPool,
    account: &mut Account,
    number: u64,
    forked: Forked,
) -> Result<Option<Held>, AllocError>
    requires holds { IsHolding account.old.seat number }
    requires path { slice_get account.old.seat.seen.pool.paths number ≡ Some forked.record.path }
    requires forked { IsForked job.now forked.record.path forked }
    requires account { IsAccount job.now pool.now account.old }
    requires room { vec_len account.old.records < vec_capacity account.old.records }
    ensures account { IsAccount job.now pool.now account.new }
    ensures next { IfOk result (GoesOnWith job.now account.new.seat) }
{
    let Forked {
        record,
        kids,
        first,
    } = forked;
    match first {
        None => {
            let _closed = pool.close(rt, &mut account.seat, number);
            account.records.push_reserved(record);
            Ok(None)
        }
        Some(start) => match pool.split(rt, &mut account.seat, number, kids) {
            Ok(number) => {
                account.records.push_reserved(record);
                Ok(Some(Held { number, start }))
            }
            Err(_) => {
                give_back(rt, job, pool, account, number);
                Err(AllocError)
            }
        },
    }
}

// Walks a path and tells the pool. On want of memory the path is given back.
fn work_off<R: Wait>(
    rt: &R,
    alloc: Global,
    job: &Job,
    pool: &SharedPool,
    cache: &SharedCache,
    kit: &mut Kit,
    account: &mut Account,
    held: Held,
) -> Result<Option<Held>, AllocError>
    requires held { IsHeld job.now account.old.seat held }
    requires few { length kit.old.items ≤ MOST_PASSES }
    requires account { IsAccount job.now pool.now account.old }
    ensures next { IfOk result (GoesOnWith job.now account.new.seat) }
    ensures passes { length kit.new.items ≡ length kit.old.items }
    ensures account { IsAccount job.now pool.now account.new }
{
    let Held { number, start } = held;
    if let Err(_) = account.records.reserve(1) {
        give_back(rt, job, pool, account, number);
        return Err(AllocError);
    }
    match fork(rt, alloc, job, cache, kit, start) {
        Err(error) => {
            give_back(rt, job, pool, account, number);
            Err(error)
        }
        Ok(forked) => hand_in(rt, job, pool, account, number, forked),
    }
}

// The next path that waits.
fn take<R: Wait>(
    rt: &R,
    alloc: Global,
    job: &Job,
    pool: &SharedPool,
    account: &mut Account,
) -> Result<Option<Held>, AllocError>
    requires free { IsFree account.old.seat }
    requires account { IsAccount job.now pool.now account.old }
    ensures account { IsAccount job.now pool.now account.new }
    ensures held { IfOk result (λ held. IfSome held (IsHeld job.now account.new.seat)) }
{
    let _job = job;
    match pool.take(rt, alloc, &mut account.seat)? {
        Pulled::Path { number, path } => Ok(Some(Held {
            number,
            start: Start { path, node: None },
        })),
        Pulled::Finished => Ok(None),
    }
}

// The path with which a member goes on: the one that it holds, and else one that it takes, for which it passes the gate.
fn next_path<R: Wait, G: Gate>(
    rt: &R,
    alloc: Global,
    job: &Job,
    pool: &SharedPool,
    gate: &G,
    number: u32,
    account: &mut Account,
    held: Option<Held>,
) -> Result<Option<Held>, AllocError>
    requires held { GoesOnWith job.now account.old.seat held }
    requires account { IsAccount job.now pool.now account.old }
    ensures account { IsAccount job.now pool.now account.new }
    ensures next { IfOk result (λ next. IfSome next (IsHeld job.now account.new.seat)) }
{
    match held {
        Some(held) => Ok(Some(held)),
        None => {
            let taken = take(rt, alloc, job, pool, account)?;
            if taken.is_some() {
                gate.pass(number);
            }
            Ok(taken)
        }
    }
}

/// The calling thread's part: member 0 takes the one path that there is at first, and walks it. The error is what it
/// leaves on want of memory; it doesn't start then.
pub(crate) fn begin<R: Wait>(
    rt: &R,
    alloc: Global,
    job: &Job,
    pool: &SharedPool,
    cache: &SharedCache,
    member: Member,
) -> Result<Member, Account>
    requires member { IsMember job.now pool.now member }
    requires free { IsFree member.account.seat }
    ensures { MatchResult result (IsMember job.now pool.now) (IsAccount job.now pool.now) }
{
    let Member {
        number,
        mut kit,
        held: _,
        mut account,
    } = member;
    match take(rt, alloc, job, pool, &mut account) {
        Ok(Some(held)) => match work_off(
            rt,
            alloc,
            job,
            pool,
            cache,
            &mut kit,
            &mut account,
            held,
        ) {
            Ok(held) => Ok(Member {
                number,
                kit,
                held,
                account,
            }),
            Err(_) => Err(account),
        },
        Ok(None) => Err(account),
        Err(_) => Err(account),
    }
}

/// The work of a member: it walks the path that it is started with and those that it takes, until no path is left or
/// memory is wanted. What it leaves are its seat and its records.
pub(crate) fn work<R: Wait, G: Gate>(
    rt: &R,
    alloc: Global,
    job: &Job,
    pool: &SharedPool,
    cache: &SharedCache,
    gate: &G,
    member: Member,
) -> Account
    requires { IsMember job.now pool.now member }
    ensures { IsAccount job.now pool.now result }
{
    let Member {
        number,
        mut kit,
        mut held,
        mut account,
    } = member;
    if held.is_some() {
        gate.pass(number);
    }
    'paths: for _ in rt.forever() {
        let Ok(Some(next)) = next_path(rt, alloc, job, pool, gate, number, &mut account, held)
        else {
            break;
        };
        let Ok(kid) = work_off(rt, alloc, job, pool, cache, &mut kit, &mut account, next) else {
            break;
        };
        held = kid;
    }
    account
}
