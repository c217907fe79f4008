//! A crew of members that share a pool of paths.
ghost use Rattle.std.specs.Prelude.{◌≡◌, ◌≤◌, [], All, IfOk, OnOk, vec_len};
ghost use Rattle.path_tree.specs.PoolMachine.{IsLegal, ArePlaced, out_count};
ghost use Rattle.path_pool.specs.Seats.{IsFree};
ghost use Rattle.work_crew.specs.Crew.{HasFewPasses, IsAccount, IsMember, IsStarting, IsUnused};
ghost use Rattle.work_crew.specs.Recorded.{AreOfSeats, AreWhole};
ghost use Rattle.work_crew.specs.TrueRecords.{IsTrueRecord};

use crate::member::{Account, Member};
use crate::working::{begin, work};
use bv_passes::Kit;
use ct_outside::Gate;
use ct_pairs::Job;
use path_pool::{PoolSeat, SharedPool};
use path_run::RecordOf;
use path_tree::Bag;
use query_cache::SharedCache;
use std::alloc::{AllocError, Global};
use std::sync::Wait;
use std::thread;
use std::thread::Threads;

/// How many workers a check has at most.
pub const MOST_WORKERS: u32 = 16;

// A member that holds nothing and has no record.
fn member_of(
    alloc: Global,
    job: &Job,
    pool: &SharedPool,
    number: u32,
    seat: PoolSeat,
    kit: Kit,
) -> Member
    requires seat { IsUnused pool.now seat }
    requires few { HasFewPasses kit }
    ensures member { IsMember job.now pool.now result }
    ensures free { IsFree result.account.seat }
{
    let _job = job;
    let _pool = pool;
    Member {
        number,
        kit,
        held: None,
        account: Account {
            seat,
            records: Vec::new(alloc),
        },
    }
}

// A member for each seat, the first last, each with the kit of its number.
fn members_of(
    alloc: Global,
    job: &Job,
    pool: &SharedPool,
    seats: Vec<PoolSeat>,
    kits: Vec<Kit>,
) -> Result<Vec<Member>, AllocError>
    requires few_seats { vec_len seats ≤ MOST_WORKERS }
    requires enough { vec_len seats ≤ vec_len kits }
    requires seats { All (IsUnused pool.now) seats.items }
    requires few { All HasFewPasses kits.items }
    ensures count { IfOk result (λ members. vec_len members ≡ vec_len seats) }
    ensures members { IfOk result (λ members. All (IsStarting job.now pool.now) members.items) }
{
    let mut seats = seats;
    let mut kits = kits;
    kits.truncate(seats.len());
    let mut members = Vec::new(alloc);
    'members: while let Some(seat) = seats.pop() {
        let Some(kit) = kits.pop() else {
            unreachable!()
        };
        let member = member_of(alloc, job, pool, seats.len() as u32, seat, kit);
        members.push(member)?;
    }
    Ok(members)
}

// The seats and the records of all members.
fn gathered(
    alloc: Global,
    job: &Job,
    pool: &SharedPool,
    all: Vec<Account>,
) -> Result<(Vec<PoolSeat>, Vec<RecordOf>), AllocError>
    requires { All (IsAccount job.now pool.now) all.items }
    ensures count { IfOk result (λ gathered. vec_len gathered.0 ≡ vec_len all) }
    ensures own { IfOk result (λ gathered. All (λ seat. seat.pool ≡ pool.now.pool) gathered.0.items) }
    ensures true_records { IfOk result (λ gathered. All (IsTrueRecord job.now) gathered.1.items) }
    ensures of_seats { IfOk result (λ gathered. AreOfSeats gathered.0.items gathered.1.items) }
{
    let _job = job;
    let _pool = pool;
    let mut all = all;
    let mut seats = Vec::new(alloc);
    let mut records = Vec::new(alloc);
    'members: while let Some(left) = all.pop() {
        let Account {
            seat,
            records: mut more,
        } = left;
        seats.push(seat)?;
        records.append(&mut more)?;
    }
    Ok((seats, records))
}

// Starts the members, and joins them all. Member 0, which may hold a path, stands last in the list: where no thread can
// be made it is the first that runs.
fn joined<R: Threads + Wait + Sync, G: Gate>(
    rt: &R,
    alloc: Global,
    job: &Job,
    pool: &SharedPool,
    cache: &SharedCache,
    gate: &G,
    members: Vec<Member>,
) -> Result<Vec<Account>, AllocError>
    requires { All (IsMember job.now pool.now) members.items }
    ensures count { IfOk result (λ all. vec_len all ≡ vec_len members) }
    ensures left { IfOk result (λ all. All (IsAccount job.now pool.now) all.items) }
{
    thread::map_vec(
        rt,
        members,
        &|member: Member| -> Account
            requires { IsMember job.now pool.now member }
            ensures { IsAccount job.entry.now pool.entry.now result }
        { work(rt, alloc, job, pool, cache, gate, member) },
    )
}

// What the members leave, once the calling thread has walked the first path for member 0.
fn worked<R: Threads + Wait + Sync, G: Gate>(
    rt: &R,
    alloc: Global,
    job: &Job,
    pool: &SharedPool,
    cache: &SharedCache,
    gate: &G,
    members: Vec<Member>,
) -> Result<Vec<Account>, AllocError>
    requires { All (IsStarting job.now pool.now) members.items }
    ensures count { IfOk result (λ all. vec_len all ≡ vec_len members) }
    ensures left { IfOk result (λ all. All (IsAccount job.now pool.now) all.items) }
{
    let mut members = members;
    let Some(first) = members.pop() else {
        return Ok(Vec::new(alloc));
    };
    match begin(rt, alloc, job, pool, cache, first) {
        Ok(first) => {
            members.push(first)?;
            joined(rt, alloc, job, pool, cache, gate, members)
        }
        Err(left) => {
            let mut all = joined(rt, alloc, job, pool, cache, gate, members)?;
            all.push(left)?;
            Ok(all)
        }
    }
}

// Wants memory where a path is left.
fn none_left(bag: &Bag) -> Result<(), AllocError>
    ensures waiting { OnOk result (bag.now.pool.waiting ≡ []) }
    ensures out { OnOk result (out_count bag.now.pool ≡ 0) }
    ensures legal { IsLegal bag.now }
    ensures placed { ArePlaced bag.now.pool }
{
    bag.law();
    let counts = bag.counts();
    if counts.waiting > 0 || counts.out > 0 {
        return Err(AllocError);
    }
    Ok(())
}

/// The records of all paths of the tree from the root, each a true one of its path. The error comes too where a path is
/// left when all members have ended.
pub(crate) fn records_of_crew<R: Threads + Wait + Sync, G: Gate>(
    rt: &R,
    alloc: Global,
    job: &Job,
    workers: u32,
    kits: Vec<Kit>,
    cache: &SharedCache,
    gate: &G,
) -> Result<Vec<RecordOf>, AllocError>
    requires some_workers { 1 ≤ workers }
    requires few_workers { workers ≤ MOST_WORKERS }
    requires enough { workers ≤ vec_len kits }
    requires few { All HasFewPasses kits.items }
    ensures true_records { IfOk result (λ records. All (IsTrueRecord job.now) records.items) }
    ensures whole { IfOk result (λ records. AreWhole records.items) }
{
    let made = SharedPool::make(alloc, workers)?;
    let (pool, seats) = made;
    let members = members_of(alloc, job, &pool, seats, kits)?;
    let all = worked(rt, alloc, job, &pool, cache, gate, members)?;
    let gathered = gathered(alloc, job, &pool, all)?;
    let (seats, records) = gathered;
    let end = pool.end(seats)?;
    none_left(&end.bag)?;
    Ok(records)
}
