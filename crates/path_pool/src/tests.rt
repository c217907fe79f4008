//! What no clause says of a shared pool: that it answers while there is memory, and that two threads share it.
ghost use Rattle.std.specs.Prelude.{◌≡◌, IfOk, OnOk, vec_len};
ghost use Rattle.path_pool.specs.Seats.{IsFresh, IsHolding};

use super::*;
use ct_rows::Row;
use path_tree::{Bag, Counts, Entered, Path, PoolCall, Taken};
use std::alloc::{AllocError, Global};
use std::sync::Wait;
use std::test::Fail;
use std::thread::{Threads, join};

fn path_to(alloc: Global, next: u32) -> Result<Path, AllocError> {
    Ok(Path {
        nexts: Row::from_vec(vec![in alloc; next]?),
        leaked: Row::from_vec(Vec::new(alloc)),
    })
}

fn kids_of(alloc: Global) -> Result<Vec<Path>, AllocError>
    ensures { IfOk result (λ kids. vec_len kids ≡ 2) }
{
    let first = path_to(alloc, 4)?;
    let second = path_to(alloc, 8)?;
    let kids = vec![in alloc; first, second]?;
    Ok(kids)
}

#[test]
fn replies_of_a_pool_with_one_seat(rt: HostRuntime) -> Result<(), Fail> {
    let alloc = rt.alloc();
    let (pool, mut seats) = SharedPool::make(alloc, 1)?;
    let mut seat = seats.pop().ok_or("a seat")?;
    let Pulled::Path { number, path } = pool.take(&rt, alloc, &mut seat)? else {
        return Err(Fail::from("path 0 waits"));
    };
    assert_eq!(rt; (number, path.nexts.get(0).copied()), (0, None));
    let first = pool.split(&rt, &mut seat, number, kids_of(alloc)?).ok();
    let first = first.ok_or("path 0 is out")?;
    assert_eq!(rt; first, 1);
    assert_eq!(rt; pool.close(&rt, &mut seat, first), Ok(()));
    let Pulled::Path { number, path } = pool.take(&rt, alloc, &mut seat)? else {
        return Err(Fail::from("path 2 waits"));
    };
    assert_eq!(rt; (number, path.nexts.get(0).copied()), (2, Some(8)));
    assert_eq!(rt; pool.close(&rt, &mut seat, number), Ok(()));
    let last = pool.take(&rt, alloc, &mut seat)?;
    assert!(rt; matches!(last, Pulled::Finished), "no path is left");
    let end = pool.end(vec![in alloc; seat]?)?;
    let counts = Counts {
        waiting: 0,
        out: 0,
        done: 3,
    };
    assert_eq!(rt; end.bag.counts(), counts);
    Ok(())
}

#[test]
fn a_path_given_back_is_taken_by_another_seat(rt: HostRuntime) -> Result<(), Fail> {
    let alloc = rt.alloc();
    let (pool, mut seats) = SharedPool::make(alloc, 2)?;
    let mut second = seats.pop().ok_or("two seats")?;
    let mut first = seats.pop().ok_or("two seats")?;
    let Pulled::Path { number, .. } = pool.take(&rt, alloc, &mut first)? else {
        return Err(Fail::from("path 0 waits"));
    };
    assert_eq!(rt; pool.give_back(&rt, &mut first, number), Ok(()));
    let Pulled::Path { number, .. } = pool.take(&rt, alloc, &mut second)? else {
        return Err(Fail::from("path 0 waits again"));
    };
    assert_eq!(rt; number, 0);
    Ok(())
}

/// What a seat was told, in order.
#[derive(Drop)]
struct Replies {
    seat: PoolSeat,
    calls: Vec<PoolCall>,
}

// Closes a path, or splits it in two and closes the first.
fn close_off<R: Wait>(
    rt: &R,
    alloc: Global,
    pool: &SharedPool,
    seat: &mut PoolSeat,
    calls: &mut Vec<PoolCall>,
    number: u64,
    is_whole: bool,
) -> Result<(), AllocError>
    requires { (seat.old.pool ≡ pool.now.pool) × IsHolding seat.old number }
    ensures { OnOk result (IsFresh pool.now seat.new) }
{
    let mut number = number;
    if is_whole {
        let first = pool.split(rt, seat, number, kids_of(alloc)?).ok();
        let first = first.ok_or(AllocError)?;
        calls.push(PoolCall::Split {
            number,
            first,
            count: 2,
        })?;
        number = first;
    }
    let _done = pool.close(rt, seat, number);
    calls.push(PoolCall::Closed(number))?;
    Ok(())
}

// Closes paths until none is left. The path with no next is split in two.
fn work<R: Wait>(
    rt: &R,
    alloc: Global,
    pool: &SharedPool,
    seat: PoolSeat,
) -> Result<Replies, AllocError>
    requires { IsFresh pool.now seat }
    ensures { IfOk result (λ replies. replies.seat.pool ≡ pool.now.pool) }
{
    let mut seat = seat;
    let mut calls = Vec::new(alloc);
    'paths: for _ in rt.forever() {
        let Pulled::Path { number, path } = pool.take(rt, alloc, &mut seat)? else {
            break;
        };
        calls.push(PoolCall::Took(number))?;
        let is_whole = path.nexts.is_empty();
        close_off(rt, alloc, pool, &mut seat, &mut calls, number, is_whole)?;
    }
    calls.push(PoolCall::Finished)?;
    Ok(Replies { seat, calls })
}

// Whether a bag makes the same history where the seats ask it one after another.
fn replays(alloc: Global, seats: u32, history: &[Entered]) -> Result<bool, AllocError> {
    let mut bag = Bag::new(alloc, seats)?;
    for entry in history {
        if !is_next(alloc, &mut bag, entry)? {
            return Ok(false);
        }
    }
    Ok(bag.history() == history)
}

// Asks a bag for one entry of a history.
fn is_next(alloc: Global, bag: &mut Bag, entry: &Entered) -> Result<bool, AllocError> {
    let seat = entry.seat;
    match entry.call {
        PoolCall::Took(number) => Ok(bag.may_take(seat) && bag.take(seat) == Taken::Number(number)),
        PoolCall::Finished => Ok(bag.may_take(seat) && bag.take(seat) == Taken::Finished),
        PoolCall::Split { number, .. } => Ok(bag.split(seat, number, kids_of(alloc)?).is_ok()),
        PoolCall::Closed(number) => Ok(bag.close(seat, number).is_ok()),
        PoolCall::GaveBack(number) => Ok(bag.give_back(seat, number).is_ok()),
    }
}

// Whether the calls of a seat in a history are these.
fn has_calls(history: &[Entered], seat: u32, calls: &[PoolCall]) -> bool {
    let own = history.iter().filter(|entry| entry.seat == seat);
    own.map(|entry| entry.call).eq(calls.iter().copied())
}

// The history of two threads, with the replies to each.
fn work_by_two<R: Threads + Wait + Sync>(rt: &R, alloc: Global) -> Result<bool, Fail> {
    let (pool, mut seats) = SharedPool::make(alloc, 2)?;
    let second = seats.pop().ok_or("two seats")?;
    let first = seats.pop().ok_or("two seats")?;
    let shared = &pool;
    let (one, two) = join(
        rt,
        move || -> Result<Replies, AllocError>
            requires { IsFresh shared.now first }
            ensures { IfOk result (λ replies. replies.seat.pool ≡ shared.entry.now.pool) }
        { work(rt, alloc, shared, first) },
        move || -> Result<Replies, AllocError>
            requires { IsFresh shared.now second }
            ensures { IfOk result (λ replies. replies.seat.pool ≡ shared.entry.now.pool) }
        { work(rt, alloc, shared, second) },
    );
    let Replies {
        seat: first,
        calls: one,
    } = one?;
    let Replies {
        seat: second,
        calls: two,
    } = two?;
    let end = pool.end(vec![in alloc; first, second]?)?;
    let history = end.bag.history();
    Ok(replays(alloc, 2, history)? && has_calls(history, 0, &one) && has_calls(history, 1, &two))
}

#[test]
fn two_threads_keep_their_replies(rt: HostRuntime) -> Result<(), Fail> {
    assert!(rt; work_by_two(&rt, rt.alloc())?);
    Ok(())
}
