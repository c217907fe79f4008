//! Room for what a pool adds later without memory.
ghost use Rattle.std.specs.Prelude.{◌≡◌, ◌+◌, ◌-◌, ◌*◌, ◌≤◌, ◌++◌, IfSome, OnOk, vec_len, vec_capacity};
ghost use Rattle.std.specs.List.{range_with_len};

use crate::entered::Entered;
use std::alloc::AllocError;

/// How many entries may follow a split into so many kids.
fn entries_after(waiting: usize, kids: usize, seats: usize) -> Option<usize>
    ensures { IfSome result (λ most. most ≡ 2 * (waiting + kids) + 3 * seats) }
{
    let numbers = waiting.checked_add(kids)?.checked_mul(2)?;
    let others = seats.checked_mul(3)?;
    numbers.checked_add(others)
}

/// Makes room for this many numbers in all.
fn reserve_total(numbers: &mut Vec<u64>, total: usize) -> Result<(), AllocError>
    ensures same { numbers.new.items ≡ numbers.old.items }
    ensures grows { vec_capacity numbers.old ≤ vec_capacity numbers.new }
    ensures room { OnOk result (total ≤ vec_capacity numbers.new) }
{
    let len = numbers.len();
    if total <= len {
        return Ok(());
    }
    numbers.reserve(total - len)
}

/// Makes room for a split into so many kids, and for what may follow it.
pub(crate) fn reserve_for_kids(
    history: &mut Vec<Entered>,
    waiting: &mut Vec<u64>,
    done: &mut Vec<u64>,
    paths: usize,
    seats: usize,
    kids: usize,
) -> Result<(), AllocError>
    ensures history { history.new.items ≡ history.old.items }
    ensures waiting { waiting.new.items ≡ waiting.old.items }
    ensures done { done.new.items ≡ done.old.items }
    ensures history_grows { vec_capacity history.old ≤ vec_capacity history.new }
    ensures waiting_grows { vec_capacity waiting.old ≤ vec_capacity waiting.new }
    ensures done_grows { vec_capacity done.old ≤ vec_capacity done.new }
    ensures for_history { OnOk result (vec_len history.old + (2 * (vec_len waiting.old + kids) + 3 * seats) ≤ vec_capacity history.new) }
    ensures for_waiting { OnOk result (paths + kids ≤ vec_capacity waiting.new) }
    ensures for_done { OnOk result (paths + kids ≤ vec_capacity done.new) }
{
    let Some(entries) = entries_after(waiting.len(), kids, seats) else {
        return Err(AllocError);
    };
    let Some(numbers) = paths.checked_add(kids) else {
        return Err(AllocError);
    };
    history.reserve(entries)?;
    reserve_total(waiting, numbers)?;
    reserve_total(done, numbers)
}

/// Appends the numbers from one to before another, for which there is room.
pub(crate) fn push_numbers(waiting: &mut Vec<u64>, first: u64, end: u64)
    requires ordered { first ≤ end }
    requires room { vec_len waiting.old + (end - first) ≤ vec_capacity waiting.old }
    ensures items { waiting.new.items ≡ waiting.old.items ++ range_with_len first (end - first) }
    ensures capacity { vec_capacity waiting.new ≡ vec_capacity waiting.old }
{
    for number in first..end {
        waiting.push_reserved(number);
    }
}
