//! The seats of a pool, cut from one, and put together again.
ghost use Rattle.std.specs.Prelude.{◌≡◌, ◌<◌, [], All, IfOk, length, map, None, vec_len};
ghost use Rattle.std.specs.List.{range_with_len};
ghost use Rattle.path_tree.specs.Bag.{begun};
ghost use Rattle.path_pool.specs.Rule.{first_of_all};
ghost use Rattle.path_pool.specs.Plays.{IsPoolTable, HasGathered, IsLast, resting};
ghost use Rattle.path_pool.specs.Seats.{first_view};

use crate::pool_seat::PoolSeat;
use crate::rule::{Board, Both, First, Place, Top};
use path_tree::Bag;
use std::alloc::{AllocError, Global};

/// A seat of a pool of so many seats in which nothing happened.
fn seat_of(number: u32, place: Place, seats: u32) -> PoolSeat
    requires { place.me ≡ resting number [] (begun seats) [] }
    ensures { result ≡ first_view place.table_id seats number }
{
    let _seats = seats;
    PoolSeat { number, place }
}

/// The seats of these numbers from 0 on, cut from the first seat.
pub(crate) fn seated(
    alloc: Global,
    top: &Top,
    place: Place,
    seats: u32,
) -> Result<Vec<PoolSeat>, AllocError>
    requires table { IsPoolTable top.now.table_id × (place.table_id ≡ top.now.table_id) }
    requires key { top.now.key ≡ seats }
    requires some { 0 < seats }
    requires first { place.me ≡ (first_of_all seats, []) }
    ensures { IfOk result (λ made. made.items ≡ map (first_view top.now.table_id seats) (range_with_len 0 seats)) }
{
    let mut made = Vec::with_capacity(alloc, seats as usize)?;
    let mut place = place;
    for number in 0..seats - 1 {
        let rest = top.split_seat::<First>(&mut place);
        made.push_reserved(seat_of(number, place, seats));
        place = rest;
    }
    made.push_reserved(seat_of(seats - 1, place, seats));
    Ok(made)
}

/// One seat that knows what all these know.
pub(crate) fn gathered(top: &Top, seats: Vec<PoolSeat>) -> Place
    requires table { IsPoolTable top.now.table_id }
    requires own { All (λ seat. seat.pool ≡ top.now.table_id) seats.items }
    requires some { 0 < vec_len seats }
    ensures table { result.table_id ≡ top.now.table_id }
    ensures gathered { HasGathered seats.items result.me }
{
    let mut seats = seats;
    let Some(
        PoolSeat {
            number: _,
            mut place,
        },
    ) = seats.pop()
    else {
        unreachable!()
    };
    'seats: while let Some(seat) = seats.pop() {
        let PoolSeat {
            number: _,
            place: mut first,
        } = seat;
        top.join_seat::<Both>(&mut first, place);
        place = first;
    }
    place
}

/// The bag of a table whose calls are all held by one seat.
pub(crate) fn closed(table: Board, place: Place) -> Bag
    requires table { IsPoolTable table.shared.table_id × (place.table_id ≡ table.shared.table_id) }
    requires some { 0 < table.shared.key }
    requires all { length place.me.0.held ≡ table.shared.key }
    requires turn { place.me.0.turn ≡ None }
    ensures { IsLast table.shared.key place.me.0 result }
{
    let mut closed = table.close_with(place);
    let bag = closed.take(0);
    closed.free();
    match bag {
        Some(bag) => bag,
        None => unreachable!(),
    }
}
