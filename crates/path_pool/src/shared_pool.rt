//! A pool of paths that threads share.
ghost use Rattle.std.specs.Prelude.{◌≡◌, ◌<◌, ◌≤◌, [], map, All, IfOk, IsOk, vec_len};
ghost use Rattle.std.specs.List.{range_with_len};
ghost use Rattle.path_tree.specs.declared.entered.PoolCall.TheVariants.{Closed, GaveBack};
ghost use Rattle.path_pool.specs.Seats.{IsFree, IsHolding, HasMade, HasPulled, HasDivided, HasEnded, first_view};
ghost use Rattle.path_pool.specs.Turns.{HasTried};

use crate::asking::{Asked, ask};
use crate::gathering::{closed, gathered, seated};
use crate::pool_end::PoolEnd;
use crate::pool_seat::PoolSeat;
use crate::pulled::Pulled;
use crate::rule::Board;
use crate::steps::COUNT;
use crate::turn::{begin, hand_on, leave};
use atomic_table::{Refused, Table};
use path_tree::{Bag, NotYours, Path, SplitRefusal};
use std::alloc::{AllocError, Global};
use std::marker::Model;
use std::sync::Wait;

/// How many seats a pool may have.
pub const MOST_SEATS: u32 = 16;

/// A bag of paths that seats use in turn. All that they do makes one history, in which each seat's calls stand in its
/// order. Contracts see which pool it is, and how many seats it has.
#[derive(Drop)]
pub struct SharedPool {
    table: Board,
}

impl Model for SharedPool {
    ghost use Rattle.std.specs.Prelude.{◌<◌};
    ghost use Rattle.path_pool.specs.Plays.{IsPoolTable};
    ghost use Rattle.path_pool.specs.Seats.{PoolView};

    ghost Value = { PoolView };

    ghost view = { λ shared. record { pool = shared.table.shared.table_id; seats = shared.table.shared.key } };

    ghost invariant = { λ shared. IsPoolTable shared.table.shared.table_id × (0 < shared.table.shared.key) };
}

impl SharedPool {
    /// A pool in which one path waits, number 0, with no next, and its seats in the order of their numbers.
    pub fn make(alloc: Global, seats: u32) -> Result<(SharedPool, Vec<PoolSeat>), AllocError>
        requires some { 0 < seats }
        requires few { seats ≤ MOST_SEATS }
        ensures pool { IfOk result (λ made. made.0.seats ≡ seats) }
        ensures seats { IfOk result (λ made. made.1.items ≡ map (first_view made.0.pool seats) (range_with_len 0 seats)) }
    {
        let bag = Bag::new(alloc, seats)?;
        let mut slots = Vec::with_capacity(alloc, 1)?;
        slots.push_reserved(Some(bag));
        let (table, place) = match Table::new(alloc, &[0, 0, 0], slots, &seats) {
            Ok(made) => made,
            Err(Refused { slots: _ }) => return Err(AllocError),
        };
        let places = seated(alloc, &table.shared, place, seats)?;
        Ok((SharedPool { table }, places))
    }

    /// The next path for a seat, with a copy of it. Waits while no path waits and one is out. For want of memory the
    /// pool stays as it is.
    pub fn take<R: Wait>(
        &self,
        rt: &R,
        alloc: Global,
        seat: &mut PoolSeat,
    ) -> Result<Pulled, AllocError>
        requires own { seat.old.pool ≡ self.now.pool }
        requires free { IsFree seat.old }
        ensures pulled { HasPulled seat.old result seat.new }
    {
        'asks: for _ in rt.forever() {
            match self.take_now(rt, alloc, seat)? {
                Asked::Pulled(pulled) => return Ok(pulled),
                Asked::NotNow(count) => self.table.shared.park(rt, COUNT, count),
            }
        }
        unreachable!()
    }

    // Asks once.
    fn take_now<R: Wait>(
        &self,
        rt: &R,
        alloc: Global,
        seat: &mut PoolSeat,
    ) -> Result<Asked, AllocError>
        requires own { seat.old.pool ≡ self.now.pool }
        requires free { IsFree seat.old }
        ensures tried { HasTried seat.old result seat.new }
    {
        let top = &self.table.shared;
        let number = seat.number;
        let mut bag = begin(rt, top, &mut seat.place, number);
        bag.law();
        match ask(&mut bag, alloc, number) {
            Ok(Some(pulled)) => {
                bag.law();
                hand_on(top, &mut seat.place, number, bag);
                Ok(Asked::Pulled(pulled))
            }
            Ok(None) => {
                let count = (bag.history().len() % (1 << 32)) as u32;
                leave(top, &mut seat.place, number, bag);
                Ok(Asked::NotNow(count))
            }
            Err(error) => {
                leave(top, &mut seat.place, number, bag);
                top.wake_one(COUNT);
                Err(error)
            }
        }
    }

    /// Replaces a path by its kids: the first stays out with the seat, and its number is answered; the
    /// others wait. For want of memory the pool stays as it is.
    pub fn split<R: Wait>(
        &self,
        rt: &R,
        seat: &mut PoolSeat,
        number: u64,
        kids: Vec<Path>,
    ) -> Result<u64, SplitRefusal>
        requires own { seat.old.pool ≡ self.now.pool }
        requires holds { IsHolding seat.old number }
        requires some { 0 < vec_len kids }
        ensures divided { HasDivided seat.old number kids.items result seat.new }
    {
        let top = &self.table.shared;
        let own = seat.number;
        let mut bag = begin(rt, top, &mut seat.place, own);
        bag.law();
        match bag.split(own, number, kids) {
            Ok(first) => {
                bag.law();
                hand_on(top, &mut seat.place, own, bag);
                Ok(first)
            }
            Err(refusal) => {
                leave(top, &mut seat.place, own, bag);
                top.wake_one(COUNT);
                Err(refusal)
            }
        }
    }

    /// Says that a path is done. The refusal never comes.
    pub fn close<R: Wait>(&self, rt: &R, seat: &mut PoolSeat, number: u64) -> Result<(), NotYours>
        requires own { seat.old.pool ≡ self.now.pool }
        requires holds { IsHolding seat.old number }
        ensures done { IsOk result }
        ensures made { HasMade seat.old (Closed number) [] seat.new }
    {
        let top = &self.table.shared;
        let own = seat.number;
        let mut bag = begin(rt, top, &mut seat.place, own);
        bag.law();
        let Ok(()) = bag.close(own, number) else {
            unreachable!()
        };
        bag.law();
        hand_on(top, &mut seat.place, own, bag);
        Ok(())
    }

    /// Gives a path back, which waits again; the seat has ended. The refusal never comes.
    pub fn give_back<R: Wait>(
        &self,
        rt: &R,
        seat: &mut PoolSeat,
        number: u64,
    ) -> Result<(), NotYours>
        requires own { seat.old.pool ≡ self.now.pool }
        requires holds { IsHolding seat.old number }
        ensures done { IsOk result }
        ensures made { HasMade seat.old (GaveBack number) [] seat.new }
    {
        let top = &self.table.shared;
        let own = seat.number;
        let mut bag = begin(rt, top, &mut seat.place, own);
        bag.law();
        let Ok(()) = bag.give_back(own, number) else {
            unreachable!()
        };
        bag.law();
        hand_on(top, &mut seat.place, own, bag);
        Ok(())
    }

    /// The bag, once all seats are back.
    pub fn end(self, seats: Vec<PoolSeat>) -> Result<PoolEnd, AllocError>
        requires own { All (λ seat. seat.pool ≡ self.pool) seats.items }
        requires all { vec_len seats ≡ self.seats }
        ensures { IfOk result (λ end. HasEnded self seats.items end.bag) }
    {
        let SharedPool { table } = self;
        let place = gathered(&table.shared, seats);
        let bag = closed(table, place);
        bag.law();
        Ok(PoolEnd { bag })
    }
}
