//! A pool of paths with its history.
ghost use Rattle.std.specs.Prelude.{◌≡◌, ◌↔◌, ◌+◌, ◌^◌, ◌<◌, Some, length, slice_get, IsTrue, IfOk, IfSome, vec_len};
ghost use Rattle.std.specs.List.{count_by, position};
ghost use Rattle.path_tree.specs.PoolMachine.{is_holding, holds, next_up, out_count, MayTake, IsLegal, IsFront, ArePlaced};
ghost use Rattle.path_tree.specs.Bag.{begun, take_reply, HasTaken, HasPut, HasSplit};
ghost use Rattle.path_tree.specs.declared.entered.PoolCall.TheVariants.{Closed, GaveBack};

use crate::counts::Counts;
use crate::entered::{Entered, PoolCall};
use crate::path::Path;
use crate::refusal::{NotYours, SplitRefusal};
use crate::room::{push_numbers, reserve_for_kids};
use crate::seat::Seat;
use crate::taken::Taken;
use ct_rows::Row;
use std::alloc::{AllocError, Global};
use std::marker::Model;

/// A pool of paths. It hands each path to one seat at a time, and keeps a history of what seats did.
///
/// Contracts see a bag as its history and the pool after it.
#[derive(Debug, Drop)]
pub struct Bag {
    /// Every path, by its number.
    paths: Vec<Path>,
    /// The numbers that wait; the last is the next that is taken.
    waiting: Vec<u64>,
    /// What each seat does.
    seats: Vec<Seat>,
    done: Vec<u64>,
    history: Vec<Entered>,
}

impl Model for Bag {
    ghost use Rattle.std.specs.Prelude.{vec_capacity};
    ghost use Rattle.path_tree.specs.PoolMachine.{Contents};
    ghost use Rattle.path_tree.specs.Bag.{contents, IsSound, HasRoom};

    ghost Value = { Contents };

    ghost view = { λ bag. contents bag.history.items bag.paths.items bag.waiting.items bag.seats.items bag.done.items };

    ghost invariant = { λ bag. IsSound (contents bag.history.items bag.paths.items bag.waiting.items bag.seats.items bag.done.items)
        × HasRoom (contents bag.history.items bag.paths.items bag.waiting.items bag.seats.items bag.done.items) (vec_capacity bag.history) (vec_capacity bag.waiting) (vec_capacity bag.done) };
}

impl Bag {
    /// A bag of this many seats in which one path waits, number 0, with no next.
    pub fn new(alloc: Global, seats: u32) -> Result<Bag, AllocError>
        ensures { IfOk result (λ bag. bag ≡ begun seats) }
    {
        let seats = seats as usize;
        let mut paths = Vec::with_capacity(alloc, 1)?;
        paths.push_reserved(Path {
            nexts: Row::from_vec(Vec::new(alloc)),
            leaked: Row::from_vec(Vec::new(alloc)),
        });
        let mut waiting = Vec::with_capacity(alloc, 1)?;
        waiting.push_reserved(0);
        Ok(Bag {
            paths,
            waiting,
            seats: vec![in alloc; Seat::Free; seats]?,
            done: Vec::with_capacity(alloc, 1)?,
            history: Vec::with_capacity(alloc, 2 + 2 * seats)?,
        })
    }

    /// The next path for a seat. Takes no memory.
    pub fn take(&mut self, seat: u32) -> Taken
        requires { MayTake self.old.pool seat }
        ensures reply { result ≡ take_reply self.old.pool }
        ensures leaves { HasTaken self.old seat result self.new }
        ensures grows { IsFront self.old self.new }
    {
        match self.waiting.pop() {
            Some(number) => {
                self.seats[seat as usize] = Seat::Holds(number);
                self.history.push_reserved(Entered {
                    seat,
                    call: PoolCall::Took(number),
                });
                Taken::Number(number)
            }
            None => {
                let out = count_out(self.seats.as_slice());
                if out > 0 {
                    return Taken::NotNow { out };
                }
                self.seats[seat as usize] = Seat::Ended;
                self.history.push_reserved(Entered {
                    seat,
                    call: PoolCall::Finished,
                });
                Taken::Finished
            }
        }
    }

    /// Replaces a path by its kids, which get the next numbers in order: the first stays out with the
    /// seat, and its number is answered; the others wait.
    pub fn split(
        &mut self,
        seat: u32,
        number: u64,
        mut kids: Vec<Path>,
    ) -> Result<u64, SplitRefusal>
        requires { 0 < vec_len kids }
        ensures leaves { HasSplit self.old seat number kids.items result self.new }
        ensures grows { IsFront self.old self.new }
    {
        let holder = holder_of(self.seats.as_slice(), number);
        if holder != Some(seat) {
            return Err(SplitRefusal::NotYours { holder, kids });
        }
        let paths = self.paths.len();
        let seats = self.seats.len();
        let count = kids.len();
        if let Err(_) = reserve_for_kids(
            &mut self.history,
            &mut self.waiting,
            &mut self.done,
            paths,
            seats,
            count,
        ) {
            return Err(SplitRefusal::Memory { kids });
        }
        if let Err(_) = self.paths.append(&mut kids) {
            return Err(SplitRefusal::Memory { kids });
        }
        let first = paths as u64;
        let end = self.paths.len() as u64;
        push_numbers(&mut self.waiting, first + 1, end);
        self.seats[seat as usize] = Seat::Holds(first);
        self.done.push_reserved(number);
        self.history.push_reserved(Entered {
            seat,
            call: PoolCall::Split {
                number,
                first,
                count: end - first,
            },
        });
        Ok(first)
    }

    /// Says that a path is done. Takes no memory.
    pub fn close(&mut self, seat: u32, number: u64) -> Result<(), NotYours>
        ensures leaves { HasPut self.old seat number (Closed number) result self.new }
        ensures grows { IsFront self.old self.new }
    {
        let holder = holder_of(self.seats.as_slice(), number);
        if holder != Some(seat) {
            return Err(NotYours { holder });
        }
        self.seats[seat as usize] = Seat::Free;
        self.done.push_reserved(number);
        self.history.push_reserved(Entered {
            seat,
            call: PoolCall::Closed(number),
        });
        Ok(())
    }

    /// Gives a path back, which waits again; the seat has ended. Takes no memory.
    pub fn give_back(&mut self, seat: u32, number: u64) -> Result<(), NotYours>
        ensures leaves { HasPut self.old seat number (GaveBack number) result self.new }
        ensures grows { IsFront self.old self.new }
    {
        let holder = holder_of(self.seats.as_slice(), number);
        if holder != Some(seat) {
            return Err(NotYours { holder });
        }
        self.seats[seat as usize] = Seat::Ended;
        self.waiting.push_reserved(number);
        self.history.push_reserved(Entered {
            seat,
            call: PoolCall::GaveBack(number),
        });
        Ok(())
    }

    /// Whether a seat is one of the pool's, holds nothing and hasn't ended.
    pub fn may_take(&self, seat: u32) -> bool
        ensures { IsTrue result ↔ MayTake self.now.pool seat }
    {
        match self.seats.get(seat as usize) {
            Some(seat) => seat.is_free(),
            None => false,
        }
    }

    /// The number that is taken next.
    pub fn next_up(&self) -> Option<u64>
        ensures { result ≡ next_up self.now.pool }
    {
        self.waiting.last().copied()
    }

    /// A copy of a path.
    pub fn path_of(&self, alloc: Global, number: u64) -> Result<Path, AllocError>
        requires { number < length self.now.pool.paths }
        ensures { IfOk result (λ path. slice_get self.now.pool.paths number ≡ Some path) }
    {
        let path = &self.paths[number as usize];
        Ok(Path {
            nexts: path.nexts.copy(alloc)?,
            leaked: path.leaked.copy(alloc)?,
        })
    }

    /// What seats did, in order.
    pub fn history(&self) -> &[Entered]
        ensures all { result.now ≡ self.now.history }
        ensures legal { IsLegal self.now }
    {
        self.history.as_slice()
    }

    /// How many paths wait, are out and are done.
    pub fn counts(&self) -> Counts
        ensures waiting { result.waiting ≡ length self.now.pool.waiting }
        ensures out { result.out ≡ out_count self.now.pool }
        ensures done { result.done ≡ length self.now.pool.done }
        ensures all { result.waiting + result.out + result.done ≡ length self.now.pool.paths }
    {
        Counts {
            waiting: self.waiting.len() as u64,
            out: count_out(self.seats.as_slice()),
            done: self.done.len() as u64,
        }
    }

    /// The laws of the type: the history is legal and leads to the pool, and each path waits, is out to
    /// one seat or is done.
    pub fn law(&self)
        ensures legal { IsLegal self.now }
        ensures placed { ArePlaced self.now.pool }
    {
        let _paths = self.paths.as_slice();
    }
}

/// How many seats hold a path.
fn count_out(seats: &[Seat]) -> u64
    ensures { result ≡ count_by is_holding seats.now }
{
    seats.iter().filter(|seat| seat.is_holding()).count() as u64
}

/// The place of the seat that holds a path.
fn place_of(seats: &[Seat], number: u64) -> Option<usize>
    ensures place { result ≡ position (holds number) seats.now }
    ensures within { IfSome result (λ place. place < length seats.now) }
{
    seats.iter().position(|seat| seat.holds(number))
}

/// The seat that holds a path.
fn holder_of(seats: &[Seat], number: u64) -> Option<u32>
    requires { length seats.now < 2 ^ 32 }
    ensures { result ≡ position (holds number) seats.now }
{
    match place_of(seats, number) {
        Some(place) => Some(place as u32),
        None => None,
    }
}
