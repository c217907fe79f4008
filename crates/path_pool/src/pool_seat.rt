//! A seat of a shared pool.

use crate::rule::Place;
use std::marker::Model;

/// The right to ask a shared pool for paths. Contracts see what the seat knows.
#[derive(Drop)]
pub struct PoolSeat {
    pub(crate) number: u32,
    pub(crate) place: Place,
}

impl Model for PoolSeat {
    ghost use Rattle.path_pool.specs.Plays.{IsSeated, seat_view};
    ghost use Rattle.path_pool.specs.Seats.{SeatView};

    ghost Value = { SeatView };

    ghost view = { λ seat. seat_view seat.place.table_id seat.number seat.place.me };

    ghost invariant = { λ seat. IsSeated seat.number seat.place.me };
}

impl PoolSeat {
    ghost use Rattle.std.specs.Prelude.{◌≡◌};
    ghost use Rattle.path_tree.specs.PoolMachine.{IsLegal};
    ghost use Rattle.path_pool.specs.Calls.{calls_of};

    /// The laws of the type: what the seat has seen is a history that the machine replays, and its calls there are
    /// those that it made.
    pub fn law(&self)
        ensures legal { IsLegal self.now.seen }
        ensures own { calls_of self.now.number self.now.seen.history ≡ self.now.calls }
    {
        let _number = self.number;
    }
}
