//! The turn of a seat: from the ticket to the bag, and back.
ghost use Rattle.std.specs.Prelude.{◌≡◌, None};
ghost use Rattle.path_tree.specs.declared.entered.PoolCall.{PoolCall};
ghost use Rattle.path_tree.specs.PoolMachine.{Contents};
ghost use Rattle.path_pool.specs.Plays.{IsPoolTable, IsResting, IsBegun, HasTurn, IsNext, rested, has_seen};

use crate::rule::{Place, Top};
use crate::steps::{COUNT, draw, lay, lift, look, pass, raise};
use path_tree::Bag;
use std::sync::Wait;
use std::thread::yield_now;

/// Draws a ticket, waits for it by looking again, and takes the bag.
pub(crate) fn begin<R: Wait>(rt: &R, top: &Top, place: &mut Place, number: u32) -> Bag
    requires table { IsPoolTable top.now.table_id × (place.old.table_id ≡ top.now.table_id) }
    requires rests { IsResting number place.old.me }
    ensures same { place.new.table_id ≡ place.old.table_id }
    ensures begun { IsBegun number place.old.me result place.new.me }
{
    let _number = number;
    let ticket = draw(top, place);
    'looks: for _ in rt.forever() {
        if look(top, place, ticket) {
            return lift(top, place);
        }
        yield_now();
    }
    unreachable!()
}

/// Puts the bag back as it was taken, and passes the turn.
pub(crate) fn leave(top: &Top, place: &mut Place, number: u32, bag: Bag)
    requires table { IsPoolTable top.now.table_id × (place.old.table_id ≡ top.now.table_id) }
    requires turn { HasTurn number bag None place.old.me }
    ensures same { place.new.table_id ≡ place.old.table_id }
    ensures left { place.new.me ≡ rested place.old.me }
{
    let _number = number;
    lay(top, place, bag);
    pass(top, place);
}

/// Puts the bag back with a call more, passes the turn, and wakes a seat that sleeps.
pub(crate) fn hand_on(top: &Top, place: &mut Place, number: u32, bag: Bag)
    requires table { IsPoolTable top.now.table_id × (place.old.table_id ≡ top.now.table_id) }
    requires next { (history : Contents) × (call : PoolCall) × HasTurn number history None place.old.me × IsNext history number call bag }
    ensures same { place.new.table_id ≡ place.old.table_id }
    ensures handed { place.new.me ≡ has_seen place.old.me bag }
{
    let _calls = bag.history().len();
    lay(top, place, bag);
    raise(top, place, number);
    pass(top, place);
    top.wake_one(COUNT);
}
