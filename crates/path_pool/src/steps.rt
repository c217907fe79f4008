//! The steps of a seat at a pool's table, one function a kind.
ghost use Rattle.std.specs.Prelude.{◌≡◌, ◌<◌, ◌^◌, ℕ, [], ◌∷◌, length, Some, None, MatchBool};
ghost use Rattle.path_tree.specs.declared.entered.PoolCall.{PoolCall};
ghost use Rattle.path_tree.specs.PoolMachine.{Contents};
ghost use Rattle.path_pool.specs.Rule.{view};
ghost use Rattle.path_pool.specs.Plays.{IsPoolTable, IsNext, IsResting, IsWaiting, HasTurn, IsServed, word_of, rested, entered};

use crate::rule::{Draw, Look, Pass, Place, Raise, Top};
use path_tree::Bag;

/// The number of calls in the history.
pub(crate) const COUNT: usize = 0;

/// The next ticket.
const TICKET: usize = 1;

/// The ticket whose turn it is.
const SERVING: usize = 2;

/// Draws a ticket.
pub(crate) fn draw(top: &Top, place: &mut Place) -> u64
    requires table { IsPoolTable top.now.table_id × (place.old.table_id ≡ top.now.table_id) }
    requires rests { (number : ℕ) × IsResting number place.old.me }
    ensures same { place.new.table_id ≡ place.old.table_id }
    ensures drawn { (ticket : ℕ) × (result ≡ word_of ticket) × (place.new.me ≡ (view place.old.me.0.held place.old.me.0.seen place.old.me.0.older (Some ticket) None, [])) }
{
    top.fetch_add::<Draw>(place, TICKET, 1)
}

/// Looks whether a ticket is served. Then the seat has the turn, and the bag is out with it.
pub(crate) fn look(top: &Top, place: &mut Place, ticket: u64) -> bool
    requires table { IsPoolTable top.now.table_id × (place.old.table_id ≡ top.now.table_id) }
    requires waits { IsWaiting ticket place.old.me }
    ensures same { place.new.table_id ≡ place.old.table_id }
    ensures served { MatchBool result (IsServed place.old.me place.new.me) (place.new.me ≡ place.old.me) }
{
    top.load::<Look>(place, SERVING) == ticket
}

/// Takes the bag from the slot that is out.
pub(crate) fn lift(top: &Top, place: &mut Place) -> Bag
    requires table { place.old.table_id ≡ top.now.table_id }
    requires there { (history : Contents) × (place.old.me.1 ≡ (0, Some history) ∷ []) }
    ensures same { place.new.table_id ≡ place.old.table_id }
    ensures bag { place.old.me.1 ≡ (0, Some result) ∷ [] }
    ensures left { place.new.me ≡ (place.old.me.0, (0, None) ∷ []) }
{
    match top.exchange(place, 0, None) {
        Some(bag) => bag,
        None => unreachable!(),
    }
}

/// Puts the bag into the slot that is out.
pub(crate) fn lay(top: &Top, place: &mut Place, bag: Bag)
    requires table { place.old.table_id ≡ top.now.table_id }
    requires gone { place.old.me.1 ≡ (0, None) ∷ [] }
    ensures same { place.new.table_id ≡ place.old.table_id }
    ensures there { place.new.me ≡ (place.old.me.0, (0, Some bag) ∷ []) }
{
    let none = top.exchange(place, 0, Some(bag));
    drop(none);
}

/// Counts the call that the bag in the slot has at its end.
pub(crate) fn raise(top: &Top, place: &mut Place, number: u32)
    requires table { IsPoolTable top.now.table_id × (place.old.table_id ≡ top.now.table_id) }
    requires next { (history after : Contents) × (call : PoolCall) × HasTurn number history (Some after) place.old.me × IsNext history number call after × (length after.history < 2 ^ 64) }
    ensures same { place.new.table_id ≡ place.old.table_id }
    ensures raised { (after : Contents) → place.old.me.1 ≡ (0, Some after) ∷ [] → place.new.me ≡ (entered place.old.me.0 after, place.old.me.1) }
{
    let _number = number;
    top.fetch_add::<Raise>(place, COUNT, 1);
}

/// Passes the turn, and the slot is home again.
pub(crate) fn pass(top: &Top, place: &mut Place)
    requires table { IsPoolTable top.now.table_id × (place.old.table_id ≡ top.now.table_id) }
    requires turn { (number : ℕ) × (history : Contents) × HasTurn number history (Some history) place.old.me }
    ensures same { place.new.table_id ≡ place.old.table_id }
    ensures passed { place.new.me ≡ rested place.old.me }
{
    top.fetch_add::<Pass>(place, SERVING, 1);
}
