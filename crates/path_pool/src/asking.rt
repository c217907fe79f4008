//! What a seat that asks for a path does in its turn.
ghost use Rattle.path_tree.specs.PoolMachine.{MayTake};
ghost use Rattle.path_pool.specs.Turns.{HasAsked};

use crate::pulled::Pulled;
use path_tree::{Bag, Taken};
use std::alloc::{AllocError, Global};

/// What a seat gets that asks once.
#[derive(Drop)]
pub(crate) enum Asked {
    Pulled(Pulled),
    /// The seat has to wait until there are more calls than so many.
    NotNow(u32),
}

/// The next path for a seat, copied before it is taken. None where the seat has to wait.
pub(crate) fn ask(bag: &mut Bag, alloc: Global, seat: u32) -> Result<Option<Pulled>, AllocError>
    requires { MayTake bag.old.pool seat }
    ensures { HasAsked bag.old seat result bag.new }
{
    match bag.next_up() {
        Some(number) => {
            bag.law();
            let path = bag.path_of(alloc, number)?;
            bag.take(seat);
            Ok(Some(Pulled::Path { number, path }))
        }
        None => match bag.take(seat) {
            Taken::NotNow { .. } => Ok(None),
            _ => Ok(Some(Pulled::Finished)),
        },
    }
}
