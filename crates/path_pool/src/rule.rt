//! The rule of a pool's table, and what its steps tell.
ghost use Rattle.path_pool.specs.Rule.{IsKept, first_of_all};
ghost use Rattle.path_pool.specs.Plays.{drawn, looked, raised, passed, kept_part, given_part, joined, spent};

use crate::view::View;
use atomic_table::{Join, Play, Seat, Shared, Split, Table, TableRule};
use path_tree::Bag;
use std::alloc::Global;

/// The rule that keeps one history for all seats.
pub struct Turns;

impl TableRule<Option<Bag>, View, u32> for Turns {
    ghost holds = { λ seats. IsKept seats };

    ghost first = { λ seats. first_of_all seats };
}

/// The table with its memory.
pub type Board = Table<Option<Bag>, View, u32, Turns, Global>;

/// The table, as the seats see it.
pub type Top = Shared<Option<Bag>, View, u32, Turns>;

/// A seat at the table.
pub type Place = Seat<Option<Bag>, View>;

pub struct Draw;

impl Play<Option<Bag>, View> for Draw {
    ghost then = { drawn };
}

pub struct Look;

impl Play<Option<Bag>, View> for Look {
    ghost then = { looked };
}

pub struct Raise;

impl Play<Option<Bag>, View> for Raise {
    ghost then = { raised };
}

pub struct Pass;

impl Play<Option<Bag>, View> for Pass {
    ghost then = { passed };
}

/// The first of the seats whose calls a view holds, and the others.
pub struct First;

impl Split<View> for First {
    ghost left = { kept_part };

    ghost right = { given_part };
}

/// What two seats know together.
pub struct Both;

impl Join<View> for Both {
    ghost both = { joined };

    ghost spent = { spent };
}
