//! What a seat does.
ghost use Rattle.std.specs.Prelude.{◌≡◌, ◌↔◌, IsTrue};
ghost use Rattle.path_tree.specs.PoolMachine.{is_holding, holds};
ghost use Rattle.path_tree.specs.declared.seat.Seat.TheVariants.{Free};

/// What a seat of a pool does.
#[derive(Clone, Copy, Debug, PartialEq, Eq)]
pub enum Seat {
    /// It may ask for a path.
    Free,
    /// The path of this number is out to it.
    Holds(u64),
    /// It asks no more.
    Ended,
}

impl Seat {
    pub(crate) fn is_free(&self) -> bool
        ensures { IsTrue result ↔ (self.now ≡ Free) }
    {
        matches!(self, Seat::Free)
    }

    pub(crate) fn is_holding(&self) -> bool
        ensures { result ≡ is_holding self.now }
    {
        matches!(self, Seat::Holds(_))
    }

    pub(crate) fn holds(&self, number: u64) -> bool
        ensures { result ≡ holds number self.now }
    {
        match self {
            Seat::Holds(held) => *held == number,
            _ => false,
        }
    }
}
