//! Where two values of the one secret byte first split.
ghost use Rattle.std.specs.Prelude.{◌≡◌};

/// Where two values of the one secret byte first split: the step, and the values.
#[derive(Clone, Copy)]
pub(crate) struct ValueSplit {
    pub step: u32,
    pub left: u8,
    pub right: u8,
}

impl ValueSplit {
    ghost use Rattle.ct_pairs.specs.ValueSplit.{comes_before};

    fn comes_before(self, other: ValueSplit) -> bool
        ensures { result ≡ comes_before self other }
    {
        self.step < other.step
            || (self.step == other.step
                && (self.left < other.left
                    || (self.left == other.left && self.right < other.right)))
    }
}

impl ValueSplit {
    ghost use Rattle.std.specs.Prelude.{Option};
    ghost use Rattle.ct_pairs.specs.ValueSplit.{earlier};

    /// The one of two that is reported.
    pub(crate) fn earlier(old: Option<ValueSplit>, new: ValueSplit) -> ValueSplit
        ensures { result ≡ earlier old new }
    {
        match old {
            Some(old) => if new.comes_before(old) { new } else { old },
            None => new,
        }
    }
}
