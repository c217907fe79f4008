//! Wires, and the gates that they lead from.

/// The value of a gate, by its index in the list of gates, or the negation of that value.
#[derive(Clone, Copy, Debug, PartialEq, Eq, Hash)]
pub struct Wire {
    pub gate: usize,
    pub negated: bool,
}

/// The wire that is always true: gate 0.
pub const TRUE: Wire = Wire {
    gate: 0,
    negated: false,
};

/// The wire that is never true.
pub const FALSE: Wire = Wire {
    gate: 0,
    negated: true,
};

/// What a gate is: the constant true, an input by its number, or the conjunction of two earlier wires.
#[derive(Clone, Copy, Debug, PartialEq, Eq, Hash)]
pub enum Gate {
    True,
    Input(usize),
    And(Wire, Wire),
}
