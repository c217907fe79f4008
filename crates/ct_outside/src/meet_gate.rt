//! A gate at which two members wait for each other.

use crate::Gate;
use std::sync::atomic::{AtomicBool, Ordering};

/// How often a member looks for the other at one pass.
const TURNS: u32 = 1_000_000_000;

/// What a member tells the other.
#[derive(Drop)]
struct Flag {
    /// It came to the gate.
    raised: AtomicBool,
    /// It saw that the other came.
    saw_the_other: AtomicBool,
}

impl Flag {
    fn new() -> Flag {
        Flag {
            raised: AtomicBool::new(false),
            saw_the_other: AtomicBool::new(false),
        }
    }

    fn raise(&self) {
        self.raised.store(true, Ordering::SeqCst);
    }

    /// Looks for the flag of the other, as long as it isn't there, and for a number of turns at most.
    fn look_for(&self, other: &Flag) {
        for _ in 0..TURNS {
            if other.raised.load(Ordering::SeqCst) {
                self.saw_the_other.store(true, Ordering::SeqCst);
                return;
            }
        }
    }
}

/// A gate at which members 0 and 1 wait for each other, but not for ever; others pass at once. It shows that
/// two members are at work at one time.
#[derive(Drop)]
pub struct MeetGate {
    first: Flag,
    second: Flag,
}

impl MeetGate {
    pub fn new() -> MeetGate {
        MeetGate {
            first: Flag::new(),
            second: Flag::new(),
        }
    }

    /// Whether both saw the other.
    pub fn met(&self) -> bool {
        let first = self.first.saw_the_other.load(Ordering::SeqCst);
        let second = self.second.saw_the_other.load(Ordering::SeqCst);
        first && second
    }
}

impl Gate for MeetGate {
    fn pass(&self, member: u32) {
        match member {
            0 => {
                self.first.raise();
                self.first.look_for(&self.second);
            }
            1 => {
                self.second.raise();
                self.second.look_for(&self.first);
            }
            _ => {}
        }
    }
}
