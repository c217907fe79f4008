//! An output in memory, with faults where a test wants them.

ghost use Rattle.std.specs.Prelude.{◌≡◌, ◌<◌, ◌≤◌, ◌-◌, ◌++◌, ◌&&◌, [], Some, length, take, min, not, nat_lt, is_ok, IfOk, OnErr};
ghost use Rattle.ct_outside.specs.Calls.{is_listed};
ghost use Rattle.ct_outside.specs.Count.{raised_by};
ghost use Rattle.ct_outside.specs.Memory.{sure_bytes};

use crate::failing_calls::FailingCalls;
use crate::{Failed, Sink};
use std::alloc::{AllocError, Global};
use std::marker::Model;

/// An output kept in memory, taken in pieces, whose calls of chosen numbers fail.
#[derive(Drop)]
pub struct MemorySink {
    written: Vec<u8>,
    room: usize,
    calls: FailingCalls,
    piece: usize,
    faults: u64,
}

impl Model for MemorySink {
    ghost use Rattle.std.specs.Prelude.{◌<◌, ◌≤◌, length, vec_capacity};
    ghost use Rattle.ct_outside.specs.Memory.{SinkState};

    ghost Value = { SinkState };

    ghost view = { λ a. record {
      written = a.written.items;
      room = a.room;
      failing = a.calls.failing.items;
      piece = a.piece;
      calls = a.calls.made;
      faults = a.faults;
    } };

    ghost invariant = { λ a. (0 < a.piece) × (length a.written.items ≤ a.room) × (a.room ≤ vec_capacity a.written) };
}

impl MemorySink {
    /// Calls of `write` are counted from 0, and those listed in `failing` fail. A write takes at most
    /// `piece` bytes, and all of them together at most `room`, which is reserved here.
    pub fn new(
        alloc: Global,
        failing: Vec<u64>,
        piece: usize,
        room: usize,
    ) -> Result<MemorySink, AllocError>
        requires { 0 < piece }
        ensures { IfOk result (λ sink. sink ≡ record {
          written = [];
          room = room;
          failing = failing.items;
          piece = piece;
          calls = 0;
          faults = 0;
        }) }
    {
        Ok(MemorySink {
            written: Vec::with_capacity(alloc, room)?,
            room,
            calls: FailingCalls { failing, made: 0 },
            piece,
            faults: 0,
        })
    }

    /// The bytes written so far.
    pub fn written(&self) -> &[u8]
        ensures { result.now ≡ self.now.written }
    {
        &self.written
    }
}

impl Sink for MemorySink {
    ghost written = { λ s. Some s.written };

    ghost faults = { λ s. s.faults };

    ghost sure = { λ s. sure_bytes s.failing (s.room - length s.written) };

    fn write(&mut self, piece: &[u8]) -> Result<usize, Failed>
        requires { 0 < length piece.now }
        ensures answers { is_ok result ≡ (not (is_listed self.old.failing self.old.calls)
            && nat_lt (length self.old.written) self.old.room) }
        ensures most { IfOk result (λ count. count
            ≡ min self.old.piece (min (length piece.now) (self.old.room - length self.old.written))) }
        ensures ok { IfOk result (λ count. self.new ≡ record self.old {
          written = self.old.written ++ take count piece.now;
          calls = raised_by 1 self.old.calls;
        }) }
        ensures err { OnErr result (self.new ≡ record self.old {
          calls = raised_by 1 self.old.calls;
          faults = raised_by 1 self.old.faults;
        }) }
        ensures takes { IfOk result (λ count. 0 < count) }
        ensures counts { self.old.faults ≤ self.new.faults }
    {
        let left = self.room - self.written.len();
        if self.calls.fails_next() || left == 0 {
            self.faults = self.faults.saturating_add(1);
            return Err(Failed);
        }
        let count = self.piece.min(piece.len().min(left));
        match self.written.extend_from_slice(&piece[..count]) {
            Ok(()) => Ok(count),
            Err(_) => unreachable!(),
        }
    }
}
