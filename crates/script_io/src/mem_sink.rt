//! A sink in memory whose calls may be made to fail.

ghost use Rattle.std.specs.Prelude.{◌≡◌, ◌≤◌, ◌<◌, ◌-◌, ◌↔◌, ◌⊎◌, [], Some, min, length, IfOk, is_ok, IsErr, Contains, if◌then◌else◌};
ghost use Rattle.std.specs.Io.KnownBytes.{WriteAppends};
ghost use Rattle.script_io.specs.Faults.{next_count, HasCause};
ghost use Rattle.script_io.specs.Memory.{SinkState};

use crate::plan::Plan;
use crate::sink::Sink;
use std::alloc::Global;
use std::marker::Model;
use vm_base::{Failed, HostMemory};

/// A sink that keeps bytes in memory. It takes at most so many a call, and fails when it is full and
/// at calls that were chosen when it was made.
#[derive(Debug, Drop)]
pub struct MemSink {
    contents: Vec<u8>,
    room: usize,
    piece: usize,
    plan: Plan,
}

impl Model for MemSink {
    ghost use Rattle.std.specs.Prelude.{◌≤◌, vec_len, vec_capacity};
    ghost use Rattle.script_io.specs.Memory.{SinkState};

    ghost Value = { SinkState };

    ghost view = { λ s. record { contents = s.contents.items; room = s.room; piece = s.piece; tally = s.plan } };

    ghost invariant = { λ s. (vec_len s.contents ≤ s.room) × (s.room ≤ vec_capacity s.contents) × (1 ≤ s.piece) };
}

impl MemSink {
    /// Makes a sink for `room` bytes, whose memory is taken now. It takes at most `piece` bytes a call, and the calls
    /// numbered in `fails`, from 1, fail. `HostMemory` if the host has too little memory.
    pub fn new(
        alloc: Global,
        room: usize,
        piece: usize,
        fails: &[u64],
    ) -> Result<MemSink, HostMemory>
        requires { 1 ≤ piece }
        ensures contents { IfOk result (λ s. s.contents ≡ []) }
        ensures room { IfOk result (λ s. s.room ≡ room) }
        ensures piece { IfOk result (λ s. s.piece ≡ piece) }
        ensures tally { IfOk result (λ s. s.tally ≡ record { fails = fails.now; calls = 0; faults = 0 }) }
    {
        let plan = Plan::new(alloc, fails)?;
        let contents = Vec::with_capacity(alloc, room).map_err(|_| HostMemory)?;
        Ok(MemSink {
            contents,
            room,
            piece,
            plan,
        })
    }

    /// Returns the bytes that it took.
    pub fn bytes(&self) -> &[u8]
        ensures { result.now ≡ self.now.contents }
    {
        self.contents.as_slice()
    }
}

impl Sink for MemSink {
    ghost contents = { λ s. Some s.contents };

    ghost faults = { λ s. s.tally.faults };

    fn push(&mut self, bytes: &[u8]) -> Result<usize, Failed>
        requires { 0 < length bytes.now }
        ensures count { IfOk result (λ n. (1 ≤ n) × (n ≤ length bytes.now)) }
        ensures bytes { WriteAppends (Some self.old.contents) (Some self.new.contents) result bytes.now }
        ensures cause { HasCause self.old.tally.faults self.new.tally.faults result }

        // Which calls fail, and how many bytes the others take.
        ensures planned { IsErr result
            ↔ (Contains self.old.tally.fails (next_count self.old.tally.calls)
            ⊎ (self.old.room ≤ length self.old.contents)) }
        ensures most { IfOk result (λ n. n
            ≡ min (length bytes.now) (min self.old.piece (self.old.room - length self.old.contents))) }
        ensures kept { (self.new.room ≡ self.old.room) × (self.new.piece ≡ self.old.piece) }
        ensures faults { self.new.tally.faults
            ≡ (if is_ok result then self.old.tally.faults else next_count self.old.tally.faults) }
        ensures calls { self.new.tally.calls ≡ next_count self.old.tally.calls }
        ensures fails { self.new.tally.fails ≡ self.old.tally.fails }
    {
        let is_planned = self.plan.count_call();
        let left = self.room - self.contents.len();
        if is_planned || left == 0 {
            self.plan.count_fault();
            return Err(Failed);
        }
        let n = bytes.len().min(self.piece.min(left));
        match self.contents.extend_from_slice(&bytes[..n]) {
            Ok(()) => Ok(n),
            Err(_) => unreachable!(),
        }
    }
}
