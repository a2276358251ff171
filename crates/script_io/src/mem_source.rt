//! A source in memory whose calls may be made to fail.

ghost use Rattle.std.specs.Prelude.{◌≡◌, ◌≤◌, ◌<◌, ◌↔◌, Some, min, length, drop, IfOk, is_ok, IsErr, Contains, if◌then◌else◌};
ghost use Rattle.std.specs.Io.KnownBytes.{ReadConsumes};
ghost use Rattle.script_io.specs.Faults.{next_count, HasCause};
ghost use Rattle.script_io.specs.Memory.{RemainingSource};

use crate::plan::Plan;
use crate::source::{Source, copy_front};
use std::alloc::Global;
use std::marker::Model;
use vm_base::{Failed, HostMemory};

/// A source over bytes of its own. It gives at most so many a call, and fails at calls that were
/// chosen when it was made.
#[derive(Debug, Drop)]
pub struct MemSource {
    bytes: Vec<u8>,
    at: usize,
    piece: usize,
    plan: Plan,
}

impl Model for MemSource {
    ghost use Rattle.std.specs.Prelude.{drop, ◌≤◌, vec_len};
    ghost use Rattle.script_io.specs.Memory.{RemainingSource};

    ghost Value = { RemainingSource };

    ghost view = { λ s. record { remaining = drop s.at s.bytes.items; piece = s.piece; tally = s.plan } };

    ghost invariant = { λ s. (s.at ≤ vec_len s.bytes) × (1 ≤ s.piece) };
}

impl MemSource {
    /// Makes a source of a copy of the bytes. It gives at most `piece` bytes a call, and the calls numbered in `fails`,
    /// from 1, fail. `HostMemory` if the host has too little memory.
    pub fn new(
        alloc: Global,
        bytes: &[u8],
        piece: usize,
        fails: &[u64],
    ) -> Result<MemSource, HostMemory>
        requires { 1 ≤ piece }
        ensures remaining { IfOk result (λ s. s.remaining ≡ bytes.now) }
        ensures piece { IfOk result (λ s. s.piece ≡ piece) }
        ensures tally { IfOk result (λ s. s.tally ≡ record { fails = fails.now; calls = 0; faults = 0 }) }
    {
        let plan = Plan::new(alloc, fails)?;
        let bytes = Vec::from_slice(alloc, bytes).map_err(|_| HostMemory)?;
        Ok(MemSource {
            bytes,
            at: 0,
            piece,
            plan,
        })
    }
}

impl Source for MemSource {
    ghost remaining = { λ s. Some s.remaining };

    ghost faults = { λ s. s.tally.faults };

    fn pull(&mut self, buf: &mut [u8]) -> Result<usize, Failed>
        requires { 0 < length buf.old }
        ensures count { IfOk result (λ n. n ≤ length buf.old) }
        ensures bytes { ReadConsumes (Some self.old.remaining) (Some self.new.remaining) result buf.new }
        ensures cause { HasCause self.old.tally.faults self.new.tally.faults result }

        // Which calls fail, and how many bytes the others give.
        ensures planned { IsErr result
            ↔ Contains self.old.tally.fails (next_count self.old.tally.calls) }
        ensures given { IfOk result
            (λ n. n ≡ min self.old.piece (min (length self.old.remaining) (length buf.old))) }
        ensures kept { self.new.piece ≡ self.old.piece }
        ensures faults { self.new.tally.faults
            ≡ (if is_ok result then self.old.tally.faults else next_count self.old.tally.faults) }
        ensures calls { self.new.tally.calls ≡ next_count self.old.tally.calls }
        ensures fails { self.new.tally.fails ≡ self.old.tally.fails }
    {
        if self.plan.count_call() {
            self.plan.count_fault();
            return Err(Failed);
        }
        let n = copy_front(buf, &self.bytes[self.at..], self.piece);
        self.at += n;
        Ok(n)
    }
}
