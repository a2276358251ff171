//! A sink that counts bytes.

ghost use Rattle.std.specs.Prelude.{◌≡◌, ◌≤◌, ◌<◌, ◌+◌, ◌-◌, ◌^◌, ℕ, None, Ok, min, length, IfOk};
ghost use Rattle.std.specs.Io.KnownBytes.{WriteAppends};
ghost use Rattle.script_io.specs.Faults.{HasCause};

use crate::sink::Sink;
use std::marker::Model;
use vm_base::Failed;

/// A sink that takes everything, never fails, and keeps only how many bytes it took. Clauses see that
/// number.
#[derive(Debug, Drop)]
pub struct CountSink {
    taken: u64,
}

impl Model for CountSink {
    ghost use Rattle.std.specs.Prelude.{ℕ};

    ghost Value = { ℕ };

    ghost view = { λ s. s.taken };
}

impl CountSink {
    /// Makes a sink that took nothing yet.
    pub fn new() -> CountSink
        ensures { result ≡ 0 }
    {
        CountSink { taken: 0 }
    }

    /// Returns how many bytes it took. The number stays at 2^64 - 1.
    pub fn taken(&self) -> u64
        ensures { result ≡ self.now }
    {
        self.taken
    }
}

impl Sink for CountSink {
    ghost contents = { λ _. None };

    ghost faults = { λ _. 0 };

    fn push(&mut self, bytes: &[u8]) -> Result<usize, Failed>
        requires { 0 < length bytes.now }
        ensures count { IfOk result (λ n. (1 ≤ n) × (n ≤ length bytes.now)) }
        ensures bytes { WriteAppends None None result bytes.now }
        ensures cause { HasCause 0 0 result }

        // It takes all of the bytes.
        ensures all { result ≡ Ok (length bytes.now) }
        ensures taken { self.new ≡ min (self.old + length bytes.now) (2 ^ 64 - 1) }
    {
        self.taken = self.taken.saturating_add(bytes.len() as u64);
        Ok(bytes.len())
    }
}
