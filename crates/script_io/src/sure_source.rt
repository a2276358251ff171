//! A source that never fails.

ghost use Rattle.std.specs.Prelude.{◌≡◌, ◌≤◌, ℕ, List, Some, min, length, IfOk};
ghost use Rattle.std.specs.Io.KnownBytes.{ReadConsumes};
ghost use Rattle.script_io.specs.Faults.{HasCause};

use crate::source::{Source, copy_front};
use std::marker::Model;
use vm_base::Failed;

/// A source over bytes in memory that never fails, and gives as many bytes as fit. Clauses see the
/// bytes that are left.
#[derive(Debug, Drop)]
pub struct SureSource<'a> {
    remaining: &'a [u8],
}

impl<'a> Model for SureSource<'a> {
    ghost Value = { List ℕ };

    ghost view = { λ s. s.remaining.now };
}

impl<'a> SureSource<'a> {
    /// Makes a source of these bytes.
    pub fn new(bytes: &'a [u8]) -> SureSource<'a>
        ensures { result ≡ bytes.now }
    {
        SureSource { remaining: bytes }
    }
}

impl<'a> Source for SureSource<'a> {
    ghost remaining = { λ s. Some s };

    ghost faults = { λ _. 0 };

    fn pull(&mut self, buf: &mut [u8]) -> Result<usize, Failed>
        ensures count { IfOk result (λ n. n ≤ length buf.old) }
        ensures given { result ≡ Ok (min (length self.old) (length buf.old)) }
        ensures bytes { ReadConsumes (Some self.old) (Some self.new) result buf.new }
        ensures cause { HasCause 0 0 result }
    {
        let remaining = self.remaining;
        let n = copy_front(buf, remaining, remaining.len());
        self.remaining = &remaining[n..];
        Ok(n)
    }
}
