//! A source over a reader.

ghost use Rattle.std.specs.Prelude.{◌≡◌, ◌<◌, ◌≤◌, ℕ, None, length, is_ok, IfOk, if◌then◌else◌};
ghost use Rattle.std.specs.Io.KnownBytes.{ReadConsumes};
ghost use Rattle.script_io.specs.Faults.{next_count, HasCause};

use crate::source::Source;
use std::io::Read;
use std::marker::Model;
use vm_base::Failed;

/// A source over a reader, such as a file or the standard input. Each pull reads once. Any error that the reader
/// answers is a fault, also an interruption. The source tells no bytes. Clauses see the reader, and how often reading
/// has failed, up to 2^64 - 1.
#[derive(Debug, Drop)]
pub struct ReadSource<R> {
    reader: R,
    faults: u64,
}

impl<R> Model for ReadSource<R> {
    ghost Value = { R × ℕ };

    ghost view = { λ s. (s.reader, s.faults) };
}

impl<R> ReadSource<R> {
    /// Makes a source over the reader.
    pub fn new(reader: R) -> ReadSource<R>
        ensures { result ≡ (reader, 0) }
    {
        ReadSource { reader, faults: 0 }
    }
}

impl<R: Read> Source for ReadSource<R> {
    ghost remaining = { λ _. None };

    ghost faults = { λ s. s.1 };

    fn pull(&mut self, buf: &mut [u8]) -> Result<usize, Failed>
        requires { 0 < length buf.old }
        ensures count { IfOk result (λ n. n ≤ length buf.old) }
        ensures bytes { ReadConsumes None None result buf.new }
        ensures cause { HasCause self.old.1 self.new.1 result }
        ensures faults { self.new.1 ≡ (if is_ok result then self.old.1 else next_count self.old.1) }

        // What the reader gave.
        ensures read { ReadConsumes (R.remaining self.old.0) (R.remaining self.new.0) result buf.new }
    {
        read_counted(&mut self.reader, &mut self.faults, buf)
    }
}

/// Reads once, and counts a fault if that fails.
fn read_counted<R: Read>(reader: &mut R, faults: &mut u64, buf: &mut [u8]) -> Result<usize, Failed>
    ensures count { IfOk result (λ n. n ≤ length buf.old) }
    ensures bytes { ReadConsumes (R.remaining reader.old) (R.remaining reader.new) result buf.new }
    ensures faults { faults.new ≡ (if is_ok result then faults.old else next_count faults.old) }
    ensures cause { HasCause faults.old faults.new result }
{
    match reader.read(buf) {
        Ok(n) => Ok(n),
        Err(_) => {
            *faults = faults.saturating_add(1);
            Err(Failed)
        }
    }
}
