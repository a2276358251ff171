//! A sink over a writer.

ghost use Rattle.std.specs.Prelude.{◌≡◌, ◌<◌, ◌≤◌, ℕ, None, length, take, is_ok, IfOk, if◌then◌else◌};
ghost use Rattle.std.specs.Io.KnownBytes.{Appends, WriteAppends};
ghost use Rattle.script_io.specs.Faults.{next_count, AppendsFront, HasCause};

use crate::sink::Sink;
use std::io::{self, Write};
use std::marker::Model;
use vm_base::Failed;

/// A sink over a writer, such as a file or the standard output. Each push writes once and then flushes. Any error that
/// the writer answers to either is a fault, so a push that fails may have written bytes: all of them, if the flush
/// failed. The sink tells no bytes. Clauses see the writer, and how often writing has failed, up to 2^64 - 1.
#[derive(Debug, Drop)]
pub struct WriteSink<W> {
    writer: W,
    faults: u64,
}

impl<W> Model for WriteSink<W> {
    ghost Value = { W × ℕ };

    ghost view = { λ s. (s.writer, s.faults) };
}

impl<W> WriteSink<W> {
    /// Makes a sink over the writer.
    pub fn new(writer: W) -> WriteSink<W>
        ensures { result ≡ (writer, 0) }
    {
        WriteSink { writer, faults: 0 }
    }
}

impl<W: Write> Sink for WriteSink<W> {
    ghost contents = { λ _. None };

    ghost faults = { λ s. s.1 };

    /// Pushes bytes as the trait says. A write of 0 bytes is a fault too.
    fn push(&mut self, bytes: &[u8]) -> Result<usize, Failed>
        requires { 0 < length bytes.now }
        ensures count { IfOk result (λ n. (1 ≤ n) × (n ≤ length bytes.now)) }
        ensures bytes { WriteAppends None None result bytes.now }
        ensures cause { HasCause self.old.1 self.new.1 result }
        ensures faults { self.new.1 ≡ (if is_ok result then self.old.1 else next_count self.old.1) }

        // What the writer took. After a failure it is a front part of the bytes.
        ensures written { IfOk result
            (λ n. Appends (W.contents self.old.0) (W.contents self.new.0) (take n bytes.now)) }
        ensures front { AppendsFront (W.contents self.old.0) (W.contents self.new.0) bytes.now }
    {
        match write_out(&mut self.writer, bytes) {
            Ok(n) if n > 0 => Ok(n),
            _ => {
                self.faults = self.faults.saturating_add(1);
                Err(Failed)
            }
        }
    }
}

/// Writes bytes once and flushes them, and answers how many were written. After an error any number of them may be
/// written, and all if the flush failed.
fn write_out<W: Write>(writer: &mut W, bytes: &[u8]) -> io::Result<usize>
    ensures count { IfOk result (λ n. n ≤ length bytes.now) }
    ensures bytes { IfOk result
        (λ n. Appends (W.contents writer.old) (W.contents writer.new) (take n bytes.now)) }
    ensures front { AppendsFront (W.contents writer.old) (W.contents writer.new) bytes.now }
{
    let n = writer.write(bytes)?;
    writer.flush()?;
    Ok(n)
}
