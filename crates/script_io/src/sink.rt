//! Sinks for bytes.

ghost use Rattle.std.specs.Prelude.{ℕ, List, Option, ◌<◌, ◌≤◌, length, IfOk, OnOk, OnErr};
ghost use Rattle.std.specs.Io.KnownBytes.{Appends, WriteAppends};
ghost use Rattle.script_io.specs.Faults.{HasCause, IsCutOff};

use vm_base::Failed;

/// A sink for bytes. Whether a sink tells its bytes matters to clauses alone.
pub trait Sink {
    /// The bytes that it took, if it tells them.
    ghost contents: { Self → Option (List ℕ) };

    /// The number of times that writing has failed. No call lowers it, and a call that fails raises it, unless it
    /// stands at 2^64 - 1.
    ghost faults: { Self → ℕ };

    /// Takes bytes from the front of `bytes`, and answers how many: at least 1. `Failed` if writing failed. A sink that
    /// tells its bytes then took none.
    fn push(&mut self, bytes: &[u8]) -> Result<usize, Failed>
        requires { 0 < length bytes.now }
        ensures count { IfOk result (λ n. (1 ≤ n) × (n ≤ length bytes.now)) }
        ensures bytes { WriteAppends (contents self.old) (contents self.new) result bytes.now }
        ensures cause { HasCause (faults self.old) (faults self.new) result };
}

/// Pushes all of the bytes, in as many calls as the sink wants. No bytes take no call. `Failed` if a call failed, which
/// is then the last one. A sink that tells its bytes then took a front part of them, and not all.
pub fn push_all<K: Sink>(sink: &mut K, bytes: &[u8]) -> Result<(), Failed>
    ensures ok { OnOk result (Appends (K.contents sink.old) (K.contents sink.new) bytes.now) }
    ensures err { OnErr result (IsCutOff (K.contents sink.old) (K.contents sink.new) bytes.now) }
    ensures cause { HasCause (K.faults sink.old) (K.faults sink.new) result }
{
    let mut at = 0;
    while at < bytes.len() {
        at += sink.push(&bytes[at..])?;
    }
    Ok(())
}
