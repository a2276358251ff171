//! Sources of bytes.

ghost use Rattle.std.specs.Prelude.{◌≡◌, ℕ, List, Option, ◌<◌, ◌≤◌, length, take, min, IfOk};
ghost use Rattle.std.specs.Io.KnownBytes.{ReadConsumes};
ghost use Rattle.script_io.specs.Faults.{HasCause};

use vm_base::Failed;

/// A source of bytes. Whether a source tells its bytes matters to clauses alone.
pub trait Source {
    /// The bytes that it has left, if it tells them.
    ghost remaining: { Self → Option (List ℕ) };

    /// The number of times that reading has failed. No call lowers it, and a call that fails raises it, unless it
    /// stands at 2^64 - 1.
    ghost faults: { Self → ℕ };

    /// Puts its next bytes at the front of `buf`, and answers how many. An answer of 0 says that the source is at its
    /// end. `Failed` if reading failed. A source that tells its bytes answers 0 only if it has none left, and still has
    /// all of them if reading failed.
    fn pull(&mut self, buf: &mut [u8]) -> Result<usize, Failed>
        requires { 0 < length buf.old }
        ensures count { IfOk result (λ n. n ≤ length buf.old) }
        ensures bytes { ReadConsumes (remaining self.old) (remaining self.new) result buf.new }
        ensures cause { HasCause (faults self.old) (faults self.new) result };
}

/// Copies bytes to the front of `to` from the front of `from`, at most `most` of them and as many as
/// fit, and answers how many.
pub(crate) fn copy_front(to: &mut [u8], from: &[u8], most: usize) -> usize
    ensures count { result ≡ min most (min (length from.now) (length to.old)) }
    ensures bytes { take result to.new ≡ take result from.now }
{
    let n = most.min(from.len().min(to.len()));
    to[..n].copy_from_slice(&from[..n]);
    n
}
