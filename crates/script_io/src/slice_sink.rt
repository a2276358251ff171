//! A sink over bytes of its caller.

ghost use Rattle.std.specs.Prelude.{◌≡◌, ◌≤◌, ◌<◌, ◌+◌, [], Some, length, drop, IfOk};
ghost use Rattle.std.specs.Io.KnownBytes.{WriteAppends};
ghost use Rattle.script_io.specs.Faults.{HasCause};
ghost use Rattle.script_io.specs.Memory.{copied_at, lent_contents, lent_faults};

use crate::noted::Noted;
use crate::sink::Sink;
use vm_base::Failed;

/// A sink that writes to the front of bytes of its caller, and takes no memory. It fails only if they are full.
///
/// A caller that pushes through a type parameter knows only what every sink promises. So what no push changes stands in front of the
/// bytes that were taken, in what clauses see of it: whose bytes they are, how many there are, and what they were. A model would hide
/// from callers that the bytes are still those that they lent, so it has none. Clauses see `lent` of it.
#[derive(Drop)]
pub struct SliceSink<'a> {
    out: &'a mut [u8],
    taken: usize,
    faults: u64,
    before: Noted,
    pub ghost fits: { taken ≤ length out.now },
    pub ghost as_many: { length out.now ≡ length before.bytes },
    pub ghost behind: { drop taken out.now ≡ drop taken before.bytes },
}

impl<'a> SliceSink<'a> {
    ghost use Rattle.script_io.specs.Slices.{lent};

    /// Returns a sink that took nothing yet.
    pub fn new(out: &'a mut [u8]) -> SliceSink<'a>
        ensures { lent result ≡ record { name = out.entry.ghost_name; before = out.old; taken = []; faults = 0 } }
    {
        let before = Noted::of(out);
        SliceSink {
            out,
            taken: 0,
            faults: 0,
            before,
        }
    }

    /// Returns how many bytes it took.
    pub fn taken(&self) -> usize
        ensures { result ≡ length (lent self.now).taken }
    {
        self.taken
    }
}

impl<'a> Sink for SliceSink<'a> {
    ghost use Rattle.script_io.specs.Slices.{lent};

    ghost contents = { λ s. Some (lent_contents (lent s)) };

    ghost faults = { λ s. lent_faults (lent s) };

    fn push(&mut self, bytes: &[u8]) -> Result<usize, Failed>
        requires { 0 < length bytes.now }
        ensures count { IfOk result (λ n. (1 ≤ n) × (n ≤ length bytes.now)) }
        ensures bytes { WriteAppends (Some (lent_contents (lent self.old))) (Some (lent_contents (lent self.new))) result bytes.now }
        ensures cause { HasCause (lent_faults (lent self.old)) (lent_faults (lent self.new)) result }
    {
        let left = self.out.len() - self.taken;
        if left == 0 {
            self.faults = self.faults.saturating_add(1);
            return Err(Failed);
        }
        let n = bytes.len().min(left);
        // The end first: what stands behind it is as it was at every step.
        let from = self.taken;
        self.taken += n;
        copy_at(self.out, from, &bytes[..n]);
        Ok(n)
    }
}

/// Copies bytes to a place in `to`.
fn copy_at(to: &mut [u8], at: usize, bytes: &[u8])
    requires { at + length bytes.now ≤ length to.old }
    ensures { to.new ≡ copied_at to.old at bytes.now }
{
    to[at..at + bytes.len()].copy_from_slice(bytes);
}
