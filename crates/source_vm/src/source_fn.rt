//! A function that is known to give the bytes of a source.

ghost use Rattle.std.specs.Prelude.{◌≡◌, ℕ, ◌+◌, ◌%◌, ◌^◌, ◌<◌, ◌≤◌, map, length};
ghost use Rattle.std.specs.List.{range_with_len};
ghost use Rattle.vm_base.specs.declared.limits.TheConstants.{SOURCE_BYTES, SOURCE_KIND_MAX};
ghost use Rattle.source_model.specs.Sources.{source_byte, source_page};

use vm_base::{PAGE, PageNo, SOURCE_PAGES};

/// A function for the bytes of sources of one kind, beside the fact that it gives them: what the machine is handed where the kernel
/// would ask a pager. It is called with a seed and an offset in bytes.
#[derive(Drop)]
pub struct SourceFn {
    kind: u8,
    f: fn(u64, u64) -> u8,
    ghost known: { kind ≤ SOURCE_KIND_MAX },
    ghost callable: { (seed offset : ℕ) → seed < 2 ^ 64 → offset < SOURCE_BYTES → pre f seed offset },
    ghost answers: { (seed offset byte : ℕ) → seed < 2 ^ 64 → offset < SOURCE_BYTES → post f seed offset byte
        → byte ≡ source_byte kind seed offset },
}

impl SourceFn {
    /// Keeps a function that may be called for each seed and each offset below `SOURCE_BYTES`, and returns what `src_byte` does for this
    /// kind, at most `SOURCE_KIND_MAX`.
    pub fn new(kind: u8, f: fn(u64, u64) -> u8) -> SourceFn
        requires known { kind ≤ SOURCE_KIND_MAX }
        requires callable { (seed offset : ℕ) → seed < 2 ^ 64 → offset < SOURCE_BYTES → pre f seed offset }
        requires answers { (seed offset byte : ℕ) → seed < 2 ^ 64 → offset < SOURCE_BYTES → post f seed offset byte
            → byte ≡ source_byte kind seed offset }
        ensures { result.kind ≡ kind }
    {
        SourceFn { kind, f }
    }

    /// Returns the byte of a source of its kind.
    pub(crate) fn byte(&self, seed: u64, offset: u64) -> u8
        requires { offset < SOURCE_BYTES }
        ensures { result ≡ source_byte self.now.kind seed offset }
    {
        (self.f)(seed, offset)
    }

    /// Fills `out`, of the size of a page, with the bytes of a page of a source of its kind. The function is asked for the first byte
    /// alone: those behind it count up from it in a source of kind 1, and are the same in one of another kind.
    pub(crate) fn fill_page(&self, seed: u64, page: PageNo, out: &mut [u8])
        requires page { page < SOURCE_PAGES }
        requires size { length out.old ≡ PAGE }
        ensures { out.new ≡ source_page self.now.kind seed page }
    {
        let first = self.byte(seed, page * PAGE);
        if self.kind == 1 {
            count_up(first, out);
        } else {
            out.fill(first);
        }
    }
}

/// Fills `out` with bytes that count up from the first of them, modulo 256.
fn count_up(first: u8, out: &mut [u8])
    ensures { out.new ≡ map (λ i. (first + i) % 256) (range_with_len 0 (length out.old)) }
{
    for i in 0..out.len() {
        out[i] = ((first as u64 + i as u64) % 256) as u8;
    }
}
