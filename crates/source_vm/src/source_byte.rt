//! The bytes of sources.

ghost use Rattle.std.specs.Prelude.{◌≡◌, ◌+◌, ◌%◌, ◌≤◌};
ghost use Rattle.vm_base.specs.declared.limits.TheConstants.{SOURCE_KIND_MAX};
ghost use Rattle.source_model.specs.Sources.{source_byte};

use vm_base::page_of;

/// Returns the byte of a source at an offset, in bytes from its first. A source of kind 0 has the seed throughout, in one of kind 1 the
/// bytes count up from the seed, and in one of kind 2 the pages do, all modulo 256.
#[tactic(auto, unfolding(source_model::specs::Sources::source_byte))]
pub fn src_byte(kind: u8, seed: u64, offset: u64) -> u8
    requires { kind ≤ SOURCE_KIND_MAX }
    ensures { result ≡ source_byte kind seed offset }
{
    match kind {
        0 => (seed % 256) as u8,
        1 => sum_of(seed, offset),
        _ => sum_of(seed, page_of(offset)),
    }
}

/// Returns the sum modulo 256.
fn sum_of(a: u64, b: u64) -> u8
    ensures { result ≡ (a + b) % 256 }
{
    ((a % 256 + b % 256) % 256) as u8
}
