//! Streams of the system.

ghost use Rattle.std.specs.Prelude.{◌≡◌, ◌<◌, length, is_ok, if◌then◌else◌};

use script_io::{ReadSource, Source};
use std::io::Read;
use vm_base::Failed;

/// States that a read that failed is counted, and is not taken for the end.
pub fn a_failed_read_is_counted_and_told<R: Read>(
    source: &mut ReadSource<R>,
    buf: &mut [u8],
) -> Result<usize, Failed>
    requires room { 0 < length buf.old }
    requires faults { source.old.1 ≡ 7 }
    ensures { source.new.1 ≡ (if is_ok result then 7 else 8) }
{
    source.pull(buf)
}
