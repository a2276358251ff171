//! Pages and codes.

ghost use Rattle.std.specs.Prelude.{◌≡◌, Some, None};

use script_io::{Status, code};
use vm_base::{in_page, page_of, round_up};

/// States that a page ends before the next one's first byte.
pub fn a_page_begins_at_its_number() -> (u64, u64, u64)
    ensures { result ≡ (0, 1, 4095) }
{
    (page_of(4095), page_of(4096), in_page(8191))
}

/// States that a number of bytes that fills whole pages is left as it is, up to the limit itself.
pub fn whole_pages_stay() -> Option<u64>
    ensures { result ≡ Some 8192 }
{
    round_up(8192, 8192)
}

/// States that one byte more takes a page more.
pub fn one_byte_more_is_a_page_more() -> (Option<u64>, Option<u64>)
    ensures { result ≡ (Some 12288, None) }
{
    (round_up(8193, 12288), round_up(8193, 12287))
}

/// States that the exit statuses of a fault of reading, of writing, and of a script that is too long are 4, 5 and 6.
pub fn codes_differ() -> (u8, u8, u8)
    ensures { result ≡ (4, 5, 6) }
{
    (
        code(Status::ReadFault),
        code(Status::WriteFault),
        code(Status::ScriptLimit),
    )
}
