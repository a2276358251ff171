//! Numbers at the edge of 64 bits, the longest data, and bytes that are no text.

use super::check;
use super::reading::words_of;
use super::runs::{Way, compare, run_both};
use std::test::Fail;
use vm_session::Status;

#[test]
fn numbers_have_an_edge(rt: HostRuntime) -> Result<(), Fail> {
    check(
        rt.alloc(),
        "\
== run
# Numbers at the edge of 64 bits and the longest data, each refused for what it is, and data of 4,096 bytes.
vmo_create v1 4096 => OK
root_create r1 => OK
vmo_read v1 18446744073709551615 1 => OUT_OF_RANGE
vmo_create v2 18446744073709551615 => OUT_OF_RANGE
vmo_create_child v2 v1 slice 18446744073709547520 4096 => INVALID_ARGS
vmo_zero v1 18446744073709551615 18446744073709551615 => OUT_OF_RANGE
vmar_map r1 0xfffffffffffff000 v1 0 4096 r specific => INVALID_ARGS
mem_read r1 0xffffffffffffffff 2 => NOT_FOUND
>8209 vmo_write v1 0 0
SYNTAX
>8207 vmo_write v1 0 0
OK
\0 => SYNTAX
",
    )
}

/// A script with bytes that no text has.
const BYTES: &[u8] =
    b"vmo_create v1 1\n\x00\n\xff\n# \x00\xff\nvmo_size v1\xff\nvmo_size \xc3\x28\nstat\x00\n\xff\xfe\nvmo_size v1";

#[test]
fn bytes_need_not_be_text(rt: HostRuntime) -> Result<(), Fail> {
    let alloc = rt.alloc();
    let words = words_of(alloc, "run")?;
    let (end, _) = run_both(alloc, Way::Sure(words.as_slice()), BYTES)?;
    assert_eq!(rt; end.status, Status::Done);
    let replies = "OK\nSYNTAX\nSYNTAX\nSYNTAX\nSYNTAX\nSYNTAX\nSYNTAX\nOK 4096\n";
    compare(alloc, replies, end.written.as_str())?;
    Ok(())
}
