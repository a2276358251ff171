//! How lines are spelled, and how long they may be.

use super::check;
use std::test::Fail;

#[test]
fn lines_are_spelled(rt: HostRuntime) -> Result<(), Fail> {
    check(
        rt.alloc(),
        "\
== run
# A script of no lines has no replies.
",
    )
}

#[test]
fn lines_have_a_limit(rt: HostRuntime) -> Result<(), Fail> {
    check(
        rt.alloc(),
        "\
== run
# A line of 16,384 bytes is read, and a longer one has one reply, however long it is.
>16385 x
SYNTAX
>16384 stat\x20
OK frames=1024 used=0 free=1024 vmos=0
vmo_create v1 1 => OK
>16384 #
>16385 #
SYNTAX
>16384 \t
>16385 \t
SYNTAX
>100000 #
SYNTAX
vmo_size v1 => OK 4096
# Data of 4,096 bytes are read, and longer ones are not.
>8207 vmo_write v1 0 0
OK
>8209 vmo_write v1 0 0
SYNTAX
",
    )
}
