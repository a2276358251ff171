//! Range operations in pieces.

use super::check;
use std::test::Fail;

#[test]
fn jobs_are_refused_in_order(rt: HostRuntime) -> Result<(), Fail> {
    check(
        rt.alloc(),
        "\
== batch
# Lines that are no commands.
begin => SYNTAX
begin j1 commit v1 0 => SYNTAX
begin j1 commit v1 0 4096 0 => SYNTAX
begin j01 commit v1 0 4096 => SYNTAX
begin j4294967296 commit v1 0 4096 => SYNTAX
begin j0x1 commit v1 0 4096 => SYNTAX
begin v1 commit v1 0 4096 => SYNTAX
begin j1 fill v1 0 4096 => SYNTAX
begin j1 COMMIT v1 0 4096 => SYNTAX
step j1 => SYNTAX
step j1 18446744073709551616 => SYNTAX
step j1 1 1 => SYNTAX
drop => SYNTAX
drop j1 j1 => SYNTAX
drops j1 => SYNTAX
>16385 step j1 1
SYNTAX
>
> # step j1 1
  step   j1 0x1 \t => BAD_HANDLE
begin j1 commit v1 0x0 0004096 => BAD_HANDLE
",
    )
}
