//! VMOs that change their size.

use super::check;
use std::test::Fail;

/// Pages are cut off and come back. The script is run with refusals too.
pub(crate) const SHRUNK: &str = "\
== run
# Pages cut off by shrinking come back as zeros, while a snapshot keeps them until it is closed.
vmo_create v1 8192 resizable => OK
vmo_write v1 4096 77 => OK
vmo_create_child v2 v1 snapshot 0 8192 => OK
vmo_set_size v1 4096 => OK
vmo_set_size v1 8192 => OK
vmo_read v1 4096 1 => OK 00
vmo_read v2 4096 1 => OK 77
stat => OK frames=1024 used=1 free=1023 vmos=2
vmo_close v2 => OK
stat => OK frames=1024 used=0 free=1024 vmos=1
";

#[test]
fn sizes_change(rt: HostRuntime) -> Result<(), Fail> {
    check(rt.alloc(), SHRUNK)
}
