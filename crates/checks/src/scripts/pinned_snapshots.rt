//! Snapshots of VMOs with pinned pages: a copy of each pinned page that the snapshot sees, at once.

use super::check;
use std::test::Fail;

/// A family in which pages are pinned: who shows a frame, and where the rows stand.
#[test]
fn a_family_has_pinned_pages(rt: HostRuntime) -> Result<(), Fail> {
    check(
        rt.alloc(),
        "\
== run --frames 2
# The pinned frame stays in the list of the hidden node.
vmo_create v1 4096 => OK
vmo_pin p1 v1 0 4096 => OK 0
vmo_create_child v2 v1 snapshot 0 4096 => OK
tree hidden=1 rows=2 frame_rows=2
== run --frames 2
# A write takes it down to its VMO, with its number.
vmo_create v1 4096 => OK
vmo_pin p1 v1 0 4096 => OK 0
vmo_create_child v2 v1 snapshot 0 4096 => OK
vmo_write v1 0 11 => OK
vmo_pin p2 v1 0 4096 => OK 0
vmo_read v2 0 1 => OK 00
tree hidden=1 rows=2 frame_rows=2
== run --frames 2
# Where the snapshot is closed first, the frame comes to its VMO too.
vmo_create v1 4096 => OK
vmo_pin p1 v1 0 4096 => OK 0
vmo_create_child v2 v1 snapshot 0 4096 => OK
vmo_close v2 => OK
vmo_pin p2 v1 0 4096 => OK 0
tree hidden=0 rows=1 frame_rows=1
",
    )
}
