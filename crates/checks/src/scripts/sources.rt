//! VMOs whose pages come from sources.

use super::check;
use std::test::Fail;

/// A source whose pages snapshots share, each closed in the end.
pub(crate) const SNAPSHOTS: &str = "\
== sources
# A child that ends past its parent, one that begins there, and a child of a child. What a child shows is what its parent had when
# the child was made, whether the page was in memory or not.
source_create v1 12288 2 16 => OK
vmo_write v1 4096 ee => OK
vmo_create_child v2 v1 snapshot 4096 16384 => OK
vmo_create_child v3 v1 snapshot 12288 4096 => OK
vmo_create_child v4 v2 snapshot 4096 8192 => OK
vmo_write v1 4096 dd => OK
vmo_write v1 8192 cc => OK
vmo_read v2 0 2 => OK ee11
vmo_read v2 4095 2 => OK 1112
vmo_read v2 8191 2 => OK 1200
vmo_read v2 12287 2 => OK 0000
vmo_read v3 0 2 => OK 0000
vmo_read v4 0 2 => OK 1212
vmo_read v4 4095 2 => OK 1200
stat => OK frames=1024 used=5 free=1019 vmos=4
# Closing in any order leaves the others as they were.
vmo_close v1 => OK
vmo_close v2 => OK
vmo_read v4 0 1 => OK 12
stat => OK frames=1024 used=1 free=1023 vmos=2
vmo_close v4 => OK
vmo_close v3 => OK
stat => OK frames=1024 used=0 free=1024 vmos=0
";

#[test]
fn snapshots_share_the_pages_of_a_source(rt: HostRuntime) -> Result<(), Fail> {
    check(rt.alloc(), SNAPSHOTS)
}
