//! Snapshots, which share frames until one of two VMOs is written.

use super::check;
use std::test::Fail;

/// Two VMOs share a frame. The script is run with refusals too.
pub(crate) const SHARED: &str = "\
== run
# A snapshot shares its parent's frame until one of the two is written, and vmo_info counts it.
vmo_create v1 4096 => OK
vmo_write v1 0 11 => OK
vmo_create_child v2 v1 snapshot 0 4096 => OK
vmo_info v1 => OK koid=1 size=4096 held=1 private=0 shared=1 charged=1 children=1
vmo_info v2 => OK koid=2 size=4096 held=1 private=0 shared=1 charged=0 children=0
vmo_write v1 0 22 => OK
vmo_read v1 0 1 => OK 22
vmo_read v2 0 1 => OK 11
stat => OK frames=1024 used=2 free=1022 vmos=2
";

#[test]
fn snapshots_share_frames(rt: HostRuntime) -> Result<(), Fail> {
    check(rt.alloc(), SHARED)
}
