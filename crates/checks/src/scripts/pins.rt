//! Pages that are pinned.

use super::check;
use std::test::Fail;

/// Pins keep pages. The script is run with refusals too.
pub(crate) const PINS: &str = "\
== run --frames 1
# Pins keep pages, their frames and the VMO. A snapshot of a pinned page needs a frame.
vmo_create v1 8192 => OK
vmo_pin p1 v1 0 4096 => OK 0
vmo_create_child v2 v1 snapshot 0 8192 => NO_MEMORY
vmo_decommit v1 0 8192 => BAD_STATE
vmo_decommit v1 4096 4096 => OK
vmo_pin p1 v1 0 4096 => NAME_IN_USE
vmo_pin p2 v1 0 0 => INVALID_ARGS
vmo_pin p2 v1 4096 4096 => NO_MEMORY
vmo_pin p2 v1 0 4096 => OK 0
vmo_write v1 0 aa => OK
vmo_zero v1 0 4096 => OK
vmo_read v1 0 1 => OK 00
stat => OK frames=1 used=1 free=0 vmos=1
vmo_unpin p1 => OK
vmo_create_child v2 v1 snapshot 0 8192 => NO_MEMORY
vmo_unpin p2 => OK
vmo_unpin p2 => BAD_HANDLE
vmo_create_child v2 v1 snapshot 0 8192 => OK
vmo_close v2 => OK
vmo_pin p1 v1 0 4096 => OK 0
vmo_close v1 => OK
stat => OK frames=1 used=1 free=0 vmos=1
vmo_unpin p1 => OK
stat => OK frames=1 used=0 free=1 vmos=0
";

#[test]
fn pins_keep_pages(rt: HostRuntime) -> Result<(), Fail> {
    check(rt.alloc(), PINS)
}
