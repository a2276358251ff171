//! Accesses through mappings, with their page faults, before and after what changes the pages under them.

use super::check;
use std::test::Fail;

/// Segments of a program are mapped. The script is run with refusals and in pieces too.
pub(crate) const LOADER: &str = "\
== run
# Segments are mapped with their rights, private data is written, and one page is protected.
root_create r1 => OK
vmo_create v1 20480 => OK
vmo_write v1 0 7f454c46 => OK
vmo_write v1 8192 c3 => OK
vmo_fill v1 12288 4096 0x5a => OK
vmo_create_child v2 v1 snapshot 12288 8192 => OK
vmar_allocate r2 r1 0x100000 0x6000 specific can_read can_write can_execute => OK 0x300000
vmar_map r2 0 v1 0 8192 r specific => OK 0x300000
vmar_map r2 0x2000 v1 8192 4096 rx specific => OK 0x302000
vmar_map r2 0x3000 v2 0 8192 rw specific => OK 0x303000
mem_read r1 0x300000 4 => OK faults=1 7f454c46
mem_read r1 0x302000 1 => OK faults=1 c3
mem_write r1 0x303001 a5 => OK faults=1
mem_read r1 0x303000 3 => OK faults=0 5aa55a
vmo_read v1 12288 2 => OK 5a5a
mem_write r1 0x304000 01 => OK faults=1
vmar_protect r2 0x304000 4096 r => OK
mem_write r1 0x304000 02 => ACCESS_DENIED
mem_read r1 0x304000 1 => OK faults=1 01
vmo_close v2 => OK
vmo_info v1 => OK koid=1 size=20480 held=3 private=3 shared=0 charged=3 children=1
stat => OK frames=1024 used=5 free=1019 vmos=2
maps r1 => OK 4
+ 0x300000 8192 r vmo=1 offset=0 region=r2
+ 0x302000 4096 rx vmo=1 offset=8192 region=r2
+ 0x303000 4096 rw vmo=2 offset=0 region=r2
+ 0x304000 4096 r vmo=2 offset=4096 region=r2
vmar_destroy r2 => OK
stat => OK frames=1024 used=3 free=1021 vmos=1
";

#[test]
fn a_loader_maps_its_segments(rt: HostRuntime) -> Result<(), Fail> {
    check(rt.alloc(), LOADER)
}
