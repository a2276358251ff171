//! What is left in the clone tree: its hidden nodes, its rows, and its rows with a page frame.

use super::mixing::lines_of;
use super::reading::words_of;
use super::runs::{Counts, compare, written};
use super::text_fault::Fault;
use super::{check, compare_counts};
use std::alloc::Global;
use std::test::Fail;

#[test]
fn snapshots_leave_few_nodes(rt: HostRuntime) -> Result<(), Fail> {
    check(
        rt.alloc(),
        "\
== run
# One snapshot leaves one hidden node, which has the page that both show.
vmo_create v1 4096 => OK
vmo_write v1 0 11 => OK
vmo_create_child v2 v1 snapshot 0 4096 => OK
tree hidden=1 rows=1 frame_rows=1

== run
# A VMO that shrinks and grows between snapshots shows no old page.
vmo_create v1 16384 resizable => OK
vmo_fill v1 0 16384 0x11 => OK
vmo_create_child v2 v1 snapshot 0 16384 resizable => OK
vmo_set_size v1 4096 => OK
vmo_set_size v1 16384 => OK
vmo_read v1 4095 2 => OK 1100
vmo_create_child v3 v1 snapshot 0 16384 => OK
vmo_set_size v2 8192 => OK
stat => OK frames=1024 used=2 free=1022 vmos=3
vmo_set_size v2 16384 => OK
vmo_read v2 8191 2 => OK 1100
vmo_write v1 8192 22 => OK
vmo_read v3 8192 1 => OK 00
vmo_close v1 => OK
vmo_read v3 4095 2 => OK 1100
vmo_read v2 4096 1 => OK 11
stat => OK frames=1024 used=2 free=1022 vmos=2
tree hidden=1 rows=2 frame_rows=2

== run
# A pinned page keeps its frame in a family.
vmo_create v1 8192 => OK
vmo_write v1 0 11 => OK
vmo_create_child v2 v1 snapshot 0 8192 => OK
vmo_pin p1 v2 0 4096 => OK 1
vmo_create_child v3 v1 snapshot 0 8192 => OK
vmo_write v1 0 22 => OK
vmo_close v1 => OK
vmo_write v2 0 33 => OK
vmo_pin p2 v2 0 4096 => OK 1
vmo_unpin p1 => OK
vmo_unpin p2 => OK
vmo_read v3 0 1 => OK 11
vmo_read v2 0 1 => OK 33
stat => OK frames=1024 used=2 free=1022 vmos=2
tree hidden=1 rows=2 frame_rows=2

== run
# The first VMO goes while a snapshot of its snapshot is there: the list of its hidden node, which has eight rows, goes over to
# the one below, which has one. Page 0 has the row of the lower node then, nobody sees page 1, and one side alone page 2.
vmo_create v1 32768 => OK
vmo_fill v1 0 32768 0x11 => OK
vmo_create_child v2 v1 snapshot 0 32768 => OK
vmo_write v2 0 22 => OK
vmo_create_child v3 v2 snapshot 0 32768 => OK
vmo_write v2 4096 33 => OK
vmo_write v3 4096 44 => OK
vmo_write v3 8192 55 => OK
vmo_write v1 12288 66 => OK
vmo_write v1 16384 77 => OK
vmo_close v1 => OK
stat => OK frames=1024 used=10 free=1014 vmos=2
vmo_read v2 0 1 => OK 22
vmo_read v3 0 1 => OK 22
vmo_write v2 8192 88 => OK
stat => OK frames=1024 used=10 free=1014 vmos=2
vmo_write v2 12288 99 => OK
stat => OK frames=1024 used=11 free=1013 vmos=2
vmo_read v3 12287 2 => OK 1111
tree hidden=1 rows=11 frame_rows=11

== run
# The same, where the snapshot of the snapshot begins past page 0 and sees six pages: the other rows are seen from one side.
vmo_create v1 32768 => OK
vmo_fill v1 0 32768 0x11 => OK
vmo_create_child v2 v1 snapshot 0 32768 => OK
vmo_zero v2 0 4096 => OK
vmo_create_child v3 v2 snapshot 4096 24576 => OK
vmo_close v1 => OK
stat => OK frames=1024 used=7 free=1017 vmos=2
vmo_write v2 28672 22 => OK
stat => OK frames=1024 used=7 free=1017 vmos=2
vmo_write v2 24576 33 => OK
stat => OK frames=1024 used=8 free=1016 vmos=2
vmo_close v2 => OK
stat => OK frames=1024 used=6 free=1018 vmos=1
vmo_read v3 20479 2 => OK 1111
tree hidden=0 rows=6 frame_rows=6
",
    )
}

/// Checks a family of 100 VMOs of 16 pages, each of which is a snapshot of the one that `parent` names and writes a page. In the
/// end so many lines of the form `closing` close them all. Both stores answer alike, and nothing is left.
fn check_family(alloc: Global, parent: &str, closing: &str, count: u64) -> Result<(), Fault> {
    let making = format!(in alloc;
        "vmo_create_child v+1 {parent} snapshot 0 65536 ; vmo_write v+1 0@16 1?9"
    )?;
    let made = lines_of(alloc, making.as_str(), 99)?;
    let closed = lines_of(alloc, closing, count)?;
    let script = format!(in alloc; "vmo_create v0 65536\nvmo_fill v0 0 65536 17\n{made}{closed}")?;
    let words = words_of(alloc, "run")?;
    let (_, counts) = written(alloc, words.as_slice(), script.as_str())?;
    let Counts { vmos, free, .. } = counts;
    let left = format!(in alloc; "vmos={vmos} free={free}")?;
    compare(alloc, "vmos=0 free=1024", left.as_str())?;
    compare_counts(alloc, "hidden=0 rows=0 frame_rows=0", counts)
}

/// Checks that a family leaves nothing once it is closed in rising, falling and mixed order. Others are read before each.
fn check_families(alloc: Global, parent: &str) -> Result<(), Fail> {
    for (closing, count) in [
        ("vmo_read v?100 0@16 1 ; vmo_close v!1", 100),
        ("vmo_read v?100 0@16 1 ; vmo_close v-99", 100),
        ("vmo_read v?100 0@16 1 ; vmo_close v?100", 1000),
    ] {
        check_family(alloc, parent, closing, count)?;
    }
    Ok(())
}

#[test]
fn a_hundred_siblings_leave_nothing_once_closed(rt: HostRuntime) -> Result<(), Fail> {
    check_families(rt.alloc(), "v0")
}

#[test]
fn a_chain_of_a_hundred_leaves_nothing_once_closed(rt: HostRuntime) -> Result<(), Fail> {
    check_families(rt.alloc(), "v!1")
}

#[test]
fn a_hundred_snapshots_of_snapshots_leave_nothing_once_closed(rt: HostRuntime) -> Result<(), Fail> {
    check_families(rt.alloc(), "v!2")
}
