//! VMOs that share a page, until each of them has written it. A row of the clone tree is there for those that see it.

use super::reading::words_of;
use super::runs::{compare, written};
use super::text_fault::Fault;
use super::{check, compare_counts};
use std::alloc::Global;
use std::test::Fail;

/// The frame that is shared goes to the last VMO that shows it. A row that says zero stands below a frame that another
/// VMO shows. If no row is above, there is none.
#[test]
fn rows_go_with_those_that_see_them(rt: HostRuntime) -> Result<(), Fail> {
    check(
        rt.alloc(),
        "\
== run
vmo_create v1 4096 => OK
vmo_write v1 0 11 => OK
vmo_create_child v2 v1 snapshot 0 4096 => OK
vmo_write v1 0 22 => OK
tree hidden=1 rows=2 frame_rows=2

== run
vmo_create v1 4096 => OK
vmo_write v1 0 11 => OK
vmo_create_child v2 v1 snapshot 0 4096 => OK
vmo_write v1 0 22 => OK
vmo_write v2 0 33 => OK
tree hidden=1 rows=2 frame_rows=2

== run
vmo_create v1 4096 => OK
vmo_write v1 0 11 => OK
vmo_create_child v2 v1 snapshot 0 4096 => OK
vmo_zero v2 0 4096 => OK
tree hidden=1 rows=2 frame_rows=1

== run
vmo_create v1 4096 => OK
vmo_write v1 0 11 => OK
vmo_create_child v2 v1 snapshot 0 4096 => OK
vmo_zero v2 0 4096 => OK
vmo_zero v1 0 4096 => OK
tree hidden=1 rows=1 frame_rows=0

== run
vmo_create v1 4096 => OK
vmo_write v1 0 11 => OK
vmo_create_child v2 v1 snapshot 0 4096 => OK
vmo_zero v2 0 4096 => OK
vmo_zero v1 0 4096 => OK
vmo_create_child v3 v2 snapshot 0 4096 => OK
vmo_write v3 0 33 => OK
tree hidden=2 rows=2 frame_rows=1
",
    )
}

/// Lines that make four VMOs of one page: 1 and 2 are snapshots of 0, and 3 is one of 1.
const FOUR: &str = "\
vmo_create v0 4096
vmo_write v0 0 10
vmo_create_child v1 v0 snapshot 0 4096
vmo_create_child v2 v0 snapshot 0 4096
vmo_create_child v3 v1 snapshot 0 4096
";

/// Checks the tree after each of the four has written the page, in this order.
fn check_order(alloc: Global, order: &str) -> Result<(), Fault> {
    let mut script = String::from_str(alloc, FOUR)?;
    for name in order.chars() {
        let line = format!(in alloc; "vmo_write v{name} 0 11\n")?;
        script.push_str(line.as_str())?;
    }
    let words = words_of(alloc, "run")?;
    let (replies, counts) = written(alloc, words.as_slice(), script.as_str())?;
    compare(
        alloc,
        "OK\nOK\nOK\nOK\nOK\nOK\nOK\nOK\nOK\n",
        replies.as_str(),
    )?;
    compare_counts(alloc, "hidden=3 rows=4 frame_rows=4", counts)
}

/// In whichever order they write, each has its own row in the end, and no hidden node has one.
#[test]
fn four_fork_in_each_order(rt: HostRuntime) -> Result<(), Fail> {
    for order in "0123 0132 0213 0231 0312 0321 1023 1032 1203 1230 1302 1320 2013 2031 2103 2130 2301 2310 3012 3021 3102 3120 3201 3210".split(
        ' ',
    ) {
        check_order(rt.alloc(), order)?;
    }
    Ok(())
}
