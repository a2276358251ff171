//! A deep chain of snapshots, each of the one before.

use super::compare_counts;
use super::mixing::lines_of;
use super::reading::words_of;
use super::runs::{compare, written};
use super::text_fault::Fault;
use std::alloc::Global;
use std::test::Fail;

/// Returns the script of a chain of 4,000 snapshots that is made, written at its end and closed between its ends.
fn script_of(alloc: Global) -> Result<String, Fault> {
    let snapshots = lines_of(alloc, "vmo_create_child v+2 v+1 snapshot 0 4096", 4000)?;
    let closes = lines_of(alloc, "vmo_close v+2", 3999)?;
    Ok(format!(in alloc;
        "\
vmo_create v1 4096
vmo_write v1 0 01
{snapshots}stat
vmo_write v4001 0 02
{closes}vmo_read v1 0 1
vmo_read v4001 0 1
vmo_info v1
stat
"
    )?)
}

/// Returns the replies to the script.
fn replies_of(alloc: Global) -> Result<String, Fault> {
    let made = lines_of(alloc, "OK", 4002)?;
    let closed = lines_of(alloc, "OK", 4000)?;
    Ok(format!(in alloc;
        "\
{made}OK frames=1024 used=1 free=1023 vmos=4001
{closed}OK 01
OK 02
OK koid=1 size=4096 held=1 private=1 shared=0 charged=1 children=1
OK frames=1024 used=2 free=1022 vmos=2
"
    )?)
}

#[test]
fn a_chain_of_four_thousand_is_closed_between_its_ends(rt: HostRuntime) -> Result<(), Fail> {
    let alloc = rt.alloc();
    let script = script_of(alloc)?;
    let words = words_of(alloc, "run")?;
    let (written, counts) = written(alloc, words.as_slice(), script.as_str())?;
    let replies = replies_of(alloc)?;
    compare(alloc, replies.as_str(), written.as_str())?;
    compare_counts(alloc, "hidden=1 rows=2 frame_rows=2", counts)?;
    Ok(())
}
