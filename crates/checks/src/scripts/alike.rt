//! Long runs whose lines are drawn at random. What is written must be the same over both stores.

use super::mixing::lines_of;
use super::reading::words_of;
use super::runs::written;
use super::text_fault::Fault;
use std::alloc::Global;
use std::test::Fail;

/// Forms of commands on the 16 pages of a hundred VMOs, two in sixteen of them snapshots.
const FAMILIES: &str = "\
vmo_create v?100 65536 resizable
vmo_create_child v?100 v?100 snapshot 0@4 65536 resizable
vmo_create_child v?100 v?100 snapshot 0@4 65536 resizable
vmo_close v?100
vmo_write v?100 0@16 1?9
vmo_write v?100 0@16 1?9
vmo_fill v?100 0@16 0@4 ?256
vmo_zero v?100 0@16 0@4
vmo_decommit v?100 0@16 0@4
vmo_commit v?100 0@16 0@4
vmo_set_size v?100 0@16
vmo_set_size v?100 65536
vmo_info v?100
vmo_info v?100
stat
vmo_read v?100 0@16 2";

/// Returns what both stores write under these words. It must be the same.
fn alike(alloc: Global, words: &str, script: &str) -> Result<String, Fault> {
    let words = words_of(alloc, words)?;
    let (written, _) = written(alloc, words.as_slice(), script)?;
    Ok(written)
}

/// Families of snapshots, wide ones and deep ones: up to a hundred VMOs are live at once. Of eight, each is made and closed often.
#[test]
fn families_are_answered_alike(rt: HostRuntime) -> Result<(), Fail> {
    let alloc = rt.alloc();
    for names in ["?100", "?8"] {
        let forms = FAMILIES.replace(alloc, "?100", names)?;
        let script = lines_of(alloc, forms.as_str(), 10_000)?;
        for words in ["run", "run --frames 200"] {
            let _written = alike(alloc, words, script.as_str())?;
        }
    }
    Ok(())
}

/// No command of a workload finds no memory.
#[test]
fn workloads_are_told_alike(rt: HostRuntime) -> Result<(), Fail> {
    for words in ["work 1 20000", "work 7 20000 --frames 64"] {
        let line = alike(rt.alloc(), words, "")?;
        assert!(rt; line.contains(" host=0 "), "{line}");
    }
    Ok(())
}
