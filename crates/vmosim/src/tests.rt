//! The call that the program makes, at the types that it makes it with: its words, its replies, and the clone tree that
//! it leaves. What scripts do is checked by `checks`.

use crate::top::top;
use cow_forest::CowForest;
use script_io::{MemSink, SureSource};
use shared_vm::OpenGate;
use source_vm::{SourceFn, src_byte};
use std::alloc::{AllocError, Global};
use std::sync::Wait;
use std::test::Fail;
use std::thread::Threads;
use vm_session::Status;

/// Returns the words of a command line, parted by single blanks.
fn words_of(alloc: Global, line: &str) -> Result<Vec<String>, AllocError> {
    let mut words = Vec::new(alloc);
    for word in line.split(' ') {
        words.push(String::from_str(alloc, word)?)?;
    }
    Ok(words)
}

/// Returns how the call ends over an empty tree, what it writes, and the tree then.
fn ended<R: Threads + Wait + Sync>(
    rt: &R,
    alloc: Global,
    line: &str,
    script: &str,
) -> Result<(Status, MemSink, CowForest), Fail> {
    let words = words_of(alloc, line)?;
    let functions = [
        SourceFn::new(0, |seed, offset| src_byte(0, seed, offset)),
        SourceFn::new(1, |seed, offset| src_byte(1, seed, offset)),
        SourceFn::new(2, |seed, offset| src_byte(2, seed, offset)),
    ];
    let mut store = Some(CowForest::new(alloc));
    let mut source = SureSource::new(script.as_bytes());
    let mut sink = MemSink::new(alloc, 4096, 4096, &[])
        .ok()
        .ok_or("room for a sink")?;
    let status = top(
        rt,
        alloc,
        &words,
        &OpenGate,
        functions,
        &mut store,
        &mut source,
        &mut sink,
    );
    let tree = store.ok_or("the tree")?;
    Ok((status, sink, tree))
}

/// Two VMOs share a frame until one of them is written, and `vmo_info` counts it.
const SHARING: &str = "\
vmo_create v1 4096
vmo_write v1 0 11
vmo_create_child v2 v1 snapshot 0 4096
vmo_info v1
vmo_info v2
vmo_write v1 0 22
vmo_read v1 0 1
vmo_read v2 0 1
stat
";

/// The replies to it.
const SHARED: &str = "\
OK
OK
OK
OK koid=1 size=4096 held=1 private=0 shared=1 charged=1 children=1
OK koid=2 size=4096 held=1 private=0 shared=1 charged=0 children=0
OK
OK 22
OK 11
OK frames=1024 used=2 free=1022 vmos=2
";

/// Shows that the snapshot leaves one hidden node, which has the page that `v2` shows; `v1` has a page of its own.
#[test]
fn a_script_is_run_over_the_clone_tree(rt: HostRuntime) -> Result<(), Fail> {
    let (status, sink, tree) = ended(&rt, rt.alloc(), "run", SHARING)?;
    assert_eq!(rt; status, Status::Done);
    assert_eq!(rt; sink.bytes(), SHARED.as_bytes());
    assert_eq!(rt; (tree.hidden(), tree.rows(), tree.frame_rows()), (1, 2, 2));
    Ok(())
}

/// Shows that the tasks of one actor stand in its own order, and the tree is the one that they leave.
#[test]
fn actors_run_over_the_clone_tree(rt: HostRuntime) -> Result<(), Fail> {
    let script = "a2 vmo_create v1 4096\na2 vmo_write v1 0 11\n# note\na2 vmo_read v1 0 2\na2\n";
    let (status, sink, tree) = ended(&rt, rt.alloc(), "actors --frames 1", script)?;
    assert_eq!(rt; status, Status::Done);
    assert_eq!(rt; sink.bytes(), b"a2 OK\na2 OK\na2 OK 1100\n".as_slice());
    assert_eq!(rt; (tree.hidden(), tree.rows(), tree.frame_rows()), (0, 1, 1));
    Ok(())
}

/// Pages come from a source, leave while they are clean, and come back. A snapshot shows the bytes of its parent.
const PAGING: &str = "\
source_create v1 8192 1 7
stat
vmo_read v1 0 3
vmo_read v1 4095 2
vmo_create_child v2 v1 snapshot 4096 8192
vmo_write v2 0 ff
evict v1 0 4096
vmo_write v2 0 ff
vmo_read v2 0 2
evict v2 0 8192
stat
evict v1 4096 4096
vmo_read v1 4096 1
vmo_read v1 0 1
vmo_read v2 4096 1
source_create v3 4096 3 0
source_create v3 16777217 0 0
";

/// The replies to it on two page frames.
const PAGED: &str = "\
OK
OK frames=2 used=0 free=2 vmos=1
OK 070809
OK 0607
OK
NO_MEMORY
OK
OK
OK ff08
OK
OK frames=2 used=2 free=0 vmos=2
OK
OK 07
NO_MEMORY
OK 00
INVALID_ARGS
OUT_OF_RANGE
";

#[test]
fn pages_come_from_the_functions(rt: HostRuntime) -> Result<(), Fail> {
    let (status, sink, tree) = ended(&rt, rt.alloc(), "sources --frames 2", PAGING)?;
    assert_eq!(rt; status, Status::Done);
    assert_eq!(rt; sink.bytes(), PAGED.as_bytes());
    assert_eq!(rt; tree.frame_rows(), 2);
    Ok(())
}

#[test]
fn a_workload_has_one_line(rt: HostRuntime) -> Result<(), Fail> {
    let (status, sink, _) = ended(&rt, rt.alloc(), "work 0 1", "")?;
    assert_eq!(rt; status, Status::Done);
    assert_eq!(rt;
        sink.bytes(),
        b"OK ok=0 refused=1 host=0 used=0 vmos=0\n".as_slice()
    );
    Ok(())
}

#[test]
fn other_words_are_usage(rt: HostRuntime) -> Result<(), Fail> {
    let (status, sink, _) = ended(&rt, rt.alloc(), "run extra", "stat\n")?;
    assert_eq!(rt; status, Status::Usage);
    assert_eq!(rt; sink.bytes(), b"".as_slice());
    Ok(())
}
