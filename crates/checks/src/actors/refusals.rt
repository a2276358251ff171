//! Actors for whose tasks one call of the store finds no memory of the host: each number of a call in turn.

use super::{End, Run, acted_over};
use cow_forest::CowForest;
use page_store::RefusingStore;
use script_io::Status;
use shared_vm::OpenGate;
use std::alloc::Global;
use std::sync::Wait;
use std::test::Fail;
use std::thread::Threads;

/// The number of calls that are refused, one in each run. The tasks make fewer.
const CALLS: u64 = 24;

/// Tasks of one actor, so that their order is theirs.
const TASKS: &str = "\
a1 vmo_create v1 8192
a1 vmo_write v1 4095 1122
a1 vmo_create_child v2 v1 snapshot 0 8192
a1 vmo_fill v1 0 8192 7
a1 vmo_pin p1 v2 4096 4096
a1 vmo_zero v1 0 4096
a1 vmo_read v1 4095 2
a1 vmo_read v2 4095 2
a1 vmo_close v1
a1 stat
";

/// The lines that are written if all tasks find memory.
const WRITTEN: &str = "\
a1 OK
a1 OK
a1 OK
a1 OK
a1 OK 1
a1 OK
a1 OK 0007
a1 OK 1122
a1 OK
a1 OK frames=1024 used=2 free=1022 vmos=1
";

/// Runs the actors over a clone tree whose call with this number finds no memory.
fn acted_refusing<R: Threads + Wait + Sync>(
    rt: &R,
    alloc: Global,
    input: &str,
    call: u64,
) -> Result<End, Fail> {
    let Ok(store) = RefusingStore::new(alloc, CowForest::new(alloc), &[call]) else {
        return Err(Fail::from("room for a store"));
    };
    acted_over(rt, alloc, &OpenGate, Run::sure("actors", input), store)
}

/// Returns the input with the line at this place given once more.
fn given_again(alloc: Global, input: &str, place: usize) -> Result<String, Fail> {
    let mut again = String::new(alloc);
    for (index, line) in input.lines().enumerate() {
        let times = if index == place { 2 } else { 1 };
        for _ in 0..times {
            again.push_str(line)?;
            again.push('\n')?;
        }
    }
    Ok(again)
}

/// Returns the line of a reply, counted from 0, that says that there was no memory.
fn refused_line(written: &str) -> Option<usize> {
    written.lines().position(|line| line == "a1 HOST_MEMORY")
}

/// A task that found no memory changed nothing: given once more, it has the reply that it has with memory, and so have all
/// others. The first call of all gives the machine its frames, so that no task is done if it is refused. The tasks that make a
/// VMO, write, make a snapshot, fill and zero find none in turn, and the snapshot at two calls. The pin owns a sole page.
#[test]
fn each_call_of_the_store_may_find_no_memory(rt: HostRuntime) -> Result<(), Fail> {
    let alloc = rt.alloc();
    let first = acted_refusing(&rt, alloc, TASKS, 1)?;
    assert_eq!(rt;
        (first.status, first.written.as_str()),
        (Status::HostMemory, "")
    );
    let mut places = String::new(alloc);
    for call in 2..CALLS {
        let end = acted_refusing(&rt, alloc, TASKS, call)?;
        if let Some(place) = refused_line(end.written.as_str()) {
            places.push_str(format!(in alloc; "{place} ")?.as_str())?;
            let again = given_again(alloc, TASKS, place)?;
            let end = acted_refusing(&rt, alloc, again.as_str(), call)?;
            let written = end.written.replacen(alloc, "a1 HOST_MEMORY\n", "", 1)?;
            assert_eq!(rt; written.as_str(), WRITTEN, "of call {call}");
        } else {
            assert_eq!(rt; end.written.as_str(), WRITTEN, "of call {call}");
        }
    }
    assert_eq!(rt; places.as_str(), "0 1 2 2 3 5 ");
    Ok(())
}
