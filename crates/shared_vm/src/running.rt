//! The run of the actors, from the bytes of a source to the bytes of a sink.

ghost use Rattle.std.specs.Prelude.{◌≡◌, ◌≢◌, ◌↔◌, ◌≤◌, codes, option_map, None, Some, IfSome};
ghost use Rattle.script_io.specs.Faults.{HasFailed};
ghost use Rattle.vm_base.specs.declared.limits.TheConstants.{FRAMES};
ghost use Rattle.vm_model.specs.Contents.Content.{nothing};
ghost use Rattle.line_server.specs.Words.{frames_asked};
ghost use Rattle.shared_vm.specs.Outcome.{ActorsEndAs};
ghost use Rattle.script_io.specs.Ending.{status_of_writing};

use crate::acting::act_all;
use crate::gate::Gate;
use crate::reading::read_input;
use crate::room::Room;
use crate::writing::push_journal;
use line_server::frames_asked;
use page_store::PageStore;
use script_io::{Sink, Source, Status};
use std::alloc::Global;
use std::sync::Wait;
use std::thread::Threads;
use vm_base::Failed;

/// Returns the status of a run that has done its tasks, by whether its text was written.
fn status_of(pushed: Result<(), Failed>) -> Status
    ensures { result ≡ status_of_writing pushed }
{
    match pushed {
        Ok(()) => Status::Done,
        Err(_) => Status::WriteFault,
    }
}

/// An empty store, and the number of page frames that it is to get.
struct EmptyStore<P> {
    store: P,
    frames: u32,
}

/// Reads an input, has the actors do their tasks on a machine over a store that gets its page frames, and writes the journal.
fn run_on<R: Threads + Wait + Sync, P: PageStore + Send, G: Gate, S: Source, K: Sink>(
    rt: &R,
    alloc: Global,
    gate: &G,
    empty: EmptyStore<P>,
    source: &mut S,
    sink: &mut K,
) -> (Status, Option<P>)
    requires empty { P.content empty.store ≡ nothing }
    requires frames { 1 ≤ empty.frames × empty.frames ≤ FRAMES }
    ensures ends { ActorsEndAs result.0 empty.frames (S.remaining source.old) (S.remaining source.new)
        (K.contents sink.old) (K.contents sink.new) (option_map P.content result.1) }
    ensures read_cause { result.0 ≡ Status.ReadFault → HasFailed (S.faults source.old) (S.faults source.new) }
    ensures write_cause { result.0 ≡ Status.WriteFault → HasFailed (K.faults sink.old) (K.faults sink.new) }
    ensures unwritten { result.0 ≢ Status.Done → result.0 ≢ Status.WriteFault → sink.new ≡ sink.old }
    ensures kept { result.1 ≡ None → result.0 ≡ Status.HostMemory }
{
    let EmptyStore { store, frames } = empty;
    let scripts = match read_input(alloc, source) {
        Ok(scripts) => scripts,
        Err(status) => return (status, Some(store)),
    };
    let Ok(room) = Room::with_notes(alloc, frames, scripts, store) else {
        return (Status::HostMemory, None);
    };
    let room = act_all(rt, gate, room);
    let status = status_of(push_journal(sink, room.notes()));
    (status, Some(room.into_store()))
}

/// Runs four actors, each on a thread of its own, on one machine behind one lock: `actors`, and behind it nothing or
/// `--frames N`. The machine has 1,024 page frames, or as many as N says with one to five digits, from 1 to 65,536.
///
/// The whole input, of at most `INPUT_BYTES` bytes, is read first. Its lines give the actors their tasks, as `Scripts::add`
/// says. Then each actor does its tasks in their order, and takes the lock for each. `gate` is called around each turn, while the
/// actor does not hold the lock. When all tasks are done, the replies are written in the order in which the machine gave them,
/// each line behind its actor's name.
///
/// The call may wait for the lock, for the gate and for the actors, so it is not proved to end: its clauses hold if it returns.
/// They do not say that the actors run side by side, nor what the gate is called with.
///
/// The store is handed back. `HostMemory` if the host has too little memory before the first turn: nothing was written, and the
/// store may be gone. `ReadFault` if the source fails, and `ScriptLimit` if it gives more than `INPUT_BYTES` bytes: no task was
/// done, and nothing was written. `WriteFault` if the sink fails: all tasks were done. `Usage` for other words, and nothing is
/// touched.
///
/// It is not inlined, so the stack has the frames of one word of the program at a time.
#[inline(never)]
pub fn run_actors<R: Threads + Wait + Sync, P: PageStore + Send, G: Gate, S: Source, K: Sink>(
    rt: &R,
    alloc: Global,
    words: &[String],
    gate: &G,
    store: P,
    source: &mut S,
    sink: &mut K,
) -> (Status, Option<P>)
    requires empty { P.content store ≡ nothing }

    // What each status says of the bytes that the source gave, the bytes that the sink took and what the store contains. `Done`
    // says that they are the text of a journal that has each task of each actor once, as one legal run of the machine, and that
    // the store contains what the machine has in the end of this run.
    ensures ends { IfSome (frames_asked (codes "actors") words.now) (λ frames.
        ActorsEndAs result.0 frames (S.remaining source.old) (S.remaining source.new)
        (K.contents sink.old) (K.contents sink.new) (option_map P.content result.1)) }

    // A fault is answered only if the source or the sink failed.
    ensures read_cause { result.0 ≡ Status.ReadFault → HasFailed (S.faults source.old) (S.faults source.new) }
    ensures write_cause { result.0 ≡ Status.WriteFault → HasFailed (K.faults sink.old) (K.faults sink.new) }

    // Nothing is written but the text of a journal whose tasks are all done.
    ensures unwritten { result.0 ≢ Status.Done → result.0 ≢ Status.WriteFault → sink.new ≡ sink.old }

    // The store is handed back, unless the host has too little memory.
    ensures kept { result.1 ≡ None → result.0 ≡ Status.HostMemory }

    // Other words are refused, and nothing is touched.
    ensures usage { (result.0 ≡ Status.Usage) ↔ (frames_asked (codes "actors") words.now ≡ None) }
    ensures untouched { result.0 ≡ Status.Usage → (source.new ≡ source.old) × (sink.new ≡ sink.old)
        × (result.1 ≡ Some store) }
{
    match frames_asked(b"actors", words) {
        Some(frames) => run_on(rt, alloc, gate, EmptyStore { store, frames }, source, sink),
        None => (Status::Usage, Some(store)),
    }
}
