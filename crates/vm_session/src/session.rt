//! The call that the program makes.

ghost use Rattle.std.specs.Prelude.{◌≡◌, ◌↔◌, None, IfSome};
ghost use Rattle.script_io.specs.Faults.{HasFailed};
ghost use Rattle.vm_model.specs.Contents.Content.{nothing};
ghost use Rattle.vm_session.specs.Outcome.{task_asked, AskForWork, TaskEndsAs};

use crate::serving::serve;
use crate::words::{Task, task_asked};
use crate::working::work;
use page_store::PageStore;
use script_io::{Sink, Source, Status};
use std::alloc::Global;
use vm_base::SCRIPT_BYTES;

/// Does what `words` ask for: the words of the command line behind the program's name.
///
/// `run` runs the script that a source gives, and writes the replies to a sink. Each line is answered, and its replies
/// are written, before the next line is looked at. `work NUMBER COUNT` reads nothing. It does `COUNT` commands, at most
/// `WORK_COUNT`, that are generated from a number below 2^64, and writes one line that says what became of them. The
/// machine has 1,024 page frames, or as many as `--frames N` at the end says, with one to five digits, from 1 to
/// 65,536.
///
/// `HostMemory` if the host has too little memory for the buffers and the frames. `ScriptLimit` if the source gives
/// more than 4,294,967,296 bytes. `ReadFault` if the source fails, `WriteFault` if the sink fails. `Usage` for other
/// words, and nothing is touched then.
///
/// It is not inlined, so the stack has the frames of one word of the program at a time.
#[inline(never)]
pub fn run<P: PageStore, S: Source, K: Sink>(
    alloc: Global,
    words: &[String],
    store: &mut P,
    source: &mut S,
    sink: &mut K,
) -> Status
    requires { P.content store.old ≡ nothing }

    // What each status says of the bytes that the source gave, the bytes that the sink took and what the store
    // contains. `Done` says that the bytes written are the replies of one legal run over all lines of the script, or
    // the line that tells of one legal run over the workload. It also says that the store contains what the machine has
    // in the end.
    ensures ends { IfSome (task_asked words.now) (λ task.
        TaskEndsAs task result (S.remaining source.old) (S.remaining source.new)
        (K.contents sink.old) (K.contents sink.new) (P.content store.new)) }

    // A workload is done without reading.
    ensures unread { AskForWork words.now → source.new ≡ source.old }

    // A fault is answered only if the source or the sink failed.
    ensures read_cause { result ≡ Status.ReadFault → HasFailed (S.faults source.old) (S.faults source.new) }
    ensures write_cause { result ≡ Status.WriteFault → HasFailed (K.faults sink.old) (K.faults sink.new) }

    // Memory is wanted only before anything is read.
    ensures host_memory { result ≡ Status.HostMemory → (source.new ≡ source.old) × (sink.new ≡ sink.old) }

    // Other words are refused, and nothing is touched.
    ensures usage { (result ≡ Status.Usage) ↔ (task_asked words.now ≡ None) }
    ensures untouched { result ≡ Status.Usage → (source.new ≡ source.old) × (sink.new ≡ sink.old)
        × (store.new ≡ store.old) }
{
    match task_asked(words) {
        Some(Task::Run { frames }) => serve(alloc, frames, SCRIPT_BYTES, store, source, sink),
        Some(
            Task::Work {
                number,
                count,
                frames,
            },
        ) => work(alloc, frames, number, count, store, sink),
        None => Status::Usage,
    }
}
