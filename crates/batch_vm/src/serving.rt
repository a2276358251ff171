//! Running a script on a machine with jobs.

ghost use Rattle.std.specs.Prelude.{◌≡◌, ◌↔◌, None, IfSome, codes};
ghost use Rattle.script_io.specs.Faults.{HasFailed};
ghost use Rattle.vm_base.specs.declared.limits.TheConstants.{SCRIPT_BYTES};
ghost use Rattle.vm_model.specs.Contents.Content.{nothing};
ghost use Rattle.line_server.specs.Outcome.{EndsAs};
ghost use Rattle.line_server.specs.Words.{frames_asked};
ghost use Rattle.batch_vm.specs.BatchAnswering.{batch_rules};

use crate::interpreter::BatchInterpreter;
use line_server::{frames_asked, serve_asked};
use page_store::PageStore;
use script_io::{Sink, Source, Status};
use std::alloc::Global;

/// Runs the script that a source gives on a machine with jobs, and writes the replies to a sink, where `words`, those of the command
/// line behind the program's name, are `batch`, or `batch --frames N`. Each line is answered, and its replies written, before the
/// next line is looked at. The machine has 1,024 page frames, or as many as N says, with one to five digits from 1 to 65,536.
///
/// `HostMemory` if the host has too little memory for the buffers and the frames. `ScriptLimit` if the source gives more than
/// 4,294,967,296 bytes. `ReadFault` and `WriteFault` if the source and the sink fail. `Usage` for other words, and then nothing is
/// touched.
///
/// It is not inlined, so the stack has the frames of one word of the program at a time.
#[inline(never)]
pub fn run_batch<P: PageStore, S: Source, K: Sink>(
    alloc: Global,
    words: &[String],
    store: &mut P,
    source: &mut S,
    sink: &mut K,
) -> Status
    requires { P.content store.old ≡ nothing }

    // What each status says of the bytes that the source gave, the bytes that the sink took and what the store contains.
    ensures ends { IfSome (frames_asked (codes "batch") words.now) (λ frames.
        EndsAs batch_rules result frames SCRIPT_BYTES (S.remaining source.old) (S.remaining source.new)
        (K.contents sink.old) (K.contents sink.new) (P.content store.new)) }

    // A fault is answered only if the source or the sink failed.
    ensures read_cause { result ≡ Status.ReadFault → HasFailed (S.faults source.old) (S.faults source.new) }
    ensures write_cause { result ≡ Status.WriteFault → HasFailed (K.faults sink.old) (K.faults sink.new) }

    // Memory is wanted only before anything is read.
    ensures host_memory { result ≡ Status.HostMemory → (source.new ≡ source.old) × (sink.new ≡ sink.old) }

    // Other words are refused, and nothing is touched.
    ensures usage { (result ≡ Status.Usage) ↔ (frames_asked (codes "batch") words.now ≡ None) }
    ensures untouched { result ≡ Status.Usage → (source.new ≡ source.old) × (sink.new ≡ sink.old)
        × (store.new ≡ store.old) }
{
    let mut interpreter = BatchInterpreter::new(alloc);
    let frames = frames_asked(b"batch", words);
    let status = serve_asked(alloc, frames, store, &mut interpreter, source, sink);
    // By one call: at the end of the body its tables would be let go, and that proved, one by one.
    drop(interpreter);
    status
}
