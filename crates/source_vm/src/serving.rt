//! Running a script on a machine of page sources.

ghost use Rattle.std.specs.Prelude.{◌≡◌, ◌↔◌, [], ◌∷◌, map, None, IfSome, codes};
ghost use Rattle.script_io.specs.Faults.{HasFailed};
ghost use Rattle.vm_base.specs.declared.limits.TheConstants.{SCRIPT_BYTES};
ghost use Rattle.vm_model.specs.Contents.Content.{nothing};
ghost use Rattle.line_server.specs.Outcome.{EndsAs};
ghost use Rattle.line_server.specs.Words.{frames_asked};
ghost use Rattle.source_vm.specs.Answering.{source_rules};

use crate::interpreter::new_interpreter;
use crate::source_fn::SourceFn;
use line_server::{frames_asked, serve_asked};
use page_store::PageStore;
use script_io::{Sink, Source, Status};
use std::alloc::Global;

/// Runs the script that a source gives on a machine of page sources, and writes the replies to a sink, if `words`, those of the
/// command line behind the program's name, are `sources`, or `sources --frames N`. The lines are served as by `serve_asked` of
/// `line_server`. The machine has `DEFAULT_FRAMES` page frames, or as many as N says, with one to five digits from 1 to `FRAMES`.
/// Function i of the three gives the bytes of sources of kind i.
///
/// `HostMemory` if the host has too little memory for the buffers and the frames. `ScriptLimit` if the source gives more than
/// `SCRIPT_BYTES` bytes. `ReadFault` and `WriteFault` if the source and the sink fail. `Usage` for other words, and then nothing is
/// touched.
///
/// It is not inlined, so the stack has the frames of one word of the program at a time.
#[inline(never)]
pub fn run_sources<P: PageStore, S: Source, K: Sink>(
    alloc: Global,
    words: &[String],
    functions: [SourceFn; 3],
    store: &mut P,
    source: &mut S,
    sink: &mut K,
) -> Status
    requires empty { P.content store.old ≡ nothing }
    requires kinds { map (λ f. f.kind) functions ≡ 0 ∷ 1 ∷ 2 ∷ [] }

    // What each status says of the bytes that the source gave, the bytes that the sink took and what the store contains.
    ensures ends { IfSome (frames_asked (codes "sources") words.now) (λ frames.
        EndsAs source_rules result frames SCRIPT_BYTES (S.remaining source.old) (S.remaining source.new)
        (K.contents sink.old) (K.contents sink.new) (P.content store.new)) }

    // A fault is answered only if the source or the sink failed.
    ensures read_cause { result ≡ Status.ReadFault → HasFailed (S.faults source.old) (S.faults source.new) }
    ensures write_cause { result ≡ Status.WriteFault → HasFailed (K.faults sink.old) (K.faults sink.new) }

    // Memory is wanted only before anything is read.
    ensures host_memory { result ≡ Status.HostMemory → (source.new ≡ source.old) × (sink.new ≡ sink.old) }

    // Other words are refused, and nothing is touched.
    ensures usage { (result ≡ Status.Usage) ↔ (frames_asked (codes "sources") words.now ≡ None) }
    ensures untouched { result ≡ Status.Usage → (source.new ≡ source.old) × (sink.new ≡ sink.old)
        × (store.new ≡ store.old) }
{
    let mut interpreter = new_interpreter(alloc, functions);
    let frames = frames_asked(b"sources", words);
    let status = serve_asked(alloc, frames, store, &mut interpreter, source, sink);
    // By one call: at the end of the body its tables would be dropped one by one, each with a proof.
    drop(interpreter);
    status
}
