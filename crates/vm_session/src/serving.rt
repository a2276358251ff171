//! Serving a script line by line.

ghost use Rattle.std.specs.Prelude.{◌≡◌, ◌^◌, ◌<◌, ◌≤◌};
ghost use Rattle.script_io.specs.Faults.{HasFailed};
ghost use Rattle.vm_model.specs.Contents.Content.{nothing};
ghost use Rattle.line_server.specs.Outcome.{EndsAs};
ghost use Rattle.vm_session.specs.Plain.{plain};

use crate::interpreter::VmInterpreter;
use line_server::Bounds;
use page_store::PageStore;
use script_io::{Sink, Source, Status};
use std::alloc::Global;
use vm_base::FRAMES;

/// Answers the lines of the script that a source gives, one after another, on a machine with `frames` page frames, from
/// 1 to 65,536. The replies to a line are pushed whole before the next line is looked at. All bytes that were pulled
/// are used up before more are pulled.
///
/// `HostMemory` if the host has too little memory for the buffers and the frames. Nothing was read then. `ReadFault` if
/// the source fails, `WriteFault` if the sink fails. `ScriptLimit` if the source gives more than `limit` bytes. The
/// lines that end within the limit were answered then. At most `limit + 1` bytes are taken of the source.
pub fn serve<P: PageStore, S: Source, K: Sink>(
    alloc: Global,
    frames: u32,
    limit: u64,
    store: &mut P,
    source: &mut S,
    sink: &mut K,
) -> Status
    requires empty { P.content store.old ≡ nothing }
    requires frames { 1 ≤ frames × frames ≤ FRAMES }
    requires limit { limit < 2 ^ 63 }
    ensures ends { EndsAs plain result frames limit (S.remaining source.old) (S.remaining source.new)
        (K.contents sink.old) (K.contents sink.new) (P.content store.new) }
    ensures read_cause { result ≡ Status.ReadFault → HasFailed (S.faults source.old) (S.faults source.new) }
    ensures write_cause { result ≡ Status.WriteFault → HasFailed (K.faults sink.old) (K.faults sink.new) }
    ensures host_memory { result ≡ Status.HostMemory → (source.new ≡ source.old) × (sink.new ≡ sink.old) }
{
    let Ok(mut interpreter) = VmInterpreter::new(alloc) else {
        return Status::HostMemory;
    };
    let bounds = Bounds {
        frames,
        bytes: limit,
    };
    let status = line_server::serve(alloc, bounds, store, &mut interpreter, source, sink);
    // By one call: at the end of the body its tables would be let go, and that proved, one by one.
    drop(interpreter);
    status
}
