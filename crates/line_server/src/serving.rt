//! Serving a script line by line.

ghost use Rattle.std.specs.Prelude.{◌≡◌, ◌↔◌, ℕ, ◌^◌, ◌<◌, ◌≤◌, None, IfSome};
ghost use Rattle.script_io.specs.Faults.{HasFailed};
ghost use Rattle.vm_model.specs.Contents.Content.{nothing};
ghost use Rattle.line_server.specs.Outcome.{EndsAs};

use crate::answering::{Answer, served_as};
use crate::interpreter::Interpreter;
use crate::reading::read_lines;
use page_store::PageStore;
use script_io::{Lines, Sink, Source, Status};
use std::alloc::Global;
use vm_base::{FRAMES, Failed, SCRIPT_BYTES};

/// The number of page frames that a store is to get, from 1 to `FRAMES`, and the number of bytes that a script may have.
#[derive(Clone, Copy, Debug)]
pub struct Bounds {
    pub frames: u32,
    pub bytes: u64,
}

/// Answers the lines of the script that a source gives, one after another, over a store that gets its page frames first. Each turn of the loop fetches one line and pushes its answer, and takes bytes of the source only if no whole line is
/// left. This is proved of a turn, and no clause here speaks of the order of pulls and pushes.
///
/// `Done` if the script ended and each line was answered. `HostMemory` if the host has too little memory for the buffers and the
/// frames, and then nothing was read or written. `ReadFault` if the source fails, and then each whole line that it gave was
/// answered. `WriteFault` if the sink fails: the lines up to one were done, and the answer to that one was cut off. `ScriptLimit`
/// if the source gives more bytes than the script may have, and then the lines whose line feed lies within them were answered. At
/// most one byte more is taken of the source.
pub fn serve<P: PageStore, I: Interpreter<P>, S: Source, K: Sink>(
    alloc: Global,
    bounds: Bounds,
    store: &mut P,
    interpreter: &mut I,
    source: &mut S,
    sink: &mut K,
) -> Status
    requires empty { P.content store.old ≡ nothing }
    requires frames { 1 ≤ bounds.frames × bounds.frames ≤ FRAMES }
    requires limit { bounds.bytes < 2 ^ 63 }

    // Over a store with nothing but frames the interpreter stands for its first state, which is good.
    requires agrees { I.Agrees interpreter.old (record nothing { frames = bounds.frames }) }
    requires start { I.state interpreter.old (record nothing { frames = bounds.frames }) ≡ I.rules.start bounds.frames }
    requires good { I.rules.IsGood (I.rules.start bounds.frames) }
    ensures ends { EndsAs I.rules result bounds.frames bounds.bytes (S.remaining source.old) (S.remaining source.new)
        (K.contents sink.old) (K.contents sink.new) (P.content store.new) }
    ensures read_cause { result ≡ Status.ReadFault → HasFailed (S.faults source.old) (S.faults source.new) }
    ensures write_cause { result ≡ Status.WriteFault → HasFailed (K.faults sink.old) (K.faults sink.new) }
    ensures host_memory { result ≡ Status.HostMemory → (source.new ≡ source.old) × (sink.new ≡ sink.old) }
{
    let Ok(mut lines) = Lines::new(alloc, bounds.bytes) else {
        return Status::HostMemory;
    };
    let Ok(()) = store.fill(bounds.frames) else {
        return Status::HostMemory;
    };
    let read = read_lines::<Answer, I, P, K, Failed, S>(
        &mut lines,
        interpreter,
        store,
        source,
        sink,
    );
    served_as(read)
}

/// Does `serve` with as many page frames as the words of a command line ask for (`frames_asked`), and at most `SCRIPT_BYTES` bytes
/// of a script. `Usage` if and only if they are other words, so that there is no number, and then nothing is touched.
pub fn serve_asked<P: PageStore, I: Interpreter<P>, S: Source, K: Sink>(
    alloc: Global,
    frames: Option<u32>,
    store: &mut P,
    interpreter: &mut I,
    source: &mut S,
    sink: &mut K,
) -> Status
    requires empty { P.content store.old ≡ nothing }
    requires frames { IfSome frames (λ frames. 1 ≤ frames × frames ≤ FRAMES) }
    requires agrees { (frames : ℕ) → I.Agrees interpreter.old (record nothing { frames = frames }) }
    requires start { (frames : ℕ) → I.state interpreter.old (record nothing { frames = frames }) ≡ I.rules.start frames }
    requires good { (frames : ℕ) → I.rules.IsGood (I.rules.start frames) }
    ensures ends { IfSome frames (λ frames.
        EndsAs I.rules result frames SCRIPT_BYTES (S.remaining source.old) (S.remaining source.new)
        (K.contents sink.old) (K.contents sink.new) (P.content store.new)) }
    ensures read_cause { result ≡ Status.ReadFault → HasFailed (S.faults source.old) (S.faults source.new) }
    ensures write_cause { result ≡ Status.WriteFault → HasFailed (K.faults sink.old) (K.faults sink.new) }
    ensures host_memory { result ≡ Status.HostMemory → (source.new ≡ source.old) × (sink.new ≡ sink.old) }
    ensures usage { (result ≡ Status.Usage) ↔ (frames ≡ None) }
    ensures untouched { result ≡ Status.Usage → (source.new ≡ source.old) × (sink.new ≡ sink.old)
        × (store.new ≡ store.old) }
{
    let Some(frames) = frames else {
        return Status::Usage;
    };
    let bounds = Bounds {
        frames,
        bytes: SCRIPT_BYTES,
    };
    serve(alloc, bounds, store, interpreter, source, sink)
}
