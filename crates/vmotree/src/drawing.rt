//! The call that the program makes.

ghost use Rattle.std.specs.Prelude.{◌≡◌, ◌↔◌, ◌⊎◌, ◌<◌, ◌≤◌, List, ℕ, Option, None, IfSome};
ghost use Rattle.script_io.specs.Faults.{HasFailed};
ghost use Rattle.vm_base.specs.declared.limits.TheConstants.{FRAMES};
ghost use Rattle.vm_model.specs.Contents.Content.{nothing};
ghost use Rattle.cow_forest.specs.Store.{forest_content};
ghost use Rattle.tree_text.specs.Order.{all_nodes, HasEachNodeOnce};
ghost use Rattle.vmotree.specs.Words.{request_in};
ghost use Rattle.vmotree.specs.Outcome.{DrawsAs, Runs};

use crate::request::{Request, request_in};
use cow_forest::CowForest;
use script_io::{CountSink, Sink, Source, Status};
use std::alloc::Global;
use tree_text::write_forest;
use vm_base::SCRIPT_BYTES;
use vm_session::serve;

/// Runs the script that a source gives, over the clone tree, and writes the text of the tree that the store has at the end to a sink.
/// This is the call that the program makes.
///
/// The script is run as by `run`. If the words ask for the replies, they are written before the tree, and are those of `run`. Otherwise
/// the text of the tree is all that is written. It is written too if reading failed or the script was too long, since the whole lines
/// before were done.
pub fn draw<S: Source, K: Sink>(
    alloc: Global,
    words: &[String],
    store: &mut CowForest,
    source: &mut S,
    sink: &mut K,
) -> Status
    requires { forest_content store.old ≡ nothing }

    // What each status says of the bytes that the source gave, the bytes that the sink took, and the tree.
    ensures ends { IfSome (request_in words.now) (λ r. DrawsAs r result (S.remaining source.old) (S.remaining source.new)
        (K.contents sink.old) (K.contents sink.new) store.new) }

    // The text of the tree has a line for each of its nodes, and for none of them two.
    ensures nodes { IfSome (request_in words.now) (λ r. HasEachNodeOnce store.new (all_nodes store.new)) }

    // A fault is answered only if the source failed, or if the sink has failed, which is new in the program.
    ensures read_cause { result ≡ Status.ReadFault → HasFailed (S.faults source.old) (S.faults source.new) }
    ensures write_cause { result ≡ Status.WriteFault → 0 < K.faults sink.new }

    // Memory is wanted only before anything is read.
    ensures host_memory { result ≡ Status.HostMemory → (source.new ≡ source.old) × (sink.new ≡ sink.old) }

    // Other words are refused, and nothing is touched.
    ensures usage { (result ≡ Status.Usage) ↔ (request_in words.now ≡ None) }
    ensures untouched { result ≡ Status.Usage → (source.new ≡ source.old) × (sink.new ≡ sink.old)
        × (store.new ≡ store.old) }
{
    let Some(request) = request_in(words) else {
        return Status::Usage;
    };
    let status = run_script(alloc, request, store, source, sink);
    draw_last(request, status, store, sink)
}

/// Runs the script as `run` does, and writes the replies if they are asked for.
fn run_script<S: Source, K: Sink>(
    alloc: Global,
    request: Request,
    store: &mut CowForest,
    source: &mut S,
    sink: &mut K,
) -> Status
    requires empty { forest_content store.old ≡ nothing }
    requires frames { 1 ≤ request.frames × request.frames ≤ FRAMES }
    ensures runs { Runs request.replies request.frames result (S.remaining source.old) (S.remaining source.new) (K.contents sink.old)
        (K.contents sink.new) store.new }
    ensures read_cause { result ≡ Status.ReadFault → HasFailed (S.faults source.old) (S.faults source.new) }
    ensures write_cause { result ≡ Status.WriteFault → HasFailed (K.faults sink.old) (K.faults sink.new) }
    ensures host_memory { result ≡ Status.HostMemory → (source.new ≡ source.old) × (sink.new ≡ sink.old) }
{
    if request.replies {
        return serve(alloc, request.frames, SCRIPT_BYTES, store, source, sink);
    }
    let mut unheard = CountSink::new();
    serve(
        alloc,
        request.frames,
        SCRIPT_BYTES,
        store,
        source,
        &mut unheard,
    )
}

/// Writes the tree behind a script that ended so.
fn draw_last<K: Sink>(request: Request, status: Status, store: &CowForest, sink: &mut K) -> Status
    ensures ends { (source_old source_new sink_old : Option (List ℕ)) →
        Runs request.replies request.frames status source_old source_new sink_old (K.contents sink.old) store.now →
        DrawsAs request result source_old source_new sink_old (K.contents sink.new) store.now }
    ensures nodes { HasEachNodeOnce store.now (all_nodes store.now) }
    ensures same { (result ≡ status) ⊎ (result ≡ Status.WriteFault) }
    ensures cause { result ≡ Status.WriteFault → (status ≡ Status.WriteFault) ⊎ HasFailed (K.faults sink.old) (K.faults sink.new) }
    ensures idle { result ≡ Status.HostMemory → sink.new ≡ sink.old }
    ensures still { status ≡ Status.WriteFault → sink.new ≡ sink.old }
{
    // What always holds of the tree is said here.
    let _nodes = store.arena();
    match status {
        Status::Done | Status::ReadFault | Status::ScriptLimit => {
            match write_forest(request.form, store, sink) {
                Ok(()) => status,
                Err(_) => Status::WriteFault,
            }
        }
        Status::WriteFault | Status::HostMemory | Status::Usage => status,
    }
}
