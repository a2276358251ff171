//! The whole machine over the clone tree.

ghost use Rattle.std.specs.Prelude.{◌≡◌, ◌≢◌, ◌↔◌, [], ◌∷◌, None, Some, IfSome, IsSome, codes, map, option_map};
ghost use Rattle.script_io.specs.Faults.{HasFailed};
ghost use Rattle.vm_base.specs.declared.limits.TheConstants.{SCRIPT_BYTES};
ghost use Rattle.vm_model.specs.Contents.Content.{nothing};
ghost use Rattle.cow_forest.specs.Store.{forest_content};
ghost use Rattle.line_server.specs.Outcome.{EndsAs};
ghost use Rattle.line_server.specs.Words.{frames_asked};
ghost use Rattle.vm_session.specs.Outcome.{task_asked, AskForWork, TaskEndsAs};
ghost use Rattle.batch_vm.specs.BatchAnswering.{batch_rules};
ghost use Rattle.source_vm.specs.Answering.{source_rules};
ghost use Rattle.shared_vm.specs.Outcome.{ActorsEndAs, IfThere};
ghost use Rattle.transcript.specs.Reports.{CheckEndsAs};

use crate::verbs::has_verb;
use batch_vm::run_batch;
use cow_forest::CowForest;
use script_io::{Sink, Source};
use shared_vm::{Gate, run_actors};
use source_vm::{SourceFn, run_sources};
use std::alloc::Global;
use std::sync::Wait;
use std::thread::Threads;
use transcript::run_check;
use vm_session::{Status, run};

/// Does what `words` ask for, over the clone tree. That is what `vm_session`'s `run` does over any store, with its promises. The
/// first word may name another call: `batch` is `batch_vm`'s `run_batch`, `sources` is `source_vm`'s `run_sources`, `actors` is
/// `shared_vm`'s `run_actors`, and `check` is `transcript`'s `run_check`. This is the call that the program makes.
///
/// What is written is the replies of one legal run of the plain machine, in which a snapshot copies its range at once, and the
/// tree has that machine's pages then. With `batch` the machine has jobs too. With `sources` it is another one, whose VMOs are
/// filled from `functions`, one for each kind. With `actors` the run does the tasks of four actors, which take turns on it in any
/// order, and the call may wait; it promises this if it returns. With `check` one line says whether a script and its replies are
/// a legal run, where the kernel may move pages that no pin covers, and the tree stays as it was.
///
/// The tree is there at first and has nothing. It is there afterwards, except after an answer `HostMemory` to `actors`.
pub fn top<R: Threads + Wait + Sync, G: Gate, S: Source, K: Sink>(
    rt: &R,
    alloc: Global,
    words: &[String],
    gate: &G,
    functions: [SourceFn; 3],
    store: &mut Option<CowForest>,
    source: &mut S,
    sink: &mut K,
) -> Status
    requires store { option_map forest_content store.old ≡ Some nothing }
    requires kinds { map (λ f. f.kind) functions ≡ 0 ∷ 1 ∷ 2 ∷ [] }

    // What each status says of the bytes that the source gave, the bytes that the sink took and what the tree contains.
    ensures ends { IfSome (task_asked words.now) (λ task. IfThere (option_map forest_content store.new) (λ content.
        TaskEndsAs task result (S.remaining source.old) (S.remaining source.new)
        (K.contents sink.old) (K.contents sink.new) content)) }

    // The same of a script on the machine with jobs.
    ensures batch { IfSome (frames_asked (codes "batch") words.now) (λ frames.
        IfThere (option_map forest_content store.new) (λ content.
        EndsAs batch_rules result frames SCRIPT_BYTES (S.remaining source.old) (S.remaining source.new)
        (K.contents sink.old) (K.contents sink.new) content)) }

    // The same of a script on the machine of page sources.
    ensures sources { IfSome (frames_asked (codes "sources") words.now) (λ frames.
        IfThere (option_map forest_content store.new) (λ content.
        EndsAs source_rules result frames SCRIPT_BYTES (S.remaining source.old) (S.remaining source.new)
        (K.contents sink.old) (K.contents sink.new) content)) }

    // The same of the tasks of four actors.
    ensures actors { IfSome (frames_asked (codes "actors") words.now) (λ frames.
        ActorsEndAs result frames (S.remaining source.old) (S.remaining source.new)
        (K.contents sink.old) (K.contents sink.new) (option_map forest_content store.new)) }

    // What each status says of a transcript that is checked. The tree has no part in it.
    ensures check { IfSome (frames_asked (codes "check") words.now) (λ frames.
        CheckEndsAs result frames (S.remaining source.old) (S.remaining source.new)
        (K.contents sink.old) (K.contents sink.new)) }
    ensures apart { IsSome (frames_asked (codes "check") words.now) → store.new ≡ store.old }

    // A workload is done without reading.
    ensures unread { AskForWork words.now → source.new ≡ source.old }

    // A fault is answered only if the source or the sink failed.
    ensures read_cause { result ≡ Status.ReadFault → HasFailed (S.faults source.old) (S.faults source.new) }
    ensures write_cause { result ≡ Status.WriteFault → HasFailed (K.faults sink.old) (K.faults sink.new) }

    // Except for actors and transcripts, memory is wanted only before anything is read.
    ensures host_memory { result ≡ Status.HostMemory → frames_asked (codes "actors") words.now ≡ None
        → frames_asked (codes "check") words.now ≡ None → (source.new ≡ source.old) × (sink.new ≡ sink.old) }

    // For actors nothing is written before all tasks are done.
    ensures unwritten { IsSome (frames_asked (codes "actors") words.now) → result ≢ Status.Done → result ≢ Status.WriteFault
        → sink.new ≡ sink.old }

    // Of a transcript nothing is written before its end.
    ensures unreported { IsSome (frames_asked (codes "check") words.now) → result ≢ Status.Done → result ≢ Status.WriteFault
        → sink.new ≡ sink.old }

    // Only actors that lack memory take the tree with them.
    ensures kept { store.new ≡ None
        → (result ≡ Status.HostMemory) × IsSome (frames_asked (codes "actors") words.now) }

    // Other words are refused, and nothing is touched.
    ensures usage { (result ≡ Status.Usage)
        ↔ ((task_asked words.now ≡ None) × (frames_asked (codes "batch") words.now ≡ None)
        × (frames_asked (codes "sources") words.now ≡ None) × (frames_asked (codes "actors") words.now ≡ None)
        × (frames_asked (codes "check") words.now ≡ None)) }
    ensures untouched { result ≡ Status.Usage → (source.new ≡ source.old) × (sink.new ≡ sink.old)
        × (store.new ≡ store.old) }
{
    if has_verb(b"actors", words) {
        let Some(tree) = store.take() else {
            unreachable!()
        };
        let (status, tree) = run_actors(rt, alloc, words, gate, tree, source, sink);
        put_back(store, tree);
        return status;
    }
    let Some(tree) = store else { unreachable!() };
    if has_verb(b"batch", words) {
        return run_batch(alloc, words, tree, source, sink);
    }
    if has_verb(b"sources", words) {
        return run_sources(alloc, words, functions, tree, source, sink);
    }
    if has_verb(b"check", words) {
        return run_check(alloc, words, source, sink);
    }
    run(alloc, words, tree, source, sink)
}

/// Puts a tree in the place of another. It is a function of its own, so that the proof of `top` has no tree that is let go.
fn put_back(store: &mut Option<CowForest>, tree: Option<CowForest>)
    ensures { store.new ≡ tree }
{
    *store = tree;
}
