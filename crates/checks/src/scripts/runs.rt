//! Runs of a script over the clone tree and over the plain store, on an empty machine each.

ghost use Rattle.std.specs.Prelude.{◌≡◌};
ghost use Rattle.vm_model.specs.Contents.Content.{nothing};

use super::text_fault::Fault;
use batch_vm::run_batch;
use cow_forest::CowForest;
use page_store::{FlatStore, PageStore};
use script_io::{MemSink, MemSource, Sink, Source, SureSource};
use source_vm::{SourceFn, run_sources, src_byte};
use std::alloc::Global;
use transcript::run_check;
use vm_session::{Status, run, serve};

/// The room of a sink that is never full here, in bytes.
const ROOM: usize = 2_097_152;

/// The most bytes that a source gives a call, and the most that a sink takes. A 0 is taken for 1.
#[derive(Clone, Copy)]
pub(crate) struct Pieces {
    pub(crate) pulled: usize,
    pub(crate) pushed: usize,
}

/// The way in which a script is run.
#[derive(Clone, Copy)]
pub(crate) enum Way<'a> {
    /// Under these words of the command line. No call fails.
    Sure(&'a [String]),
    /// Under these words, from a source that gives pieces of at most so many bytes to a sink that takes such. The pull
    /// and the push with these numbers fail, both counted from 1.
    Failing {
        words: &'a [String],
        pieces: Pieces,
        pull: u64,
        push: u64,
    },
    /// Served on one page frame, with a limit of ten bytes.
    Limited,
}

/// The end of a run.
#[derive(Drop)]
pub(crate) struct End {
    pub(crate) status: Status,
    pub(crate) written: String,
}

/// Counts of the clone tree.
#[derive(Clone, Copy)]
pub(crate) struct Counts {
    pub(crate) hidden: u64,
    pub(crate) rows: u64,
    pub(crate) frame_rows: u64,
    pub(crate) vmos: u64,
    pub(crate) free: u32,
}

/// Returns the end of a run with this status, whose sink took these bytes.
fn end_of(alloc: Global, status: Status, sink: &MemSink) -> Result<End, Fault> {
    let Ok(written) = str::from_utf8(sink.bytes()) else {
        return Err(Fault::NoText);
    };
    let written = String::from_str(alloc, written)?;
    Ok(End { status, written })
}

/// Runs a script of page sources.
fn run_by_sources<P: PageStore, S: Source, K: Sink>(
    alloc: Global,
    words: &[String],
    store: &mut P,
    source: &mut S,
    sink: &mut K,
) -> Status
    requires { P.content store.old ≡ nothing }
{
    let functions = [
        SourceFn::new(0, |seed, offset| src_byte(0, seed, offset)),
        SourceFn::new(1, |seed, offset| src_byte(1, seed, offset)),
        SourceFn::new(2, |seed, offset| src_byte(2, seed, offset)),
    ];
    run_sources(alloc, words, functions, store, source, sink)
}

/// Runs a script by the call for its words.
fn run_by_words<P: PageStore, S: Source, K: Sink>(
    alloc: Global,
    words: &[String],
    store: &mut P,
    source: &mut S,
    sink: &mut K,
) -> Status
    requires { P.content store.old ≡ nothing }
{
    match words {
        [verb, ..] if verb.as_str() == "check" => run_check(alloc, words, source, sink),
        [verb, ..] if verb.as_str() == "batch" => run_batch(alloc, words, store, source, sink),
        [verb, ..] if verb.as_str() == "sources" => {
            run_by_sources(alloc, words, store, source, sink)
        }
        _ => run(alloc, words, store, source, sink),
    }
}

/// Runs a script in which no call fails.
fn run_sure<P: PageStore>(
    alloc: Global,
    words: &[String],
    script: &[u8],
    store: &mut P,
) -> Result<End, Fault>
    requires { P.content store.old ≡ nothing }
{
    let mut source = SureSource::new(script);
    let Ok(mut sink) = MemSink::new(alloc, ROOM, ROOM, &[]) else {
        return Err(Fault::HostMemory);
    };
    let status = run_by_words(alloc, words, store, &mut source, &mut sink);
    end_of(alloc, status, &sink)
}

/// Runs a script in which a pull and a push fail.
fn run_failing<P: PageStore>(
    alloc: Global,
    words: &[String],
    script: &[u8],
    pieces: Pieces,
    pull: u64,
    push: u64,
    store: &mut P,
) -> Result<End, Fault>
    requires { P.content store.old ≡ nothing }
{
    let Ok(mut source) = MemSource::new(alloc, script, pieces.pulled.max(1), &[pull]) else {
        return Err(Fault::HostMemory);
    };
    let Ok(mut sink) = MemSink::new(alloc, ROOM, pieces.pushed.max(1), &[push]) else {
        return Err(Fault::HostMemory);
    };
    let status = run_by_words(alloc, words, store, &mut source, &mut sink);
    end_of(alloc, status, &sink)
}

/// Serves a script under a limit.
fn serve_limited<P: PageStore>(alloc: Global, script: &[u8], store: &mut P) -> Result<End, Fault>
    requires { P.content store.old ≡ nothing }
{
    let mut source = SureSource::new(script);
    let Ok(mut sink) = MemSink::new(alloc, ROOM, ROOM, &[]) else {
        return Err(Fault::HostMemory);
    };
    let status = serve(alloc, 1, 10, store, &mut source, &mut sink);
    end_of(alloc, status, &sink)
}

/// Runs a script over an empty store.
fn run_over<P: PageStore>(
    alloc: Global,
    way: Way<'_>,
    script: &[u8],
    store: &mut P,
) -> Result<End, Fault>
    requires { P.content store.old ≡ nothing }
{
    match way {
        Way::Sure(words) => run_sure(alloc, words, script, store),
        Way::Failing {
            words,
            pieces,
            pull,
            push,
        } => run_failing(alloc, words, script, pieces, pull, push, store),
        Way::Limited => serve_limited(alloc, script, store),
    }
}

/// Runs a script over the plain store.
fn run_over_plain(alloc: Global, way: Way<'_>, script: &[u8]) -> Result<End, Fault> {
    let mut store = FlatStore::new(alloc);
    let end = run_over(alloc, way, script, &mut store);
    // By one call, here and below: at the end of a body the store would be dropped part by part, each with a proof.
    drop(store);
    end
}

/// Runs a script over the clone tree, and counts what is left in it.
fn run_over_tree(alloc: Global, way: Way<'_>, script: &[u8]) -> (Result<End, Fault>, Counts) {
    let mut tree = CowForest::new(alloc);
    let end = run_over(alloc, way, script, &mut tree);
    let counts = Counts {
        hidden: tree.hidden(),
        rows: tree.rows(),
        frame_rows: tree.frame_rows(),
        vmos: tree.vmos(),
        free: tree.free(),
    };
    drop(tree);
    (end, counts)
}

/// Fails if the lines that were written are not those that are wanted.
pub(crate) fn compare(alloc: Global, wanted: &str, written: &str) -> Result<(), Fault> {
    if wanted == written {
        return Ok(());
    }
    for (wanted, written) in wanted.lines().zip(written.lines()) {
        if wanted != written {
            let wanted = String::from_str(alloc, wanted)?;
            let written = String::from_str(alloc, written)?;
            return Err(Fault::OtherReply { wanted, written });
        }
    }
    Err(Fault::OtherLength)
}

/// Runs a script over both stores, which must end in the same way. Answers that, and the counts of the clone tree.
pub(crate) fn run_both(alloc: Global, way: Way<'_>, script: &[u8]) -> Result<(End, Counts), Fault> {
    let (by_tree, counts) = run_over_tree(alloc, way, script);
    let by_tree = by_tree?;
    let by_plain = run_over_plain(alloc, way, script)?;
    if by_tree.status != by_plain.status {
        return Err(Fault::Ended(by_tree.status));
    }
    compare(alloc, by_plain.written.as_str(), by_tree.written.as_str())?;
    Ok((by_tree, counts))
}

/// Returns what a run wrote, which must have come to its end.
fn whole(end: End) -> Result<String, Fault> {
    if end.status == Status::Done {
        Ok(end.written)
    } else {
        Err(Fault::Ended(end.status))
    }
}

/// Runs a script, or a workload, to its end over both stores. Answers what is written, and the counts of the clone
/// tree.
pub(crate) fn written(
    alloc: Global,
    words: &[String],
    script: &str,
) -> Result<(String, Counts), Fault> {
    let (end, counts) = run_both(alloc, Way::Sure(words), script.as_bytes())?;
    Ok((whole(end)?, counts))
}

/// Runs a script to its end over the clone tree alone, which may choose other frames for a pin than the plain store.
pub(crate) fn written_by_tree(
    alloc: Global,
    words: &[String],
    script: &str,
) -> Result<String, Fault> {
    let (end, _) = run_over_tree(alloc, Way::Sure(words), script.as_bytes());
    whole(end?)
}
