//! Runs of four actors on threads of their own. What they write is checked whatever the schedule is: either it is the same for
//! each, or it is split by actor.

mod ends;
mod meeting;
mod refusals;

ghost use Rattle.std.specs.Prelude.{◌≡◌};
ghost use Rattle.vm_model.specs.Contents.Content.{nothing};

use cow_forest::CowForest;
use page_store::PageStore;
use script_io::{MemSink, MemSource, Status};
use shared_vm::{Gate, run_actors};
use std::alloc::Global;
use std::sync::Wait;
use std::test::Fail;
use std::thread::Threads;

/// The room of a sink that is never full here, in bytes.
const ROOM: usize = 2_097_152;

/// A call that does not come.
const NEVER: u64 = 99_999;

/// A run of the actors, under these words of a command line and with this input. The pull and the push with these numbers
/// fail, both counted from 1.
#[derive(Clone, Copy)]
struct Run<'a> {
    words: &'a str,
    input: &'a str,
    pull: u64,
    push: u64,
}

impl<'a> Run<'a> {
    /// Makes a run in which no call fails.
    fn sure(words: &'a str, input: &'a str) -> Run<'a> {
        Run {
            words,
            input,
            pull: NEVER,
            push: NEVER,
        }
    }
}

/// The end of a run of the actors, and what is written.
#[derive(Drop)]
struct End {
    status: Status,
    written: String,
}

/// Returns the words of a command line, parted by single blanks.
fn words_of(alloc: Global, line: &str) -> Result<Vec<String>, Fail> {
    let mut words = Vec::new(alloc);
    for word in line.split(' ') {
        words.push(String::from_str(alloc, word)?)?;
    }
    Ok(words)
}

/// Runs the actors over an empty store.
fn acted_over<R: Threads + Wait + Sync, P: PageStore + Send, G: Gate>(
    rt: &R,
    alloc: Global,
    gate: &G,
    run: Run<'_>,
    store: P,
) -> Result<End, Fail>
    requires { P.content store ≡ nothing }
{
    let words = words_of(alloc, run.words)?;
    let Ok(mut source) = MemSource::new(alloc, run.input.as_bytes(), 4096, &[run.pull]) else {
        return Err(Fail::from("room for a source"));
    };
    let Ok(mut sink) = MemSink::new(alloc, ROOM, 5, &[run.push]) else {
        return Err(Fail::from("room for a sink"));
    };
    let (status, store) = run_actors(
        rt,
        alloc,
        words.as_slice(),
        gate,
        store,
        &mut source,
        &mut sink,
    );
    let written = text_in(alloc, &sink);
    // Each by one call, before the next exit: at an exit all that is held is dropped part by part, each with a proof.
    drop(store);
    drop(sink);
    drop(source);
    drop(words);
    Ok(End {
        status,
        written: written?,
    })
}

/// Returns what a sink took, as a text.
fn text_in(alloc: Global, sink: &MemSink) -> Result<String, Fail> {
    let Ok(written) = str::from_utf8(sink.bytes()) else {
        return Err(Fail::from("a text"));
    };
    Ok(String::from_str(alloc, written)?)
}

/// Runs the actors over an empty clone tree.
fn acted<R: Threads + Wait + Sync, G: Gate>(
    rt: &R,
    alloc: Global,
    gate: &G,
    run: Run<'_>,
) -> Result<End, Fail> {
    acted_over(rt, alloc, gate, run, CowForest::new(alloc))
}

/// Returns the lines of an actor, of what was written.
fn lines_of(alloc: Global, written: &str, actor: &str) -> Result<String, Fail> {
    let mut lines = String::new(alloc);
    for line in written.lines() {
        if let Some(reply) = line.strip_prefix(actor) {
            lines.push_str(reply)?;
            lines.push('|')?;
        }
    }
    Ok(lines)
}
