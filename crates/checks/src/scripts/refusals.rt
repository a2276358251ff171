//! Scripts in which one call of the store finds no memory of the host: each number of a call in turn.

use super::accesses::LOADER;
use super::pins::PINS;
use super::reading::{Script, read_text};
use super::runs::compare;
use super::sharing::SHARED;
use super::sizes::SHRUNK;
use super::source_steps::source_stepped_refusing;
use super::sources::SNAPSHOTS;
use super::steps::stepped_refusing;
use super::text_fault::Fault;
use std::alloc::Global;
use std::test::Fail;

/// The number of calls that are refused, one in each run. No script makes more.
const CALLS: u64 = 60;

/// Checks that a script is answered as ever if this call finds no memory and what the call was made for is asked again.
fn check_refused(alloc: Global, script: &Script, call: u64) -> Result<(), Fault> {
    let (words, lines) = (script.words.as_slice(), script.lines.as_str());
    let (written, calls) = match words {
        [verb, ..] if verb.as_str() == "sources" => {
            source_stepped_refusing(alloc, words, lines, call)?
        }
        _ => stepped_refusing(alloc, words, lines, call)?,
    };
    if calls > CALLS {
        return Err(Fault::OtherLength);
    }
    compare(alloc, script.replies.as_str(), written.as_str())
}

/// Checks the script of a text with each call refused.
fn check_each_refused(alloc: Global, text: &str) -> Result<(), Fault> {
    let script = read_text(alloc, text)?;
    for call in 0..CALLS {
        check_refused(alloc, &script, call + 1)?;
    }
    Ok(())
}

/// A command that found no memory changed nothing: given once more, it has the reply that it has with memory, and so
/// have all others.
#[test]
fn each_call_of_the_store_may_find_no_memory(rt: HostRuntime) -> Result<(), Fail> {
    for text in [SHARED, SHRUNK, PINS, LOADER, SNAPSHOTS] {
        check_each_refused(rt.alloc(), text)?;
    }
    Ok(())
}
