//! Scripts and their replies, told as texts, in one file for each subject.
//!
//! A text has these lines:
//!
//!     == WORDS       a script begins, which is run under these words of the command line
//!     # ..           for the reader, as a blank line is
//!     LINE => REPLY  the next line of the script, and the next line that the machine is to write
//!     REPLY          the next line that the machine is to write: OK .., + .., or the name of a refusal
//!     > LINE         the next line of the script; > alone is an empty one
//!     >N LINE        the same, with the last character of LINE again and again, up to N bytes
//!     tree COUNTS    how many hidden nodes, rows and rows with a page frame the clone tree is to have in the end
//!
//! Each script is run over the clone tree and over the plain store, on an empty machine each, and once more over the clone
//! tree by `Vm::step` in place of `run`, by `Batch::step` in place of `run_batch`, or by `SourceVm::step` in place of
//! `run_sources`. Each must write exactly the replies.

use self::job_steps::job_stepped;
use self::reading::{Script, read_script};
use self::runs::{Counts, compare, written};
use self::source_steps::source_stepped;
use self::steps::stepped;
use self::text_fault::Fault;
use std::alloc::Global;
use std::test::Fail;

mod accesses;
mod alike;
mod chains;
mod digits;
mod edges;
mod endings;
mod forks;
mod job_steps;
mod jobs;
mod judged;
mod lines;
mod mixing;
mod pinned_snapshots;
mod pins;
mod reading;
mod refusals;
mod runs;
mod sharing;
mod sizes;
mod source_steps;
mod sources;
mod steps;
mod text_fault;
mod texts;
mod transcripts;
mod trees;
mod words;

/// Fails if the clone tree has not the counts that are wanted.
fn compare_counts(alloc: Global, wanted: &str, counts: Counts) -> Result<(), Fault> {
    let Counts {
        hidden,
        rows,
        frame_rows,
        ..
    } = counts;
    let told = format!(in alloc; "hidden={hidden} rows={rows} frame_rows={frame_rows}")?;
    if wanted.is_empty() || wanted == told.as_str() {
        Ok(())
    } else {
        Err(Fault::OtherTree(told))
    }
}

/// Returns what a script writes step by step. `None` if its words run none that way.
fn written_by_steps(alloc: Global, words: &[String], lines: &str) -> Result<Option<String>, Fault> {
    if let Some(written) = stepped(alloc, words, lines)? {
        return Ok(Some(written));
    }
    if let Some(written) = source_stepped(alloc, words, lines)? {
        return Ok(Some(written));
    }
    job_stepped(alloc, words, lines)
}

/// Checks a script that was read.
fn check_read(alloc: Global, script: &Script) -> Result<(), Fault> {
    let (words, lines) = (script.words.as_slice(), script.lines.as_str());
    let (written, counts) = written(alloc, words, lines)?;
    compare(alloc, script.replies.as_str(), written.as_str())?;
    compare_counts(alloc, script.counts.as_str(), counts)?;
    match written_by_steps(alloc, words, lines)? {
        Some(written) => compare(alloc, script.replies.as_str(), written.as_str()),
        None => Ok(()),
    }
}

/// Checks one script of a text, without the `== ` before its words.
fn check_script(alloc: Global, text: &str) -> Result<(), Fault> {
    let script = read_script(alloc, text)?;
    let checked = check_read(alloc, &script);
    drop(script);
    checked
}

/// Checks each script of a text. Answers how it fails.
fn check_text(alloc: Global, text: &str) -> Result<(), Fault> {
    let Some(scripts) = text.strip_prefix("== ") else {
        return Err(Fault::NoScript);
    };
    for script in scripts.split("\n== ") {
        check_script(alloc, script)?;
    }
    Ok(())
}

/// Checks each script of a text. This is what a test does.
fn check(alloc: Global, text: &str) -> Result<(), Fail> {
    Ok(check_text(alloc, text)?)
}
