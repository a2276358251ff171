//! What `run` writes over the clone tree, judged by `check`, whose machine stands on other code.

use super::accesses::LOADER;
use super::mixing::lines_of;
use super::reading::{read_text, words_of};
use super::runs::{compare, written_by_tree};
use super::text_fault::Fault;
use std::alloc::Global;
use std::test::Fail;

/// Forms of all 24 commands, and of lines that say none. Every 125 lines have a root region, and every 25 two regions that may
/// lie in it.
const FORMS: &str = "\
root_create r!125
root_create r!125
root_create r!125
root_create r!125
vmar_allocate r9!25 r!125 0@4 16384 specific can_read can_write
vmar_allocate r8!25 r!125 0 4096@3 can_read can_write can_execute
vmar_allocate r8!25 r9!25 32768 4096@3 upper_limit can_read
vmar_map r!125 0@4 v?5 0 4096@3 rw specific_overwrite
vmar_map r!125 0@4 v?5 0 4096 rw specific_overwrite
vmar_map r!125 4096 v?5 0 8192 rw specific_overwrite
vmar_map r!125 0 v?5 0@4 4096@3 rw
vmar_map r!125 0@4 v?5 0 4096@3 r specific_overwrite allow_faults
vmar_map r9!25 0@4 v?5 0@4 4096@3 rwx specific
vmar_unmap r!125 2097152@6 4096@3
vmar_protect r!125 2097152@6 4096 r
vmar_protect r!125 2097152@6 4096@3 rw
vmar_destroy r9!25
vmar_destroy r?40
mem_read r!125 2097152@3 5
mem_read r!125 2097152@6 5
mem_read r!125 2097152@3 4096
mem_read r!125 2101246@4 4
mem_write r!125 2097152@3 1?9
mem_write r!125 2097152@6 1?9
mem_write r!125 2101247@4 c0de
maps r!125
maps r9!25
vmo_create v?5 16384 resizable
vmo_create v?5 4096@3
vmo_create_child v?5 v?5 snapshot 0@4 4096@3
vmo_create_child v?5 v?5 snapshot 0@4 16384 resizable
vmo_create_child v?5 v?5 snapshot 0 4096@3 no_write
vmo_create_child v?5 v?5 slice 0@4 4096@3
vmo_create_child v?5 v?5 reference 0 0
vmo_close v?5
vmo_size v?5
vmo_set_size v?5 4096@3
vmo_read v?5 0@4 9
vmo_write v?5 0@4 1?9
vmo_write v?5 0@4 1?9
vmo_write v?5 4095@3 beef
vmo_fill v?5 0@4 5000 ?256
vmo_commit v?5 0@4 4096@3
vmo_decommit v?5 0@4 4096@3
vmo_zero v?5 0@4 100
vmo_zero v?5 0@4 4096@3
vmo_pin p?2 v?5 0@4 4096@3
vmo_unpin p?2
vmo_info v?5
stat
# note

vmo_size v0?9";

/// Returns whether a line of a script has a reply.
fn has_reply(line: &str) -> bool {
    match line.split(' ').find(|word| !word.is_empty()) {
        Some(word) => !word.starts_with('#'),
        None => false,
    }
}

/// Returns a script with its replies, as `check` reads it: each line of the script behind `> `, and behind it those of its
/// reply, each behind `< `.
fn joined(alloc: Global, script: &str, replies: &str) -> Result<String, Fault> {
    // A reply in a line each.
    let replies = replies.replace(alloc, "\n+", "|+")?;
    let mut replies = replies.lines();
    let mut joined = String::new(alloc);
    for line in script.lines() {
        joined.push_str("> ")?;
        joined.push_str(line)?;
        joined.push('\n')?;
        if has_reply(line) {
            let reply = replies.next().ok_or(Fault::OtherLength)?;
            joined.push_str("< ")?;
            joined.push_str(reply.replace(alloc, "|", "\n< ")?.as_str())?;
            joined.push('\n')?;
        }
    }
    Ok(joined)
}

/// Runs a script, and joins it with what is written. `words` are those behind `run`.
fn transcript(alloc: Global, words: &str, script: &str) -> Result<String, Fault> {
    let words = words_of(alloc, format!(in alloc; "run{words}")?.as_str())?;
    let replies = written_by_tree(alloc, words.as_slice(), script)?;
    joined(alloc, script, replies.as_str())
}

/// Returns what `check` says of a transcript. `words` are those behind `check`.
fn verdict(alloc: Global, words: &str, transcript: &str) -> Result<String, Fault> {
    let words = words_of(alloc, format!(in alloc; "check{words}")?.as_str())?;
    written_by_tree(alloc, words.as_slice(), transcript)
}

/// Fails if the transcript of a script is not legal. Answers the transcript.
fn legal_transcript(alloc: Global, words: &str, script: &str) -> Result<String, Fault> {
    let transcript = transcript(alloc, words, script)?;
    let verdict = verdict(alloc, words, transcript.as_str())?;
    let count = script.lines().count();
    let legal = format!(in alloc; "LEGAL {count}\n")?;
    compare(alloc, legal.as_str(), verdict.as_str())?;
    Ok(transcript)
}

/// Returns the number of the first line, from 1, in which a transcript differs from another one.
fn changed_line(transcript: &str, other: &str) -> Option<usize> {
    let mut lines = transcript.lines().zip(other.lines());
    Some(lines.position(|(line, other)| line != other)? + 1)
}

/// Fails if no read of a transcript causes a fault, or if the transcript is not illegal at the first that does once they are said to
/// cause none.
fn check_changed(alloc: Global, words: &str, transcript: &str) -> Result<(), Fault> {
    let changed = transcript.replace(alloc, "< OK faults=1 ", "< OK faults=0 ")?;
    let Some(line) = changed_line(transcript, changed.as_str()) else {
        return Err(Fault::NoForm);
    };
    let verdict = verdict(alloc, words, changed.as_str())?;
    let illegal = format!(in alloc; "ILLEGAL {line}\n")?;
    compare(alloc, illegal.as_str(), verdict.as_str())
}

/// What is written for a long script of all commands, on few frames, is legal, and with changed replies it is not.
#[test]
fn mixed_commands_are_legal(rt: HostRuntime) -> Result<(), Fail> {
    let script = lines_of(rt.alloc(), FORMS, 5000)?;
    let transcript = legal_transcript(rt.alloc(), " --frames 32", script.as_str())?;
    check_changed(rt.alloc(), " --frames 32", transcript.as_str())?;
    Ok(())
}

/// A loader that maps a program.
#[test]
fn a_loader_is_legal(rt: HostRuntime) -> Result<(), Fail> {
    let script = read_text(rt.alloc(), LOADER)?;
    let _transcript = legal_transcript(rt.alloc(), "", script.lines.as_str())?;
    Ok(())
}
