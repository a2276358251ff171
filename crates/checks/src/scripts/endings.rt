//! Runs that end early: sources and sinks that fail, and scripts that are longer than their limit. How a run ends is
//! told by its status and the bytes that were written, with `|` for a line feed.

use super::accesses::LOADER;
use super::reading::{read_text, words_of};
use super::runs::{Pieces, Way, compare, run_both};
use super::text_fault::Fault;
use std::alloc::Global;
use std::test::Fail;
use vm_session::Status;

/// A call that does not come.
const NEVER: u64 = 99;

/// The pieces in which the bytes come and go.
const PIECES: Pieces = Pieces {
    pulled: 7,
    pushed: 4,
};

/// Fails if a run does not end as told: by its status and, behind a blank, the bytes that were written.
fn check_end(alloc: Global, way: Way<'_>, script: &str, wanted: &str) -> Result<(), Fault> {
    let (end, _) = run_both(alloc, way, script.as_bytes())?;
    let (status, written) = (end.status, end.written.replace(alloc, '\n', "|")?);
    let told = if written.is_empty() {
        format!(in alloc; "{status:?}")?
    } else {
        format!(in alloc; "{status:?} {written}")?
    };
    compare(alloc, wanted, told.as_str())
}

/// Returns the numbers of the pull and of the push that fail, told as `pull N`, `push N` or `none`.
fn failing_calls(call: &str) -> Option<(u64, u64)> {
    match call.split_once(' ') {
        Some(("pull", number)) => Some((number.parse::<u64>().ok()?, NEVER)),
        Some(("push", number)) => Some((NEVER, number.parse::<u64>().ok()?)),
        _ if call == "none" => Some((NEVER, NEVER)),
        _ => None,
    }
}

/// Checks how the run of a script ends if a call fails, told as `CALL: END`.
fn check_failing(alloc: Global, words: &[String], script: &str, line: &str) -> Result<(), Fault> {
    let Some((call, end)) = line.split_once(": ") else {
        return Err(Fault::NoForm);
    };
    let Some((pull, push)) = failing_calls(call) else {
        return Err(Fault::NoForm);
    };
    let way = Way::Failing {
        words,
        pieces: PIECES,
        pull,
        push,
    };
    check_end(alloc, way, script, end)
}

/// Checks how the run of a script ends, with a line for each call that fails.
fn check_ends(alloc: Global, words: &str, script: &str, ends: &str) -> Result<(), Fail> {
    let words = words_of(alloc, words)?;
    for line in ends.lines() {
        check_failing(alloc, words.as_slice(), script, line)?;
    }
    Ok(())
}

/// The lines have 19, 23 and 19 bytes, so that they end in the pulls 3, 6 and 9, and pull 10 finds the end. Their
/// replies have 3, 3 and 14 bytes, which take six pushes.
#[test]
fn each_pull_and_push_may_fail(rt: HostRuntime) -> Result<(), Fail> {
    check_ends(
        rt.alloc(),
        "run",
        "vmo_create v1 8192\nvmo_write v1 4094 aabb\nvmo_read v1 4093 5\n",
        "\
pull 1: ReadFault
pull 2: ReadFault
pull 3: ReadFault
pull 4: ReadFault OK|
pull 5: ReadFault OK|
pull 6: ReadFault OK|
pull 7: ReadFault OK|OK|
pull 8: ReadFault OK|OK|
pull 9: ReadFault OK|OK|
pull 10: ReadFault OK|OK|OK 00aabb0000|
push 1: WriteFault
push 2: WriteFault OK|
push 3: WriteFault OK|OK|
push 4: WriteFault OK|OK|OK 0
push 5: WriteFault OK|OK|OK 00aab
push 6: WriteFault OK|OK|OK 00aabb000
none: Done OK|OK|OK 00aabb0000|
",
    )
}

/// The same of a script of page sources. Its lines have 26, 19 and 16 bytes, so that they end in the pulls 4, 7 and 9. Their replies
/// have 3, 8 and 3 bytes, which take four pushes.
#[test]
fn each_pull_and_push_of_sources_may_fail(rt: HostRuntime) -> Result<(), Fail> {
    check_ends(
        rt.alloc(),
        "sources",
        "source_create v1 8192 1 7\nvmo_read v1 4095 2\nevict v1 0 8192\n",
        "\
pull 1: ReadFault
pull 2: ReadFault
pull 3: ReadFault
pull 4: ReadFault
pull 5: ReadFault OK|
pull 6: ReadFault OK|
pull 7: ReadFault OK|
pull 8: ReadFault OK|OK 0607|
pull 9: ReadFault OK|OK 0607|
pull 10: ReadFault OK|OK 0607|OK|
push 1: WriteFault
push 2: WriteFault OK|
push 3: WriteFault OK|OK 0
push 4: WriteFault OK|OK 0607|
none: Done OK|OK 0607|OK|
",
    )
}

/// The number 0 is that of no call.
#[test]
fn a_script_comes_and_goes_byte_by_byte(rt: HostRuntime) -> Result<(), Fail> {
    let script = read_text(rt.alloc(), LOADER)?;
    let way = Way::Failing {
        words: script.words.as_slice(),
        pieces: Pieces {
            pulled: 1,
            pushed: 1,
        },
        pull: 0,
        push: 0,
    };
    let (end, _) = run_both(rt.alloc(), way, script.lines.as_bytes())?;
    assert_eq!(rt; end.status, Status::Done);
    compare(rt.alloc(), script.replies.as_str(), end.written.as_str())?;
    Ok(())
}

/// A last piece without a line feed is a line if the script ends behind it, and none if the next pull fails.
#[test]
fn a_last_piece_is_a_line_at_the_end_alone(rt: HostRuntime) -> Result<(), Fail> {
    check_ends(
        rt.alloc(),
        "run",
        "vmo_create v1 1\nvmo_size v1",
        "\
none: Done OK|OK 4096|
pull 5: ReadFault OK|
push 3: WriteFault OK|OK 4
",
    )
}

/// A workload reads nothing, so that no pull can fail.
#[test]
fn a_workload_has_one_line(rt: HostRuntime) -> Result<(), Fail> {
    let alloc = rt.alloc();
    check_ends(
        alloc,
        "work 5 0",
        "stat\n",
        "\
none: Done OK ok=0 refused=0 host=0 used=0 vmos=0|
pull 1: Done OK ok=0 refused=0 host=0 used=0 vmos=0|
push 3: WriteFault OK ok=0\x20
",
    )?;
    check_ends(
        alloc,
        "work 0 1",
        "stat\n",
        "none: Done OK ok=0 refused=1 host=0 used=0 vmos=0|",
    )
}

/// Checks how a script ends that is served, told as `SCRIPT: END`, with `|` for a line feed in the script too.
fn check_limited(alloc: Global, line: &str) -> Result<(), Fault> {
    let Some((script, end)) = line.split_once(": ") else {
        return Err(Fault::NoForm);
    };
    let script = script.replace(alloc, '|', "\n")?;
    check_end(alloc, Way::Limited, script.as_str(), end)
}

/// Scripts and how they end. A line whose line feed lies within the limit is answered, and a last piece only if the
/// script ends too.
const LIMITED: &str = "\
stat|stat|: Done OK frames=1 used=0 free=1 vmos=0|OK frames=1 used=0 free=1 vmos=0|
stat|stat|x: ScriptLimit OK frames=1 used=0 free=1 vmos=0|OK frames=1 used=0 free=1 vmos=0|
stat|stat|stat|: ScriptLimit OK frames=1 used=0 free=1 vmos=0|OK frames=1 used=0 free=1 vmos=0|
stat|# abc: Done OK frames=1 used=0 free=1 vmos=0|
stat|wrong|: ScriptLimit OK frames=1 used=0 free=1 vmos=0|
";

#[test]
fn scripts_have_a_limit(rt: HostRuntime) -> Result<(), Fail> {
    for line in LIMITED.lines() {
        check_limited(rt.alloc(), line)?;
    }
    Ok(())
}
