//! The check of a transcript, from the bytes of a source to the bytes of a sink.

ghost use Rattle.std.specs.Prelude.{◌≡◌, ◌≢◌, ◌↔◌, ◌⊎◌, ◌≤◌, ℕ, List, [], Option, None, codes, IfSome};
ghost use Rattle.script_io.specs.Faults.{HasFailed};
ghost use Rattle.vm_base.specs.declared.limits.TheConstants.{FRAMES, SCRIPT_BYTES};
ghost use Rattle.line_server.specs.Words.{frames_asked};
ghost use Rattle.line_server.specs.Outcome.{Completes};
ghost use Rattle.line_server.specs.Serving.{fresh};
ghost use Rattle.transcript.specs.Reports.{CheckEndsAs, IsChecked};
ghost use Rattle.script_io.specs.Ending.{status_of_writing};

use crate::reports::{Check, REPORT_BYTES, write_report};
use line_server::{Turn, frames_asked, read_lines};
use script_io::{Lines, Sink, Source, Status, push_all};
use std::alloc::Global;
use vm_base::{Failed, HostMemory, SCRIPT_BYTES};

/// A check reads each line of a transcript.
struct Reading;

impl Turn<Check, (), (), HostMemory> for Reading {
    ghost use Rattle.std.specs.Prelude.{ℕ, List, ◌+◌};
    ghost use Rattle.vm_base.specs.declared.limits.TheConstants.{SCRIPT_BYTES};
    ghost use Rattle.transcript.specs.declared.reports.Check.{Check};
    ghost use Rattle.transcript.specs.Reports.{IsChecked, checking};

    ghost State = { Check };

    ghost turns = { checking };

    ghost state = { λ check store sink. check };

    ghost Holds = { λ check store. (frames : ℕ) × (lines : List (List ℕ)) × IsChecked frames check lines };

    ghost count = { λ check store. check.lines + 1 };

    ghost most = { SCRIPT_BYTES };

    fn take(
        check: &mut Check,
        _store: &mut (),
        _sink: &mut (),
        line: &[u8],
    ) -> Result<(), HostMemory> {
        check.read(line)
    }

    fn pass(check: &mut Check, _store: &mut (), _sink: &mut ()) -> Result<(), HostMemory> {
        check.pass();
        Ok(())
    }
}

/// Returns the status of a check whose report was written, or not.
fn status_of(pushed: Result<(), Failed>) -> Status
    ensures { result ≡ status_of_writing pushed }
{
    match pushed {
        Ok(()) => Status::Done,
        Err(_) => Status::WriteFault,
    }
}

/// Checks a transcript on a machine with `frames` page frames.
fn check_on<S: Source, K: Sink>(alloc: Global, frames: u32, source: &mut S, sink: &mut K) -> Status
    requires { 1 ≤ frames × frames ≤ FRAMES }
    ensures ends { CheckEndsAs result frames (S.remaining source.old) (S.remaining source.new) (K.contents sink.old) (K.contents sink.new) }
    ensures read_cause { result ≡ Status.ReadFault → HasFailed (S.faults source.old) (S.faults source.new) }
    ensures write_cause { result ≡ Status.WriteFault → HasFailed (K.faults sink.old) (K.faults sink.new) }
    ensures unwritten { result ≢ Status.Done → result ≢ Status.WriteFault → sink.new ≡ sink.old }
{
    let Ok(mut lines) = Lines::new(alloc, SCRIPT_BYTES) else {
        return Status::HostMemory;
    };
    let mut check = Check::new(alloc, frames);
    let status = read_and_report(&mut check, &mut lines, source, sink);
    // By one call: at the end of the body its tables would be let go, and that proved, one by one.
    drop(check);
    status
}

/// Reads a transcript to its end and writes the report of it.
fn read_and_report<S: Source, K: Sink>(
    check: &mut Check,
    lines: &mut Lines,
    source: &mut S,
    sink: &mut K,
) -> Status
    requires fresh { lines.old ≡ fresh SCRIPT_BYTES }
    requires none { check.old.lines ≡ 0 }
    requires checked { (frames : ℕ) × IsChecked frames check.old [] }
    ensures ends { (frames : ℕ) → IsChecked frames check.old []
        → CheckEndsAs result frames (S.remaining source.old) (S.remaining source.new) (K.contents sink.old) (K.contents sink.new) }
    ensures read_cause { result ≡ Status.ReadFault → HasFailed (S.faults source.old) (S.faults source.new) }
    ensures write_cause { result ≡ Status.WriteFault → HasFailed (K.faults sink.old) (K.faults sink.new) }
    ensures unwritten { result ≢ Status.Done → result ≢ Status.WriteFault → sink.new ≡ sink.old }
{
    let (mut store, mut unused) = ((), ());
    let read = read_lines::<Reading, Check, (), (), HostMemory, S>(
        lines,
        check,
        &mut store,
        source,
        &mut unused,
    );
    let Ok(status) = read else {
        return Status::HostMemory;
    };
    match status {
        Status::Done => push_report(check, sink),
        status => status,
    }
}

/// Writes the report of a check. `Done`, or `WriteFault` if the sink fails.
fn push_report<K: Sink>(check: &Check, sink: &mut K) -> Status
    requires { check.now.lines ≤ SCRIPT_BYTES }
    ensures ends { (frames : ℕ) (source_old source_new : Option (List ℕ)) → Completes (IsChecked frames check.now) SCRIPT_BYTES source_old source_new
        → CheckEndsAs result frames source_old source_new (K.contents sink.old) (K.contents sink.new) }
    ensures no_read { result ≢ Status.ReadFault }
    ensures either { (result ≡ Status.Done) ⊎ (result ≡ Status.WriteFault) }
    ensures cause { result ≡ Status.WriteFault → HasFailed (K.faults sink.old) (K.faults sink.new) }
{
    let mut room = [0; REPORT_BYTES];
    let len = write_report(check.report(), &mut room);
    status_of(push_all(sink, &room[..len]))
}

/// Checks a transcript: `check`, and behind it nothing or `--frames N`. The machine has 1,024 page frames, or as many as N says
/// with one to five digits, from 1 to 65,536.
///
/// The transcript, of at most `SCRIPT_BYTES` bytes, is read to its end line by line. Each line is `> ` and a line of a script, or
/// `< ` and a line of a reply. Then one line is written. `LEGAL n` if the lines are a whole transcript, with n the number of lines
/// of the script. `ILLEGAL k` or `MALFORMED k` with the number of the first line, from 1, of which `Checker::feed` says so;
/// `ILLEGAL k` with the number of lines plus 1 if the lines end while a reply line is missing.
///
/// The memory grows with what the machine holds at one time and with the regions that are made, and nothing else stays of a line
/// (`Checker`).
///
/// `HostMemory` if the host has too little memory, `ReadFault` if the source fails, and `ScriptLimit` if it gives more than
/// `SCRIPT_BYTES` bytes: nothing was written. `WriteFault` if the sink fails. `Usage` for other words, and nothing is touched.
pub fn run_check<S: Source, K: Sink>(
    alloc: Global,
    words: &[String],
    source: &mut S,
    sink: &mut K,
) -> Status
    // What each status says of the bytes that the source gave and the bytes that the sink took.
    ensures ends { IfSome (frames_asked (codes "check") words.now) (λ frames.
        CheckEndsAs result frames (S.remaining source.old) (S.remaining source.new) (K.contents sink.old) (K.contents sink.new)) }

    // A fault is answered only if the source or the sink failed.
    ensures read_cause { result ≡ Status.ReadFault → HasFailed (S.faults source.old) (S.faults source.new) }
    ensures write_cause { result ≡ Status.WriteFault → HasFailed (K.faults sink.old) (K.faults sink.new) }

    // Nothing is written but the report.
    ensures unwritten { result ≢ Status.Done → result ≢ Status.WriteFault → sink.new ≡ sink.old }

    // Other words are refused, and nothing is touched.
    ensures usage { (result ≡ Status.Usage) ↔ (frames_asked (codes "check") words.now ≡ None) }
    ensures untouched { result ≡ Status.Usage → (source.new ≡ source.old) × (sink.new ≡ sink.old) }
{
    match frames_asked(b"check", words) {
        Some(frames) => check_on(alloc, frames, source, sink),
        None => Status::Usage,
    }
}
