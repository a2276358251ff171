//! What one line says to a machine with jobs.

ghost use Rattle.std.specs.Prelude.{◌≡◌, ◌≤◌, length, nat_lt, None, if◌then◌else◌};
ghost use Rattle.vm_base.specs.declared.limits.TheConstants.{DATA_BYTES, LINE_BYTES};
ghost use Rattle.vm_model.specs.Language.Reading.{words};
ghost use Rattle.batch_model.specs.BatchLanguage.{batch_reading, job_order};
ghost use Rattle.batch_vm.specs.BatchLines.{batch_reading_of, batch_reading_of_call};
ghost use Rattle.batch_vm.specs.Places.{begin_at, step_at, drop_at, order_at};

use crate::words::{has_more, job_kind_at, job_name_at, number_at, vmo_at, word};
use batch_model::{BatchCall, BatchCommand};
use script_text::{SyntaxFault, read_call};
use vm_base::{DATA_BYTES, LINE_BYTES};

/// The meaning of a line to a machine with jobs.
#[derive(Drop)]
pub enum BatchLine {
    /// Nothing: it has no word, or it is a comment, whose first word begins with `#`.
    Blank,
    /// A command.
    Order(BatchCommand),
}

/// Reads one line, without its line feed: a line of the machine, `begin JOB KIND VMO OFFSET LEN`, `step JOB PAGES` or `drop JOB`.
/// `SyntaxFault` if it has more than `LINE_BYTES` bytes, or if it is not blank, no comment and no command.
pub fn read_batch_line(line: &[u8]) -> Result<BatchLine, SyntaxFault>
    ensures { batch_reading_of result ≡ batch_reading line.now }
{
    let mut room = [0; DATA_BYTES];
    match read_batch_call(line, &mut room)? {
        Some(call) => Ok(BatchLine::Order(call.to_owned())),
        None => Ok(BatchLine::Blank),
    }
}

/// Reads one line as `read_batch_line` does: `None` if it says nothing, and else the command, whose byte data is decoded to
/// the front of `room` and lent from there. `room` has at least `DATA_BYTES` bytes.
#[tactic(auto, unfolding(batch_model::specs::BatchLanguage::batch_reading))]
pub fn read_batch_call<'a>(
    line: &[u8],
    room: &'a mut [u8],
) -> Result<Option<BatchCall<'a>>, SyntaxFault>
    requires { DATA_BYTES ≤ length room.old }
    ensures { batch_reading_of_call result ≡ batch_reading line.now }
{
    match read_call(line, room) {
        Ok(None) => Ok(None),
        Ok(Some(call)) => Ok(Some(BatchCall::Plain(call))),
        Err(_) => match job_call(line) {
            Some(call) => Ok(Some(call)),
            None => Err(SyntaxFault),
        },
    }
}

/// Returns the command on jobs that a line is, or `None` if it is none.
fn job_call<'a>(line: &[u8]) -> Option<BatchCall<'a>>
    ensures { result ≡ (if nat_lt LINE_BYTES (length line.now) then None else job_order (words line.now)) }
{
    if line.len() > LINE_BYTES {
        return None;
    }
    call_of_words(line)
}

/// Returns the same of a line of any length.
fn call_of_words<'a>(line: &[u8]) -> Option<BatchCall<'a>>
    ensures { result ≡ order_at (words line.now) }
{
    let verb = word(line, 0)?;
    if verb == b"begin".as_slice() {
        begin_call(line)
    } else if verb == b"step".as_slice() {
        step_call(line)
    } else if verb == b"drop".as_slice() {
        drop_call(line)
    } else {
        None
    }
}

/// Reads `begin JOB KIND VMO OFFSET LEN`, behind its first word.
fn begin_call<'a>(line: &[u8]) -> Option<BatchCall<'a>>
    ensures { result ≡ begin_at (words line.now) }
{
    let job = job_name_at(line, 1)?;
    let kind = job_kind_at(line, 2)?;
    let name = vmo_at(line, 3)?;
    let offset = number_at(line, 4)?;
    let len = number_at(line, 5)?;
    if has_more(line, 6) {
        return None;
    }
    Some(BatchCall::Begin {
        job,
        kind,
        name,
        offset,
        len,
    })
}

/// Reads `step JOB PAGES`, behind its first word.
fn step_call<'a>(line: &[u8]) -> Option<BatchCall<'a>>
    ensures { result ≡ step_at (words line.now) }
{
    let job = job_name_at(line, 1)?;
    let pages = number_at(line, 2)?;
    if has_more(line, 3) {
        return None;
    }
    Some(BatchCall::Step { job, pages })
}

/// Reads `drop JOB`, behind its first word.
fn drop_call<'a>(line: &[u8]) -> Option<BatchCall<'a>>
    ensures { result ≡ drop_at (words line.now) }
{
    let job = job_name_at(line, 1)?;
    if has_more(line, 2) {
        return None;
    }
    Some(BatchCall::Drop { job })
}
