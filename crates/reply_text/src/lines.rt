//! Which lines a reply has.

ghost use Rattle.std.specs.Prelude.{◌≡◌, ◌+◌, ◌<◌, ◌≤◌, ◌++◌, length, take, drop, map, codes};
ghost use Rattle.std.specs.Prelude.{slice_get, MatchResult};
ghost use Rattle.vm_model.specs.Language.Text.{reply_lines, run_line, refusal_name};
ghost use Rattle.vm_model.specs.declared.reply.Reply.TheVariants as Reply;

use crate::parts::{put_access, put_address, put_info, put_numbers, put_run, put_stat};
use vm_base::{Refusal, TEXT_BYTES, TEXT_ROOM};
use vm_model::{Answer, Reply, Run};
use word_text::{put, put_data, put_field, put_number};

/// Returns how many lines a reply has.
#[tactic(auto, unfolding(vm_model::specs::Language::Text::reply_lines))]
pub fn line_count(reply: &Reply) -> u64
    ensures { result ≡ length (reply_lines reply.now) }
{
    match lend(reply) {
        Ok(answer) => answer_line_count(&answer),
        Err(runs) => runs.len() as u64 + 1,
    }
}

/// Writes line `index` of a reply, counted from 0, with its line feed, to the front of `out`, and answers its length in
/// bytes. No clause speaks of the rest of `out`.
#[tactic(auto, unfolding(vm_model::specs::Language::Text::reply_lines))]
pub fn write_line(reply: &Reply, index: u64, out: &mut [u8]) -> usize
    requires index { index < length (reply_lines reply.now) }
    requires room { TEXT_ROOM ≤ length out.old }
    ensures line { slice_get (reply_lines reply.now) index ≡ Some (take result out.new) }
    ensures len { result ≤ length out.new }
    ensures short { result < TEXT_BYTES }
{
    match lend(reply) {
        Ok(answer) => write_answer_line(&answer, index, out),
        Err(runs) if index > 0 => put_run(&runs[index as usize - 1], out, 0),
        // The first line of runs is the one with their number.
        Err(runs) => write_answer_line(&Answer::Number(runs.len() as u64), 0, out),
    }
}

/// Returns a reply as an answer. If the reply owns runs, which no answer borrows, these runs.
fn lend(reply: &Reply) -> Result<Answer<'_>, &[Run]>
    ensures { MatchResult result (λ answer. answer ≡ reply.now)
        (λ runs. reply.now ≡ Reply.Runs runs.now) }
{
    Ok(match reply {
        Reply::Done => Answer::Done,
        Reply::Number(number) => Answer::Number(*number),
        Reply::Bytes(bytes) => Answer::Bytes(bytes.lend()),
        Reply::Pins(numbers) => Answer::Pins(numbers.lend()),
        Reply::Address(address) => Answer::Address(*address),
        Reply::Access { faults, bytes } => Answer::Access {
            faults: *faults,
            bytes: bytes.lend(),
        },
        Reply::Faults(faults) => Answer::Faults(*faults),
        Reply::Info(info) => Answer::Info(*info),
        Reply::Runs(runs) => return Err(runs.as_slice()),
        Reply::Stat(stat) => Answer::Stat(*stat),
        Reply::Refused(refusal) => Answer::Refused(*refusal),
    })
}

/// Returns how many lines an answer has.
pub fn answer_line_count(answer: &Answer<'_>) -> u64
    ensures { result ≡ length (reply_lines answer.now) }
{
    runs_of(answer).len() as u64 + 1
}

/// Writes line `index` of an answer, as `write_line` does that of a reply.
#[inline(always)]
pub fn write_answer_line(answer: &Answer<'_>, index: u64, out: &mut [u8]) -> usize
    requires index { index < length (reply_lines answer.now) }
    requires room { TEXT_ROOM ≤ length out.old }
    ensures line { slice_get (reply_lines answer.now) index ≡ Some (take result out.new) }
    ensures len { result ≤ length out.new }
    ensures short { result < TEXT_BYTES }
{
    if index == 0 {
        let end = put_first_line(answer, out);
        return put(b"\n", out, end);
    }
    put_run(&runs_of(answer)[index as usize - 1], out, 0)
}

/// Returns the runs of an answer. Each has a line behind the first line. Only `Runs` has any.
#[tactic(auto, unfolding(vm_model::specs::Language::Text::reply_lines))]
fn runs_of<'b>(answer: &'b Answer<'_>) -> &'b [Run]
    ensures count { length (reply_lines answer.now) ≡ length result.now + 1 }
    ensures lines { drop 1 (reply_lines answer.now) ≡ map run_line result.now }
{
    match answer {
        Answer::Runs(runs) => runs.as_slice(),
        Answer::Done
        | Answer::Number(_)
        | Answer::Bytes(_)
        | Answer::Pins(_)
        | Answer::Address(_)
        | Answer::Access { .. }
        | Answer::Faults(_)
        | Answer::Info(_)
        | Answer::Stat(_)
        | Answer::Refused(_) => &[],
    }
}

/// Writes the first line of an answer, without its line feed, and answers where it ends.
#[tactic(auto, unfolding(vm_model::specs::Language::Text::reply_lines))]
fn put_first_line(answer: &Answer<'_>, out: &mut [u8]) -> usize
    requires { TEXT_ROOM ≤ length out.old }
    ensures line { slice_get (reply_lines answer.now) 0 ≡ Some (take result out.new ++ codes "\n") }
    ensures short { result + 1 < TEXT_BYTES }
{
    let ok = put(b"OK", out, 0);
    match answer {
        Answer::Done => ok,
        Answer::Number(number) => put_number(*number, out, ok),
        Answer::Bytes(bytes) => put_data(bytes.as_slice(), out, ok),
        Answer::Pins(numbers) => put_numbers(numbers.as_slice(), out, ok),
        Answer::Address(address) => put_address(*address, out, ok),
        Answer::Access { faults, bytes } => put_access(*faults, bytes.as_slice(), out, ok),
        Answer::Faults(faults) => put_field(b" faults=", *faults, out, ok),
        Answer::Info(info) => put_info(info, out, ok),
        Answer::Runs(runs) => put_number(runs.as_slice().len() as u64, out, ok),
        Answer::Stat(stat) => put_stat(stat, out, ok),
        Answer::Refused(refusal) => put(name_of(*refusal), out, 0),
    }
}

/// Returns a refusal's name.
fn name_of(refusal: Refusal) -> &'static [u8]
    ensures name { result.now ≡ refusal_name refusal }
    ensures short { length result.now < 100 }
{
    match refusal {
        Refusal::Syntax => b"SYNTAX",
        Refusal::BadHandle => b"BAD_HANDLE",
        Refusal::NameInUse => b"NAME_IN_USE",
        Refusal::BadState => b"BAD_STATE",
        Refusal::AccessDenied => b"ACCESS_DENIED",
        Refusal::InvalidArgs => b"INVALID_ARGS",
        Refusal::NotSupported => b"NOT_SUPPORTED",
        Refusal::Unavailable => b"UNAVAILABLE",
        Refusal::OutOfRange => b"OUT_OF_RANGE",
        Refusal::BufferTooSmall => b"BUFFER_TOO_SMALL",
        Refusal::NotFound => b"NOT_FOUND",
        Refusal::AlreadyExists => b"ALREADY_EXISTS",
        Refusal::NoResources => b"NO_RESOURCES",
        Refusal::NoMemory => b"NO_MEMORY",
        Refusal::HostMemory => b"HOST_MEMORY",
    }
}
