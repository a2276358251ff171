//! How replies of a machine with jobs are spelled.

ghost use Rattle.std.specs.Prelude.{◌≡◌, ◌<◌, ◌≤◌, length, take, slice_get, Some, OnOk, OnErr};
ghost use Rattle.std.specs.Io.KnownBytes.{Appends};
ghost use Rattle.script_io.specs.Faults.{HasCause, IsCutOff};
ghost use Rattle.vm_model.specs.Language.Text.{ok_line, field};
ghost use Rattle.batch_model.specs.BatchLanguage.{batch_reply_lines, batch_text, left_line};

use batch_model::{BatchAnswer, BatchReply};
use line_server::push_answer;
use reply_text::{line_count, write_line};
use script_io::{Sink, push_all};
use vm_base::{Failed, TEXT_BYTES, TEXT_ROOM};
use word_text::{put, put_field};

/// Returns how many lines a reply has.
#[tactic(auto, unfolding(batch_model::specs::BatchLanguage::batch_reply_lines))]
pub fn batch_line_count(reply: &BatchReply) -> u64
    ensures { result ≡ length (batch_reply_lines reply.now) }
{
    match reply {
        BatchReply::Plain(reply) => line_count(reply),
        BatchReply::Left(_) => 1,
    }
}

/// Writes line `index` of a reply, counted from 0, with its line feed to the front of `out`, and
/// answers its length in bytes. The rest of `out` is left open.
#[tactic(auto, unfolding(batch_model::specs::BatchLanguage::batch_reply_lines))]
pub fn write_batch_line(reply: &BatchReply, index: u64, out: &mut [u8]) -> usize
    requires index { index < length (batch_reply_lines reply.now) }
    requires room { TEXT_ROOM ≤ length out.old }
    ensures line { slice_get (batch_reply_lines reply.now) index ≡ Some (take result out.new) }
    ensures len { result ≤ length out.new }
    ensures short { result < TEXT_BYTES }
{
    match reply {
        BatchReply::Plain(reply) => write_line(reply, index, out),
        BatchReply::Left(pages) => write_left(*pages, out),
    }
}

/// Writes how many pages of a job are left, as a line with its line feed, to the front of `out`, and answers its length.
fn write_left(pages: u64, out: &mut [u8]) -> usize
    requires { TEXT_ROOM ≤ length out.old }
    ensures line { take result out.new ≡ left_line pages }
    ensures len { result ≤ length out.new }
    ensures short { result < TEXT_BYTES }
{
    let end = put(b"OK", out, 0);
    let end = put_field(b" left=", pages, out, end);
    put(b"\n", out, end)
}

/// Pushes the text of an answer, line by line, through a buffer of at least `TEXT_ROOM` bytes. `Failed`
/// if the sink failed, and then it took a front part of the text.
#[inline(always)]
#[tactic(auto, unfolding(batch_model::specs::BatchLanguage::batch_text, batch_model::specs::BatchLanguage::batch_reply_lines, vm_model::specs::Language::Text::text))]
pub fn push_batch_answer<K: Sink>(
    sink: &mut K,
    answer: &BatchAnswer<'_>,
    buffer: &mut [u8],
) -> Result<(), Failed>
    requires { TEXT_ROOM ≤ length buffer.old }
    ensures ok { OnOk result (Appends (K.contents sink.old) (K.contents sink.new) (batch_text answer.now)) }
    ensures err { OnErr result (IsCutOff (K.contents sink.old) (K.contents sink.new) (batch_text answer.now)) }
    ensures cause { HasCause (K.faults sink.old) (K.faults sink.new) result }
{
    match answer {
        BatchAnswer::Plain(answer) => push_answer(sink, answer, buffer),
        BatchAnswer::Left(pages) => {
            let len = write_left(*pages, buffer);
            push_all(sink, &buffer[..len])
        }
    }
}
