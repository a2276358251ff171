//! Writing replies to a sink.

ghost use Rattle.std.specs.Prelude.{◌≤◌, length, OnOk, OnErr};
ghost use Rattle.std.specs.Io.KnownBytes.{Appends};
ghost use Rattle.script_io.specs.Faults.{HasCause, IsCutOff};
ghost use Rattle.vm_model.specs.Language.Text.{text};
ghost use Rattle.line_server.specs.Answering.{syntax_text};

use reply_text::{answer_line_count, write_answer_line};
use script_io::{Sink, push_all};
use vm_base::{Failed, TEXT_ROOM};
use vm_model::Answer;

/// Pushes the text of an answer, line by line, through a buffer of at least `TEXT_ROOM` bytes. `Failed` if the sink failed, and
/// then it took a front part of the text, and not all of it.
#[inline(always)]
pub fn push_answer<K: Sink>(
    sink: &mut K,
    answer: &Answer<'_>,
    buffer: &mut [u8],
) -> Result<(), Failed>
    requires { TEXT_ROOM ≤ length buffer.old }
    ensures ok { OnOk result (Appends (K.contents sink.old) (K.contents sink.new) (text answer.now)) }
    ensures err { OnErr result (IsCutOff (K.contents sink.old) (K.contents sink.new) (text answer.now)) }
    ensures cause { HasCause (K.faults sink.old) (K.faults sink.new) result }
{
    // Nearly all answers have one line.
    let first = write_answer_line(answer, 0, buffer);
    push_all(sink, &buffer[..first])?;
    for index in 1..answer_line_count(answer) {
        let len = write_answer_line(answer, index, buffer);
        push_all(sink, &buffer[..len])?;
    }
    Ok(())
}

/// Pushes the answer to a line that is outside the grammar, `SYNTAX` and a line feed. `Failed` if the sink failed, and then it took a
/// front part of the text, and not all of it. It is not inlined, since such lines are rare.
#[inline(never)]
pub fn push_syntax<K: Sink>(sink: &mut K) -> Result<(), Failed>
    ensures ok { OnOk result (Appends (K.contents sink.old) (K.contents sink.new) syntax_text) }
    ensures err { OnErr result (IsCutOff (K.contents sink.old) (K.contents sink.new) syntax_text) }
    ensures cause { HasCause (K.faults sink.old) (K.faults sink.new) result }
{
    push_all(sink, b"SYNTAX\n")
}
