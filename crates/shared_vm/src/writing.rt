//! Writing the text of a journal.

ghost use Rattle.std.specs.Prelude.{◌≡◌, ◌≤◌, ◌++◌, length, OnOk, OnErr};
ghost use Rattle.std.specs.Io.KnownBytes.{Appends};
ghost use Rattle.script_io.specs.Faults.{HasCause, IsCutOff};
ghost use Rattle.shared_vm.specs.Texts.{actor_text, deed_text, journal_text};
ghost use Rattle.shared_vm.specs.inside.Noting.{deed_of};
ghost use Rattle.shared_vm.specs.inside.Pending.{PassesOn};

use crate::notes::Notes;
use crate::pending::{PENDING_BYTES, PendingText};
use reply_text::{answer_line_count, write_answer_line};
use script_io::Sink;
use vm_base::{Failed, TEXT_ROOM};
use vm_model::Answer;

/// Returns an actor's name and a space.
fn actor_text(actor: u32) -> &'static [u8]
    ensures text { result.now ≡ actor_text actor }
    ensures short { length result.now ≤ 3 }
{
    match actor {
        0 => b"a0 ",
        1 => b"a1 ",
        2 => b"a2 ",
        _ => b"a3 ",
    }
}

/// Adds a line of a deed, behind its actor's name, to the text that waits for a sink. `Failed` if the sink failed.
fn add_line<K: Sink>(
    sink: &mut K,
    actor: u32,
    line: &[u8],
    pending: &mut PendingText,
) -> Result<(), Failed>
    requires { length line.now ≤ PENDING_BYTES }
    ensures ok { OnOk result (PassesOn (K.contents sink.old) pending.old (actor_text actor ++ line.now)
        (K.contents sink.new) pending.new) }
    ensures err { OnErr result (IsCutOff (K.contents sink.old) (K.contents sink.new)
        (pending.old ++ (actor_text actor ++ line.now))) }
    ensures cause { HasCause (K.faults sink.old) (K.faults sink.new) result }
{
    pending.add(sink, actor_text(actor))?;
    pending.add(sink, line)
}

/// Adds the text of a deed, line by line, to the text that waits for a sink. `Failed` if the sink failed.
pub(crate) fn add_deed<K: Sink>(
    sink: &mut K,
    actor: u32,
    answer: &Answer<'_>,
    line: &mut [u8],
    pending: &mut PendingText,
) -> Result<(), Failed>
    requires { TEXT_ROOM ≤ length line.old }
    ensures ok { OnOk result (PassesOn (K.contents sink.old) pending.old (deed_text (deed_of actor answer.now))
        (K.contents sink.new) pending.new) }
    ensures err { OnErr result (IsCutOff (K.contents sink.old) (K.contents sink.new)
        (pending.old ++ deed_text (deed_of actor answer.now))) }
    ensures cause { HasCause (K.faults sink.old) (K.faults sink.new) result }
{
    for index in 0..answer_line_count(answer) {
        let len = write_answer_line(answer, index, line);
        add_line(sink, actor, &line[..len], pending)?;
    }
    Ok(())
}

/// Pushes the text of a journal: the lines of the replies, each behind its actor's name and a space. `Failed` if the sink
/// failed. It then took a front part of the text, and not all of it.
pub(crate) fn push_journal<K: Sink>(sink: &mut K, notes: &Notes) -> Result<(), Failed>
    ensures ok { OnOk result (Appends (K.contents sink.old) (K.contents sink.new) (journal_text notes.now.deeds)) }
    ensures err { OnErr result (IsCutOff (K.contents sink.old) (K.contents sink.new) (journal_text notes.now.deeds)) }
    ensures cause { HasCause (K.faults sink.old) (K.faults sink.new) result }
{
    let mut line = [0; TEXT_ROOM];
    let mut pending = PendingText::new();
    for index in 0..notes.len() {
        notes.add_text(index, sink, &mut line, &mut pending)?;
    }
    pending.flush(sink)
}
