//! Answering one line of a script on a machine with jobs.

ghost use Rattle.std.specs.Prelude.{◌+◌, ◌≤◌, ◌<◌};
ghost use Rattle.script_io.specs.Faults.{HasCause};
ghost use Rattle.line_server.specs.Outcome.{AnswersLine};
ghost use Rattle.batch_model.specs.Batch.{IsGoodBatch};
ghost use Rattle.batch_vm.specs.Batch.{batch_of, AgreesBatch};
ghost use Rattle.batch_vm.specs.BatchAnswering.{batch_rules};

use crate::batch::Batch;
use crate::reading::read_batch_call;
use crate::writing::push_batch_answer;
use line_server::{Interpreter, push_syntax};
use page_store::PageStore;
use script_io::Sink;
use std::alloc::Global;
use std::marker::Model;
use vm_base::{DATA_BYTES, Failed, KOIDS, PIN_PAGES, TEXT_ROOM};

/// Room for the data of one line, made once for a whole script, so that no command and no reply moves its own. Each line
/// overwrites what it uses.
#[derive(Drop)]
struct LineRoom {
    /// The bytes that a command writes.
    written: [u8; DATA_BYTES],
    /// The bytes that a command reads.
    read: [u8; DATA_BYTES],
    /// The frames of the pages that a command pins.
    pinned: [u64; PIN_PAGES],
    /// A line of a reply.
    reply: [u8; TEXT_ROOM],
}

/// A machine with jobs that answers the lines of a script, and the room for the data of a line. Clauses see the parts of the machine and
/// the jobs.
#[derive(Drop)]
pub struct BatchInterpreter {
    batch: Batch,
    room: LineRoom,
}

impl Model for BatchInterpreter {
    ghost use Rattle.batch_vm.specs.Batch.{BatchParts};

    ghost Value = { BatchParts };

    ghost view = { λ x. x.batch };
}

impl BatchInterpreter {
    ghost use Rattle.std.specs.Prelude.{◌≡◌, ℕ};
    ghost use Rattle.vm_model.specs.Contents.Content.{nothing};
    ghost use Rattle.batch_model.specs.Batch.{empty_batch};

    /// Makes a machine with no jobs and nothing else. Over a store with nothing but page frames it is the empty machine with jobs, which
    /// is good.
    pub fn new(alloc: Global) -> BatchInterpreter
        ensures agrees { (frames : ℕ) → AgreesBatch (record nothing { frames = frames }) result }
        ensures empty { (frames : ℕ) → batch_of (record nothing { frames = frames }) result ≡ empty_batch frames }
        ensures good { (frames : ℕ) → IsGoodBatch (empty_batch frames) }
    {
        BatchInterpreter {
            batch: Batch::new(alloc),
            room: LineRoom {
                written: [0; DATA_BYTES],
                read: [0; DATA_BYTES],
                pinned: [0; PIN_PAGES],
                reply: [0; TEXT_ROOM],
            },
        }
    }
}

impl<P: PageStore> Interpreter<P> for BatchInterpreter {
    ghost use Rattle.std.specs.Prelude.{refl};
    ghost use Rattle.batch_model.specs.Batch.{BatchState};
    ghost use Rattle.batch_vm.specs.BatchAnswering.{GivesBatch-long};

    ghost State = { BatchState };

    ghost rules = { batch_rules };

    ghost state = { λ x c. batch_of c x };

    ghost Agrees = { λ x c. AgreesBatch c x };

    fn answer_line<K: Sink>(
        &mut self,
        store: &mut P,
        sink: &mut K,
        line: &[u8],
    ) -> Result<(), Failed> {
        answer_line(store, &mut self.batch, sink, &mut self.room, line)
    }

    ghost holds = { λ x c. refl };

    ghost long = { GivesBatch-long };
}

/// Answers one line. `Failed` if the sink failed; the line was done all the same.
#[inline(always)]
fn answer_line<P: PageStore, K: Sink>(
    store: &mut P,
    batch: &mut Batch,
    sink: &mut K,
    room: &mut LineRoom,
    line: &[u8],
) -> Result<(), Failed>
    requires agrees { AgreesBatch (P.content store.old) batch.old }
    requires next { (P.content store.old).next < KOIDS }
    ensures answer { AnswersLine batch_rules line.now (batch_of (P.content store.old) batch.old)
        (batch_of (P.content store.new) batch.new) (K.contents sink.old) (K.contents sink.new) result }
    ensures agrees { AgreesBatch (P.content store.new) batch.new }
    ensures good { IsGoodBatch (batch_of (P.content store.new) batch.new) }
    ensures next { (P.content store.new).next ≤ (P.content store.old).next + 1 }
    ensures cause { HasCause (K.faults sink.old) (K.faults sink.new) result }
{
    match read_batch_call(line, &mut room.written) {
        Ok(None) => Ok(()),
        Ok(Some(call)) => {
            let answer = batch.answer(store, &call, &mut room.read, &mut room.pinned);
            push_batch_answer(sink, &answer, &mut room.reply)
        }
        Err(_) => push_syntax(sink),
    }
}
