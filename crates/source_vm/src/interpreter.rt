//! Answering one line of a script of page sources.

ghost use Rattle.std.specs.Prelude.{◌≡◌, ◌+◌, ◌≤◌, ◌<◌, ℕ, [], ◌∷◌, map, None};
ghost use Rattle.script_io.specs.Faults.{HasCause};
ghost use Rattle.vm_model.specs.Contents.Content.{Content, IsGood};
ghost use Rattle.line_server.specs.Outcome.{AnswersLine};
ghost use Rattle.source_vm.specs.Answering.{source_rules};
ghost use Rattle.source_model.specs.State.{empty_sources};
ghost use Rattle.source_vm.specs.Table.{SourcesAgree, source_state_of};

use crate::reading::read_source_call;
use crate::source_fn::SourceFn;
use crate::vm::SourceVm;
use line_server::{Interpreter, push_answer, push_syntax};
use page_store::PageStore;
use script_io::Sink;
use std::alloc::Global;
use vm_base::{DATA_BYTES, Failed, KOIDS, TEXT_ROOM};

/// Room for the data of one line, made once for a whole script, so that no command and no reply moves its own. Each line
/// overwrites what it uses.
#[derive(Drop)]
struct LineRoom {
    /// The bytes that a command writes.
    written: [u8; DATA_BYTES],
    /// The bytes that a command reads.
    read: [u8; DATA_BYTES],
    /// A line of a reply.
    reply: [u8; TEXT_ROOM],
}

/// A machine of page sources, and the room for the data of a line that it answers.
#[derive(Drop)]
pub(crate) struct SourceInterpreter {
    vm: SourceVm,
    room: LineRoom,
}

/// Makes an interpreter whose machine has no names and no VMOs.
pub(crate) fn new_interpreter(alloc: Global, functions: [SourceFn; 3]) -> SourceInterpreter
    requires kinds { map (λ f. f.kind) functions ≡ 0 ∷ 1 ∷ 2 ∷ [] }
    ensures empty { (c : Content) → IsGood c → ((v : ℕ) → c.count v ≡ None) →
        source_state_of c result.vm.table ≡ record (empty_sources c.frames) { content = c } }
    ensures agrees { (c : Content) → IsGood c → ((v : ℕ) → c.count v ≡ None) → SourcesAgree c result.vm.table }
{
    SourceInterpreter {
        vm: SourceVm::new(alloc, functions),
        room: LineRoom {
            written: [0; DATA_BYTES],
            read: [0; DATA_BYTES],
            reply: [0; TEXT_ROOM],
        },
    }
}

impl<P: PageStore> Interpreter<P> for SourceInterpreter {
    ghost use Rattle.std.specs.Prelude.{refl};
    ghost use Rattle.source_model.specs.State.{SourceState};
    ghost use Rattle.source_vm.specs.Answering.{SourceGives-long};

    ghost State = { SourceState };

    ghost rules = { source_rules };

    ghost state = { λ x c. source_state_of c x.vm.table };

    ghost Agrees = { λ x c. SourcesAgree c x.vm.table };

    fn answer_line<K: Sink>(
        &mut self,
        store: &mut P,
        sink: &mut K,
        line: &[u8],
    ) -> Result<(), Failed> {
        answer_line(store, &mut self.vm, sink, &mut self.room, line)
    }

    ghost holds = { λ x c. refl };

    ghost long = { SourceGives-long };
}

/// Answers one line. `Failed` if the sink failed; the line was done all the same.
#[inline(always)]
fn answer_line<P: PageStore, K: Sink>(
    store: &mut P,
    vm: &mut SourceVm,
    sink: &mut K,
    room: &mut LineRoom,
    line: &[u8],
) -> Result<(), Failed>
    requires agrees { SourcesAgree (P.content store.old) vm.old.table }
    requires next { (P.content store.old).next < KOIDS }
    ensures answer { AnswersLine source_rules line.now (source_state_of (P.content store.old) vm.old.table)
        (source_state_of (P.content store.new) vm.new.table) (K.contents sink.old) (K.contents sink.new) result }
    ensures agrees { SourcesAgree (P.content store.new) vm.new.table }
    ensures next { (P.content store.new).next ≤ (P.content store.old).next + 1 }
    ensures cause { HasCause (K.faults sink.old) (K.faults sink.new) result }
{
    match read_source_call(line, &mut room.written) {
        Ok(None) => Ok(()),
        Ok(Some(call)) => {
            let answer = vm.answer(store, &call, &mut room.read);
            push_answer(sink, &answer, &mut room.reply)
        }
        Err(_) => push_syntax(sink),
    }
}
