//! Answering one line of a script.

ghost use Rattle.std.specs.Prelude.{◌≡◌, ◌+◌, ◌≤◌, ◌<◌, IfOk};
ghost use Rattle.script_io.specs.Faults.{HasCause};
ghost use Rattle.vm_model.specs.Machine.Machine.{IsGoodMachine};
ghost use Rattle.vm_core.specs.Vm.{Agrees, machine_of};
ghost use Rattle.line_server.specs.Outcome.{AnswersLine};
ghost use Rattle.vm_session.specs.Plain.{plain};

use crate::rooms::Rooms;
use line_server::{Interpreter, push_answer, push_syntax};
use page_store::PageStore;
use script_io::Sink;
use script_text::read_call;
use std::alloc::Global;
use std::marker::Model;
use vm_base::{Failed, HostMemory, KOIDS};
use vm_core::Vm;

/// A machine that answers the lines of a script, and the room for the data of a line. Clauses see the parts of the machine.
pub struct VmInterpreter {
    vm: Vm,
    rooms: Box<Rooms>,
}

impl Model for VmInterpreter {
    ghost use Rattle.vm_core.specs.Vm.{Parts};

    ghost Value = { Parts };

    ghost view = { λ x. x.vm };
}

impl Drop for VmInterpreter {
    // Written, and so proved here once. A derived drop is proved in each crate that lets an interpreter go, with that of each table.
    fn drop(self) {
        let VmInterpreter { vm, rooms } = self;
        drop(vm);
        drop(rooms);
    }
}

impl VmInterpreter {
    ghost use Rattle.vm_model.specs.Contents.Content.{Content, HasNoVmo};
    ghost use Rattle.vm_core.specs.Vm.{Agrees, bare_machine, machine_of};

    /// Returns a machine with no names, pins, regions and translations. It agrees with every store that has no VMO. `HostMemory`
    /// if the host has too little memory for the data of a line.
    pub fn new(alloc: Global) -> Result<VmInterpreter, HostMemory>
        ensures bare { IfOk result (λ i. (c : Content) → machine_of c i ≡ bare_machine c) }
        ensures agrees { IfOk result (λ i. (c : Content) → HasNoVmo c → 1 ≤ c.next → Agrees c i) }
    {
        let rooms = Rooms::new(alloc)?;
        Ok(VmInterpreter {
            vm: Vm::new(alloc),
            rooms,
        })
    }
}

impl<P: PageStore> Interpreter<P> for VmInterpreter {
    ghost use Rattle.std.specs.Prelude.{refl};
    ghost use Rattle.vm_model.specs.Machine.Machine.{Machine};
    ghost use Rattle.vm_session.specs.inside.Outside.{GivesText-long};

    ghost State = { Machine };

    ghost rules = { plain };

    ghost state = { λ x c. machine_of c x };

    ghost Agrees = { λ x c. Agrees c x };

    fn answer_line<K: Sink>(
        &mut self,
        store: &mut P,
        sink: &mut K,
        line: &[u8],
    ) -> Result<(), Failed> {
        answer_line(store, &mut self.vm, sink, self.rooms.as_mut(), line)
    }

    ghost holds = { λ x c. refl };

    ghost long = { GivesText-long };
}

/// Answers one line. `Failed` if the sink failed; the line was done all the same.
#[inline(always)]
fn answer_line<P: PageStore, K: Sink>(
    store: &mut P,
    vm: &mut Vm,
    sink: &mut K,
    rooms: &mut Rooms,
    line: &[u8],
) -> Result<(), Failed>
    requires agrees { Agrees (P.content store.old) vm.old }
    requires next { (P.content store.old).next < KOIDS }
    ensures answer { AnswersLine plain line.now (machine_of (P.content store.old) vm.old)
        (machine_of (P.content store.new) vm.new) (K.contents sink.old) (K.contents sink.new) result }
    ensures agrees { Agrees (P.content store.new) vm.new }
    ensures good { IsGoodMachine (machine_of (P.content store.new) vm.new) }
    ensures next { (P.content store.new).next ≤ (P.content store.old).next + 1 }
    ensures cause { HasCause (K.faults sink.old) (K.faults sink.new) result }
{
    match read_call(line, &mut rooms.written) {
        Ok(None) => Ok(()),
        Ok(Some(call)) => {
            let answer = vm.answer(store, &call, &mut rooms.read, &mut rooms.pinned);
            push_answer(sink, &answer, &mut rooms.reply)
        }
        Err(_) => push_syntax(sink),
    }
}
