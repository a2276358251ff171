//! Answering the lines of a script, as what is done with the lines of a source.

ghost use Rattle.std.specs.Prelude.{◌≡◌, ◌≢◌};
ghost use Rattle.line_server.specs.Serving.{served_as};

use crate::interpreter::Interpreter;
use crate::reading::Turn;
use crate::replies::push_syntax;
use page_store::PageStore;
use script_io::{Sink, Status};
use vm_base::Failed;

/// An interpreter answers each line of a script.
pub(crate) struct Answer;

impl<P: PageStore, I: Interpreter<P>, K: Sink> Turn<I, P, K, Failed> for Answer {
    ghost use Rattle.std.specs.Prelude.{ℕ, ◌-◌};
    ghost use Rattle.vm_base.specs.declared.limits.TheConstants.{KOIDS};
    ghost use Rattle.line_server.specs.Serving.{Heard, answering};

    ghost State = { Heard I.State };

    ghost turns = { answering I.rules };

    ghost state = { λ machine store sink.
        record { machine = I.state machine (P.content store); taken = K.contents sink; faults = K.faults sink } };

    ghost Holds = { λ machine store. I.Agrees machine (P.content store) × I.rules.IsGood (I.state machine (P.content store)) };

    ghost count = { λ machine store. (P.content store).next };

    ghost most = { KOIDS - 1 };

    fn take(machine: &mut I, store: &mut P, sink: &mut K, line: &[u8]) -> Result<(), Failed> {
        machine.answer_line(store, sink, line)
    }

    fn pass(_machine: &mut I, _store: &mut P, sink: &mut K) -> Result<(), Failed> {
        push_syntax(sink)
    }
}

/// Returns the status of a script whose lines were read to this end: `WriteFault` if the sink failed.
pub(crate) fn served_as(read: Result<Status, Failed>) -> Status
    ensures { result ≡ served_as read }
{
    match read {
        Ok(status) => status,
        Err(_) => Status::WriteFault,
    }
}
