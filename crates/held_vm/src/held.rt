//! The machine that is held.

ghost use Rattle.std.specs.Prelude.{◌≡◌, ◌≤◌, IfOk};
ghost use Rattle.vm_base.specs.declared.limits.TheConstants.{FRAMES};
ghost use Rattle.vm_model.specs.Contents.Content.{nothing};
ghost use Rattle.vm_model.specs.Machine.Machine.{empty_machine};
ghost use Rattle.held_vm.specs.Held.{held_machine, state_held, Answers};

use line_server::Interpreter;
use page_store::PageStore;
use script_io::SliceSink;
use std::alloc::Global;
use std::marker::Model;
use vm_base::{HostMemory, KOIDS};
use vm_session::VmInterpreter;

/// Why `answer` did not write a whole reply.
#[derive(Clone, Copy, Debug, PartialEq, Eq)]
pub enum AnswerError {
    /// The reply is longer than the bytes of the caller. The line was done.
    OutOfRoom,
    /// The machine has given all koids, `KOIDS` of them. The line was not done.
    OutOfKoids,
}

/// An interpreter of lines with its store of pages, held between lines: the machine of `run` where no other is named. Clauses see the
/// interpreter and the store.
#[derive(Drop)]
pub struct HeldVm<P: PageStore, I: Interpreter<P> = VmInterpreter> {
    interpreter: I,
    /// In a box, so that no call moves it.
    store: Box<P>,
}

impl<P: PageStore, I: Interpreter<P>> Model for HeldVm<P, I> {
    ghost use Rattle.held_vm.specs.Held.{Held, StandTogether};

    ghost Value = { Held P I };

    ghost view = { λ h. record { interpreter = h.interpreter; store = h.store.value } };

    ghost invariant = { λ h. StandTogether I.Agrees I.rules.IsGood P.content I.state
        (record { interpreter = h.interpreter; store = h.store.value }) };
}

impl<P: PageStore> HeldVm<P> {
    /// Returns a machine with `frames` page frames, from 1 to `FRAMES`, and nothing else, over a store that has nothing. `HostMemory`
    /// if the host has too little memory for the frames and the data of a line.
    pub fn new(alloc: Global, frames: u32, store: P) -> Result<HeldVm<P>, HostMemory>
        requires frames { 1 ≤ frames × frames ≤ FRAMES }
        requires empty { P.content store ≡ nothing }
        ensures machine { IfOk result (λ h. held_machine P.content h ≡ empty_machine frames) }
    {
        let Ok(store) = Box::new(alloc, store) else {
            return Err(HostMemory);
        };
        HeldVm::over(alloc, frames, store)
    }

    /// Does what `new` does, over a store in a box, which no call moves.
    pub fn over(alloc: Global, frames: u32, store: Box<P>) -> Result<HeldVm<P>, HostMemory>
        requires frames { 1 ≤ frames × frames ≤ FRAMES }
        requires empty { P.content store.value ≡ nothing }
        ensures machine { IfOk result (λ h. held_machine P.content h ≡ empty_machine frames) }
    {
        let store = filled(frames, store)?;
        let interpreter = VmInterpreter::new(alloc)?;
        // By no call of `hold`: with the interpreter handed to it, the check would read the code of all that answers a line.
        Ok(HeldVm { interpreter, store })
    }
}

impl<P: PageStore, I: Interpreter<P>> HeldVm<P, I> {
    /// Holds an interpreter, over a store that has nothing and gets `frames` page frames, from 1 to `FRAMES`. Over a store with nothing
    /// but frames the interpreter stands for its first state, which is good. `HostMemory` if the host has too little memory for them.
    pub fn hold(
        alloc: Global,
        frames: u32,
        store: P,
        interpreter: I,
    ) -> Result<HeldVm<P, I>, HostMemory>
        requires frames { 1 ≤ frames × frames ≤ FRAMES }
        requires empty { P.content store ≡ nothing }
        requires agrees { I.Agrees interpreter (record nothing { frames = frames }) }
        requires start { I.state interpreter (record nothing { frames = frames }) ≡ I.rules.start frames }
        requires good { I.rules.IsGood (I.rules.start frames) }
        ensures first { IfOk result (λ h. state_held P.content I.state h ≡ I.rules.start frames) }
    {
        let Ok(boxed) = Box::new(alloc, store) else {
            return Err(HostMemory);
        };
        let store = filled(frames, boxed)?;
        Ok(HeldVm { interpreter, store })
    }

    /// Answers a line, without its line feed, and writes the reply to the front of `out`. Returns the length of the reply in bytes. It
    /// takes no memory but for what the line asks for.
    ///
    /// `OutOfKoids` if and only if `KOIDS` koids were given: nothing was done, and `out` is as it was. `OutOfRoom` if and only if the
    /// reply is longer than `out`: the line was done, and `out` has the front of the reply.
    pub fn answer(&mut self, line: &[u8], out: &mut [u8]) -> Result<usize, AnswerError>
        ensures answers { Answers I.rules result line.now (state_held P.content I.state self.old)
            (state_held P.content I.state self.new) out.old out.new }
        ensures good { I.rules.IsGood (state_held P.content I.state self.new) }
    {
        answer_over(&mut self.interpreter, self.store.as_mut(), line, out)
    }
}

/// Answers a line over a store, as `HeldVm::answer` does.
#[inline(always)]
fn answer_over<P: PageStore, I: Interpreter<P>>(
    interpreter: &mut I,
    store: &mut P,
    line: &[u8],
    out: &mut [u8],
) -> Result<usize, AnswerError>
    requires agrees { I.Agrees interpreter.old (P.content store.old) }
    requires good { I.rules.IsGood (I.state interpreter.old (P.content store.old)) }
    ensures answers { Answers I.rules result line.now (I.state interpreter.old (P.content store.old))
        (I.state interpreter.new (P.content store.new)) out.old out.new }
    ensures agrees { I.Agrees interpreter.new (P.content store.new) }
    ensures good { I.rules.IsGood (I.state interpreter.new (P.content store.new)) }
{
    if store.next_koid().0 >= KOIDS {
        return Err(AnswerError::OutOfKoids);
    }
    let mut reply = SliceSink::new(out);
    let pushed = interpreter.answer_line(store, &mut reply, line);
    let len = reply.taken();
    match pushed {
        Ok(()) => Ok(len),
        Err(_) => Err(AnswerError::OutOfRoom),
    }
}

/// Gives a store that has nothing `frames` page frames, from 1 to `FRAMES`. `HostMemory` if the host has too little memory.
fn filled<P: PageStore>(frames: u32, store: Box<P>) -> Result<Box<P>, HostMemory>
    requires frames { 1 ≤ frames × frames ≤ FRAMES }
    requires empty { P.content store.value ≡ nothing }
    ensures { IfOk result (λ b. P.content b.value ≡ record (P.content store.value) { frames = frames }) }
{
    let mut store = store;
    store.as_mut().fill(frames)?;
    Ok(store)
}
