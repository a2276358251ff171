//! Runs of a script by the calls whose commands and replies have values of their own: `read_line`, `Vm::step` and
//! `write_line`. `run` goes by the calls that lend data instead.

ghost use Rattle.std.specs.Prelude.{◌≡◌, ◌+◌, ◌<◌, ◌≤◌, OnOk};
ghost use Rattle.vm_base.specs.declared.limits.TheConstants.{KOIDS};
ghost use Rattle.vm_model.specs.Contents.Content.{nothing};
ghost use Rattle.vm_core.specs.Vm.{Agrees};

use super::text_fault::Fault;
use cow_forest::CowForest;
use page_store::{PageStore, RefusingStore};
use reply_text::{line_count, write_line};
use script_text::{Line, read_line};
use std::alloc::Global;
use vm_base::{FRAMES, HostMemory, Refusal, TEXT_ROOM};
use vm_core::Vm;
use vm_model::{Command, Reply};

/// The most lines of a script.
pub(crate) const LINES: u64 = 1_000_000;

/// The number of times that what finds no memory of the host is asked.
#[derive(Clone, Copy, PartialEq, Eq)]
pub(crate) enum Asking {
    Once,
    Twice,
}

/// Returns the number of page frames that the words of a command line give to a script, if the first word is `verb`. `None`
/// if they run no such script.
pub(crate) fn frames_for(words: &[String], verb: &str) -> Option<u32> {
    match words {
        [first] if first.as_str() == verb => Some(1024),
        [first, _, frames] if first.as_str() == verb => frames.parse::<u32>().ok(),
        _ => None,
    }
}

/// Adds the lines of a reply to those that are written.
pub(crate) fn add_reply(written: &mut String, reply: &Reply) -> Result<(), Fault> {
    let mut room = [0; TEXT_ROOM];
    for index in 0..line_count(reply) {
        let len = write_line(reply, index, &mut room);
        let Ok(line) = str::from_utf8(&room[..len]) else {
            return Err(Fault::NoText);
        };
        written.push_str(line)?;
    }
    Ok(())
}

/// Answers a command by a step of the machine. If the step finds no memory and two are asked for, answers it by
/// another.
fn reply_to<P: PageStore>(store: &mut P, vm: &mut Vm, command: &Command, asking: Asking) -> Reply
    requires agrees { Agrees (P.content store.old) vm.old }
    requires next { (P.content store.old).next + 1 < KOIDS }
    ensures agrees { Agrees (P.content store.new) vm.new }
    ensures next { (P.content store.new).next ≤ (P.content store.old).next + 2 }
{
    let reply = vm.step(store, command);
    if asking == Asking::Twice && matches!(reply, Reply::Refused(Refusal::HostMemory)) {
        return vm.step(store, command);
    }
    reply
}

/// Answers a line.
fn step<P: PageStore>(
    store: &mut P,
    vm: &mut Vm,
    line: &str,
    asking: Asking,
    written: &mut String,
) -> Result<(), Fault>
    requires agrees { Agrees (P.content store.old) vm.old }
    requires next { (P.content store.old).next + 1 < KOIDS }
    ensures agrees { Agrees (P.content store.new) vm.new }
    ensures next { (P.content store.new).next ≤ (P.content store.old).next + 2 }
{
    match read_line(line.as_bytes()) {
        Ok(Line::Blank) => Ok(()),
        Ok(Line::Order(command)) => {
            let reply = reply_to(store, vm, &command, asking);
            add_reply(written, &reply)
        }
        Err(_) => add_reply(written, &Reply::Refused(Refusal::Syntax)),
    }
}

/// Answers each line of a script.
fn step_through<P: PageStore>(
    store: &mut P,
    vm: &mut Vm,
    script: &str,
    asking: Asking,
    written: &mut String,
) -> Result<(), Fault>
    requires agrees { Agrees (P.content store.old) vm.old }
    requires next { (P.content store.old).next ≤ 1 }
{
    let mut left = LINES;
    for line in script.split('\n') {
        if left == 0 {
            return Err(Fault::NoForm);
        }
        left -= 1;
        step(store, vm, line, asking, written)?;
    }
    Ok(())
}

/// Gives a store its page frames. If it finds no memory and is to be asked twice, asks it again.
pub(crate) fn fill<P: PageStore>(
    store: &mut P,
    frames: u32,
    asking: Asking,
) -> Result<(), HostMemory>
    requires empty { P.content store.old ≡ nothing }
    requires frames { (1 ≤ frames) × (frames ≤ FRAMES) }
    ensures { OnOk result (P.content store.new ≡ record (P.content store.old) { frames = frames }) }
{
    match store.fill(frames) {
        Err(HostMemory) if asking == Asking::Twice => store.fill(frames),
        outcome => outcome,
    }
}

/// Returns what is written if a machine over this store, with `frames` page frames, steps through a script.
fn stepped_over<P: PageStore>(
    alloc: Global,
    frames: u32,
    script: &str,
    asking: Asking,
    store: &mut P,
) -> Result<String, Fault>
    requires { P.content store.old ≡ nothing }
{
    if frames == 0 || frames > FRAMES {
        return Err(Fault::NoForm);
    }
    let Ok(()) = fill(store, frames, asking) else {
        return Err(Fault::HostMemory);
    };
    let mut written = String::new(alloc);
    let mut vm = Vm::new(alloc);
    let done = step_through(store, &mut vm, script, asking, &mut written);
    drop(vm);
    done?;
    Ok(written)
}

/// Returns what is written if a machine over the clone tree steps through a script. `None` if the words run none.
pub(crate) fn stepped(
    alloc: Global,
    words: &[String],
    script: &str,
) -> Result<Option<String>, Fault> {
    let Some(frames) = frames_for(words, "run") else {
        return Ok(None);
    };
    let mut tree = CowForest::new(alloc);
    let written = stepped_over(alloc, frames, script, Asking::Once, &mut tree);
    drop(tree);
    Ok(Some(written?))
}

/// Returns what is written if a machine over the clone tree steps through a script, and the call of the tree with this
/// number finds no memory. Returns also how many calls there were. Each command that finds no memory is given once more, and
/// so is the call that gives the tree its frames.
pub(crate) fn stepped_refusing(
    alloc: Global,
    words: &[String],
    script: &str,
    call: u64,
) -> Result<(String, u64), Fault> {
    let Some(frames) = frames_for(words, "run") else {
        return Err(Fault::NoForm);
    };
    let Ok(mut store) = RefusingStore::new(alloc, CowForest::new(alloc), &[call]) else {
        return Err(Fault::HostMemory);
    };
    let written = stepped_over(alloc, frames, script, Asking::Twice, &mut store);
    let calls = store.calls();
    drop(store);
    Ok((written?, calls))
}
