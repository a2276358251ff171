//! Runs of a script on the machine of page sources by the calls whose commands and replies have values of their own:
//! `read_source_line`, `SourceVm::step` and `write_line`. `run_sources` goes by the calls that lend data instead.

ghost use Rattle.std.specs.Prelude.{◌≡◌, ◌+◌, ◌<◌, ◌≤◌};
ghost use Rattle.vm_base.specs.declared.limits.TheConstants.{KOIDS};
ghost use Rattle.vm_model.specs.Contents.Content.{nothing};
ghost use Rattle.source_vm.specs.Table.{SourcesAgree};

use super::steps::{Asking, LINES, add_reply, fill, frames_for};
use super::text_fault::Fault;
use cow_forest::CowForest;
use page_store::{PageStore, RefusingStore};
use source_vm::{SourceCommand, SourceFn, SourceLine, SourceVm, read_source_line, src_byte};
use std::alloc::Global;
use vm_base::{FRAMES, Refusal};
use vm_model::Reply;

/// Answers a command by a step of the machine. If the step finds no memory and two are asked for, answers it by
/// another.
fn reply_to<P: PageStore>(
    store: &mut P,
    vm: &mut SourceVm,
    command: &SourceCommand,
    asking: Asking,
) -> Reply
    requires agrees { SourcesAgree (P.content store.old) vm.old.table }
    requires next { (P.content store.old).next + 1 < KOIDS }
    ensures agrees { SourcesAgree (P.content store.new) vm.new.table }
    ensures next { (P.content store.new).next ≤ (P.content store.old).next + 2 }
{
    let reply = vm.step(store, command);
    if asking == Asking::Twice && matches!(reply, Reply::Refused(Refusal::HostMemory)) {
        return vm.step(store, command);
    }
    reply
}

/// Answers a line.
fn step<P: PageStore>(
    store: &mut P,
    vm: &mut SourceVm,
    line: &str,
    asking: Asking,
    written: &mut String,
) -> Result<(), Fault>
    requires agrees { SourcesAgree (P.content store.old) vm.old.table }
    requires next { (P.content store.old).next + 1 < KOIDS }
    ensures agrees { SourcesAgree (P.content store.new) vm.new.table }
    ensures next { (P.content store.new).next ≤ (P.content store.old).next + 2 }
{
    match read_source_line(line.as_bytes()) {
        Ok(SourceLine::Blank) => Ok(()),
        Ok(SourceLine::Order(command)) => {
            let reply = reply_to(store, vm, &command, asking);
            add_reply(written, &reply)
        }
        Err(_) => add_reply(written, &Reply::Refused(Refusal::Syntax)),
    }
}

/// Answers each line of a script.
fn step_through<P: PageStore>(
    store: &mut P,
    vm: &mut SourceVm,
    script: &str,
    asking: Asking,
    written: &mut String,
) -> Result<(), Fault>
    requires agrees { SourcesAgree (P.content store.old) vm.old.table }
    requires next { (P.content store.old).next ≤ 1 }
{
    let mut left = LINES;
    for line in script.split('\n') {
        if left == 0 {
            return Err(Fault::NoForm);
        }
        left -= 1;
        step(store, vm, line, asking, written)?;
    }
    Ok(())
}

/// Returns what is written if a machine of page sources over this store, with so many page frames, steps through a script.
fn stepped_over<P: PageStore>(
    alloc: Global,
    frames: u32,
    script: &str,
    asking: Asking,
    store: &mut P,
) -> Result<String, Fault>
    requires { P.content store.old ≡ nothing }
{
    if frames == 0 || frames > FRAMES {
        return Err(Fault::NoForm);
    }
    let Ok(()) = fill(store, frames, asking) else {
        return Err(Fault::HostMemory);
    };
    let mut written = String::new(alloc);
    let functions = [
        SourceFn::new(0, |seed, offset| src_byte(0, seed, offset)),
        SourceFn::new(1, |seed, offset| src_byte(1, seed, offset)),
        SourceFn::new(2, |seed, offset| src_byte(2, seed, offset)),
    ];
    let mut vm = SourceVm::new(alloc, functions);
    let done = step_through(store, &mut vm, script, asking, &mut written);
    drop(vm);
    done?;
    Ok(written)
}

/// Returns what is written if a machine of page sources over the clone tree steps through a script. `None` if the words run
/// none.
pub(crate) fn source_stepped(
    alloc: Global,
    words: &[String],
    script: &str,
) -> Result<Option<String>, Fault> {
    let Some(frames) = frames_for(words, "sources") else {
        return Ok(None);
    };
    let mut tree = CowForest::new(alloc);
    let written = stepped_over(alloc, frames, script, Asking::Once, &mut tree);
    drop(tree);
    Ok(Some(written?))
}

/// Returns what is written if a machine of page sources over the clone tree steps through a script, and the call of the tree
/// with this number finds no memory. Returns also how many calls there were. Each command that finds no memory is given once
/// more, and so is the call that gives the tree its frames.
pub(crate) fn source_stepped_refusing(
    alloc: Global,
    words: &[String],
    script: &str,
    call: u64,
) -> Result<(String, u64), Fault> {
    let Some(frames) = frames_for(words, "sources") else {
        return Err(Fault::NoForm);
    };
    let Ok(mut store) = RefusingStore::new(alloc, CowForest::new(alloc), &[call]) else {
        return Err(Fault::HostMemory);
    };
    let written = stepped_over(alloc, frames, script, Asking::Twice, &mut store);
    let calls = store.calls();
    drop(store);
    Ok((written?, calls))
}
