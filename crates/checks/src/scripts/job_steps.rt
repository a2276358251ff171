//! Runs of a script on the machine with jobs by the calls whose commands and replies have values of their own:
//! `read_batch_line`, `Batch::step` and `write_batch_line`. `run_batch` goes by the calls that lend data instead.

ghost use Rattle.std.specs.Prelude.{◌≡◌, ◌+◌, ◌<◌, ◌≤◌};
ghost use Rattle.vm_base.specs.declared.limits.TheConstants.{KOIDS};
ghost use Rattle.vm_model.specs.Contents.Content.{nothing};
ghost use Rattle.vm_core.specs.Vm.{Agrees};

use super::steps::frames_for;
use super::text_fault::Fault;
use batch_vm::{Batch, BatchLine, BatchReply, batch_line_count, read_batch_line, write_batch_line};
use cow_forest::CowForest;
use page_store::PageStore;
use std::alloc::Global;
use vm_base::{FRAMES, Refusal, TEXT_ROOM};
use vm_model::Reply;

/// The most lines of a script.
const LINES: u64 = 1_000_000;

/// Adds the lines of a reply to those that are written.
fn add_reply(written: &mut String, reply: &BatchReply) -> Result<(), Fault> {
    let mut room = [0; TEXT_ROOM];
    for index in 0..batch_line_count(reply) {
        let len = write_batch_line(reply, index, &mut room);
        let Ok(line) = str::from_utf8(&room[..len]) else {
            return Err(Fault::NoText);
        };
        written.push_str(line)?;
    }
    Ok(())
}

/// Answers a line.
fn step<P: PageStore>(
    store: &mut P,
    batch: &mut Batch,
    line: &str,
    written: &mut String,
) -> Result<(), Fault>
    requires agrees { Agrees (P.content store.old) batch.old.vm }
    requires next { (P.content store.old).next < KOIDS }
    ensures agrees { Agrees (P.content store.new) batch.new.vm }
    ensures next { (P.content store.new).next ≤ (P.content store.old).next + 1 }
{
    match read_batch_line(line.as_bytes()) {
        Ok(BatchLine::Blank) => Ok(()),
        Ok(BatchLine::Order(command)) => {
            let reply = batch.step(store, &command);
            add_reply(written, &reply)
        }
        Err(_) => add_reply(written, &BatchReply::Plain(Reply::Refused(Refusal::Syntax))),
    }
}

/// Answers each line of a script.
fn step_through<P: PageStore>(
    store: &mut P,
    batch: &mut Batch,
    script: &str,
    written: &mut String,
) -> Result<(), Fault>
    requires agrees { Agrees (P.content store.old) batch.old.vm }
    requires next { (P.content store.old).next ≤ 1 }
{
    let mut left = LINES;
    for line in script.split('\n') {
        if left == 0 {
            return Err(Fault::NoForm);
        }
        left -= 1;
        step(store, batch, line, written)?;
    }
    Ok(())
}

/// Returns what is written if a machine with jobs over this store, with so many page frames, steps through a script.
fn stepped_over<P: PageStore>(
    alloc: Global,
    frames: u32,
    script: &str,
    store: &mut P,
) -> Result<String, Fault>
    requires { P.content store.old ≡ nothing }
{
    if frames == 0 || frames > FRAMES {
        return Err(Fault::NoForm);
    }
    let Ok(()) = store.fill(frames) else {
        return Err(Fault::HostMemory);
    };
    let mut written = String::new(alloc);
    let mut batch = Batch::new(alloc);
    let done = step_through(store, &mut batch, script, &mut written);
    drop(batch);
    done?;
    Ok(written)
}

/// Returns what is written if a machine with jobs over the clone tree steps through a script. `None` if the words run none.
pub(crate) fn job_stepped(
    alloc: Global,
    words: &[String],
    script: &str,
) -> Result<Option<String>, Fault> {
    let Some(frames) = frames_for(words, "batch") else {
        return Ok(None);
    };
    let mut tree = CowForest::new(alloc);
    let written = stepped_over(alloc, frames, script, &mut tree);
    drop(tree);
    Ok(Some(written?))
}
