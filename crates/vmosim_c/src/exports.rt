//! The calls that C makes.

ghost use Rattle.std.specs.Prelude.{◌≡◌, None};
ghost use Rattle.vmosim_c.specs.Calls.{OpenSays, LineSays, ScriptSays};

use crate::kept::Vmosim;
use crate::script::answer_script;
use held_vm::{Answered, DONE, tell_line, tell_refusal, tell_script};
use std::alloc::Global;

/// Opens a machine with `frames` page frames and nothing else, and closes the one that was there.
///
/// `DONE`, or `FRAME_COUNT` if `frames` is not from 1 to `FRAMES`, or `OUT_OF_MEMORY` if the host has too little memory. It is closed
/// then.
#[unsafe(no_mangle)]
pub extern "C" fn vmosim_open(alloc: Global, machine: &mut Vmosim, frames: u32) -> u8
    ensures { OpenSays result frames machine.new.handle.value }
{
    match machine.start(alloc, frames) {
        Ok(()) => DONE,
        Err(refusal) => tell_refusal(refusal),
    }
}

/// Answers a line, without its line feed, and writes the reply to the front of `out`.
///
/// `OUT_OF_ROOM` if and only if the reply is longer than `out`: the line was done, and `out` has the front of the reply. In the other
/// cases but `DONE` nothing was done: `CLOSED` if and only if the machine is closed, and `OUT_OF_KOIDS` if and only if it has given all
/// koids. A line that wants more memory than the host has is done, and its reply says so.
#[unsafe(no_mangle)]
pub extern "C" fn vmosim_line(
    alloc: Global,
    machine: &mut Vmosim,
    line: &[u8],
    out: &mut [u8],
) -> Answered
    ensures { LineSays result line.now machine.old.handle.value machine.new.handle.value out.old out.new }
{
    tell_line(machine.answer(alloc, line, out))
}

/// Closes the machine. A closed one stays as it is.
#[unsafe(no_mangle)]
pub extern "C" fn vmosim_close(alloc: Global, machine: &mut Vmosim)
    ensures { machine.new.handle.value ≡ None }
{
    machine.close(alloc);
}

/// Answers the lines of a script on a machine of its own with `frames` page frames, and writes the text of the replies to the front of
/// `out`.
///
/// `OUT_OF_ROOM` if the text is longer than `out`, which has the front of it then. `FRAME_COUNT` if `frames` is not from 1 to
/// `FRAMES`, `OUT_OF_MEMORY` if the host has too little memory: nothing was done.
#[unsafe(no_mangle)]
pub extern "C" fn vmosim_script(
    alloc: Global,
    frames: u32,
    script: &[u8],
    out: &mut [u8],
) -> Answered
    ensures { ScriptSays result frames script.now out.old out.new }
{
    tell_script(answer_script(alloc, frames, script, out))
}
