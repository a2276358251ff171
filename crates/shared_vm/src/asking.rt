//! How much data the replies to tasks have at most.

ghost use Rattle.std.specs.Prelude.{◌≡◌, ◌^◌, ◌<◌, ◌≤◌, length};
ghost use Rattle.std.specs.List.{sum_by};
ghost use Rattle.vm_base.specs.declared.limits.TheConstants.{DATA_BYTES};
ghost use Rattle.shared_vm.specs.inside.Asking.{bytes_asked, bytes_wanted, numbers_asked, numbers_wanted};
ghost use Rattle.shared_vm.specs.inside.TaskPlaces.{task_of_line};

use crate::task_list::TaskList;
use script_text::read_call;
use vm_base::{DATA_BYTES, PAGE, PIN_PAGES};
use vm_model::Call;

/// The data that the replies to tasks have at most: the bytes that are read, and the frames of the pages that are pinned.
#[derive(Clone, Copy)]
pub(crate) struct Asked {
    pub(crate) bytes: u64,
    pub(crate) numbers: u64,
}

/// Returns what a command asks for.
fn asked_of(call: &Call<'_>) -> Asked
    ensures bytes { result.bytes ≡ bytes_wanted call.now }
    ensures numbers { result.numbers ≡ numbers_wanted call.now }
{
    match call {
        Call::VmoRead { len, .. } | Call::MemRead { len, .. } => Asked {
            bytes: (*len).min(DATA_BYTES as u64),
            numbers: 0,
        },
        Call::VmoPin { len, .. } => Asked {
            bytes: 0,
            numbers: (*len / PAGE).min(PIN_PAGES as u64),
        },
        _ => Asked {
            bytes: 0,
            numbers: 0,
        },
    }
}

/// Returns what the task of a line asks for. Bytes that the task writes are decoded to `written`.
fn asked_by(line: &[u8], written: &mut [u8]) -> Asked
    requires { DATA_BYTES ≤ length written.old }
    ensures bytes { result.bytes ≡ bytes_asked (task_of_line line.now) }
    ensures numbers { result.numbers ≡ numbers_asked (task_of_line line.now) }
{
    match read_call(line, written) {
        Ok(Some(call)) => asked_of(&call),
        Ok(None) => Asked {
            bytes: 0,
            numbers: 0,
        },
        Err(_) => Asked {
            bytes: 0,
            numbers: 0,
        },
    }
}

/// Returns what the tasks of an actor ask for together.
pub(crate) fn asked_in(tasks: &TaskList, written: &mut [u8]) -> Asked
    requires few { length tasks.now < 2 ^ 32 }
    requires written { DATA_BYTES ≤ length written.old }
    ensures bytes { result.bytes ≡ sum_by bytes_asked tasks.now }
    ensures numbers { result.numbers ≡ sum_by numbers_asked tasks.now }
{
    let mut bytes = 0;
    let mut numbers = 0;
    for index in 0..tasks.len() {
        let asked = asked_by(tasks.line(index), written);
        bytes += asked.bytes;
        numbers += asked.numbers;
    }
    Asked { bytes, numbers }
}
