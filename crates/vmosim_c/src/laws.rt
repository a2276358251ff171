//! Laws of the calls of C, from their clauses alone. Each is the contract of a function that makes one call.

ghost use Rattle.std.specs.Prelude.{◌≡◌, None};
ghost use Rattle.held_vm.specs.declared.told.TheConstants.{DONE, CLOSED};
ghost use Rattle.vmosim_c.specs.Calls.{IsDone};

use crate::exports::vmosim_line;
use crate::kept::Vmosim;
use held_vm::Answered;
use std::alloc::Global;

/// Answers a line. If it was done, the reply is the whole text of the line, and the machine that is kept is the one after it. On a closed
/// machine the call says so.
pub fn done_line_leaves_the_machine_after(
    alloc: Global,
    machine: &mut Vmosim,
    line: &[u8],
    out: &mut [u8],
) -> Answered
    ensures done { result.status ≡ DONE → IsDone result.len line.now machine.old.handle.value machine.new.handle.value out.new }
    ensures closed { machine.old.handle.value ≡ None → result.status ≡ CLOSED }
{
    vmosim_line(alloc, machine, line, out)
}
