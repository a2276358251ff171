//! Reading the tasks of an input.

ghost use Rattle.std.specs.Prelude.{◌≡◌, ◌^◌, ◌<◌, MatchResult, IfOk, Err};
ghost use Rattle.script_io.specs.Faults.{HasFailed};
ghost use Rattle.shared_vm.specs.Gathering.{EndsReading, Gathers, lists_or_status};
ghost use Rattle.shared_vm.specs.Tasks.{task_count};

use crate::scripts::Scripts;
use line_server::{Turn, read_lines};
use script_io::{Lines, Source, Status};
use std::alloc::Global;
use vm_base::{HostMemory, INPUT_BYTES};

/// The task of each line of an input is added.
struct Gather;

impl Turn<Scripts, (), (), HostMemory> for Gather {
    ghost use Rattle.std.specs.Prelude.{◌+◌};
    ghost use Rattle.vm_base.specs.declared.limits.TheConstants.{INPUT_BYTES};
    ghost use Rattle.shared_vm.specs.Gathering.{gathering};
    ghost use Rattle.shared_vm.specs.Tasks.{Lists, task_count};

    ghost State = { Lists };

    ghost turns = { gathering };

    ghost state = { λ scripts store sink. scripts };

    ghost Holds = { λ scripts store. Unit {0} };

    ghost count = { λ scripts store. task_count scripts + 1 };

    ghost most = { INPUT_BYTES };

    fn take(
        scripts: &mut Scripts,
        _store: &mut (),
        _sink: &mut (),
        line: &[u8],
    ) -> Result<(), HostMemory> {
        scripts.add(line)
    }

    fn pass(scripts: &mut Scripts, _store: &mut (), _sink: &mut ()) -> Result<(), HostMemory> {
        scripts.add_outside()
    }
}

/// Returns the tasks if all lines were read, else the status that reading ended with.
fn told(read: Result<Status, HostMemory>, scripts: Scripts) -> Result<Scripts, Status>
    ensures { result ≡ lists_or_status read scripts }
{
    match read {
        Ok(Status::Done) => Ok(scripts),
        Ok(status) => Err(status),
        Err(_) => Err(Status::HostMemory),
    }
}

/// Reads a whole input of at most `INPUT_BYTES` bytes, and answers the tasks of its lines. Else the status that reading ends
/// with: `HostMemory` if the host has too little memory, `ReadFault` if the source fails, `ScriptLimit` if it gives more bytes.
pub(crate) fn read_input<S: Source>(alloc: Global, source: &mut S) -> Result<Scripts, Status>
    ensures read { MatchResult result (λ scripts. Gathers scripts (S.remaining source.old) (S.remaining source.new))
        (λ status. EndsReading status (S.remaining source.old) (S.remaining source.new)) }
    ensures few { IfOk result (λ scripts. task_count scripts < 2 ^ 32) }
    ensures cause { result ≡ Err Status.ReadFault → HasFailed (S.faults source.old) (S.faults source.new) }
{
    let Ok(mut lines) = Lines::new(alloc, INPUT_BYTES) else {
        return Err(Status::HostMemory);
    };
    let mut scripts = Scripts::new(alloc);
    let (mut store, mut sink) = ((), ());
    let read = read_lines::<Gather, Scripts, (), (), HostMemory, S>(
        &mut lines,
        &mut scripts,
        &mut store,
        source,
        &mut sink,
    );
    told(read, scripts)
}
