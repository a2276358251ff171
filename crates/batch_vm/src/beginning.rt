//! Beginning a job.

ghost use Rattle.std.specs.Prelude.{◌≡◌, ◌+◌, ◌*◌, ◌%◌, ◌==◌, ◌&&◌, ◌||◌, ◌<◌, ◌≤◌, not, nat_lt, true, false, [], ◌∷◌, length, None};
ghost use Rattle.vm_base.specs.declared.limits.TheConstants.{DATA_BYTES, KOIDS, PAGE, PIN_PAGES, VMO_PAGES};
ghost use Rattle.vm_base.specs.declared.refusal.Refusal.TheVariants.{NameInUse, InvalidArgs, OutOfRange};
ghost use Rattle.vm_model.specs.Machine.Machine.{Machine, IsGoodMachine};
ghost use Rattle.vm_model.specs.Machine.Refusals.{first_of};
ghost use Rattle.vm_model.specs.Machine.State.{is_open, size_of};
ghost use Rattle.vm_core.specs.Vm.{Agrees, machine_of};
ghost use Rattle.batch_model.specs.declared.command.BatchCommand.TheVariants as BatchCommand;
ghost use Rattle.batch_model.specs.Batch.{BatchStep};
ghost use Rattle.batch_vm.specs.Batch.{DoesBatch, TellsSize};
ghost use Rattle.batch_vm.specs.Jobs.{jobs_of};

use crate::job_table::JobTable;
use batch_model::{BatchAnswer, Job, JobKind, JobName};
use page_store::PageStore;
use vm_base::{PAGE, Refusal, VmoName};
use vm_core::Vm;
use vm_model::{Answer, Call};

/// Returns the size in bytes of what a name stands for, as the machine has it. `None` exactly if the name is not open.
fn size_of<P: PageStore>(
    store: &mut P,
    vm: &mut Vm,
    name: VmoName,
    bytes: &mut [u8],
    numbers: &mut [u64],
) -> Option<u64>
    requires agrees { Agrees (P.content store.old) vm.old }
    requires next { (P.content store.old).next < KOIDS }
    requires bytes { DATA_BYTES ≤ length bytes.old }
    requires numbers { PIN_PAGES ≤ length numbers.old }
    ensures size { TellsSize (machine_of (P.content store.old) vm.old).state name result }
    ensures same { machine_of (P.content store.new) vm.new ≡ machine_of (P.content store.old) vm.old }
    ensures agrees { Agrees (P.content store.new) vm.new }
    ensures good { IsGoodMachine (machine_of (P.content store.new) vm.new) }
    ensures next { (P.content store.new).next ≤ (P.content store.old).next + 1 }
{
    match vm.answer(store, &Call::VmoSize { name }, bytes, numbers) {
        Answer::Number(size) => Some(size),
        _ => None,
    }
}

/// Reports whether a range ends behind a name of this size in bytes. Its end may pass 2^64.
fn is_past(offset: u64, len: u64, size: u64) -> bool
    ensures { result ≡ nat_lt size (offset + len) }
{
    match offset.checked_add(len) {
        Some(end) => size < end,
        None => true,
    }
}

/// Returns why a job on a range of an open name of this size is refused, if it is.
fn begin_refusal(is_there: bool, offset: u64, len: u64, size: u64) -> Option<Refusal>
    ensures { result ≡ first_of ((is_there, NameInUse)
        ∷ (not (offset % PAGE == 0 && len % PAGE == 0) || len == 0, InvalidArgs)
        ∷ (nat_lt size (offset + len), OutOfRange) ∷ []) }
{
    if is_there {
        return Some(Refusal::NameInUse);
    }
    if !(offset % PAGE == 0 && len % PAGE == 0) || len == 0 {
        return Some(Refusal::InvalidArgs);
    }
    if is_past(offset, len, size) {
        return Some(Refusal::OutOfRange);
    }
    None
}

/// A job that is asked for, on `len` bytes of what a name stands for, from an offset in bytes on.
#[derive(Clone, Copy, Debug)]
pub struct JobRequest {
    pub job: JobName,
    pub kind: JobKind,
    pub name: VmoName,
    pub offset: u64,
    pub len: u64,
}

/// Begins a job on a name that is open and has this size in bytes.
fn begin_open(table: &mut JobTable, request: JobRequest, size: u64) -> BatchAnswer<'static>
    ensures { (m : Machine) → is_open m.state request.name.0 ≡ true → size ≡ size_of m.state request.name.0 →
        BatchStep (record { machine = m; jobs = jobs_of table.old })
        (BatchCommand.Begin request.job request.kind request.name request.offset request.len)
        result (record { machine = m; jobs = jobs_of table.new }) }
{
    let is_there = table.find(request.job).is_some();
    if let Some(refusal) = begin_refusal(is_there, request.offset, request.len, size) {
        return BatchAnswer::Plain(Answer::Refused(refusal));
    }
    let begun = Job {
        kind: request.kind,
        name: request.name,
        next: request.offset,
        end: request.offset + request.len,
    };
    match table.add(request.job, begun) {
        Ok(()) => BatchAnswer::Left(request.len / PAGE),
        Err(_) => BatchAnswer::Plain(Answer::Refused(Refusal::HostMemory)),
    }
}

/// Begins a job on a range of a name. None of its pages is done yet. `bytes` and `numbers` are room for an answer of the machine.
pub fn begin<P: PageStore>(
    store: &mut P,
    vm: &mut Vm,
    table: &mut JobTable,
    request: JobRequest,
    bytes: &mut [u8],
    numbers: &mut [u64],
) -> BatchAnswer<'static>
    requires agrees { Agrees (P.content store.old) vm.old }
    requires next { (P.content store.old).next < KOIDS }
    requires bytes { DATA_BYTES ≤ length bytes.old }
    requires numbers { PIN_PAGES ≤ length numbers.old }
    ensures { DoesBatch (P.content store.old) (record { vm = vm.old; jobs = table.old })
        (BatchCommand.Begin request.job request.kind request.name request.offset request.len)
        result (P.content store.new) (record { vm = vm.new; jobs = table.new }) }
{
    let Some(size) = size_of(store, vm, request.name, bytes, numbers) else {
        return BatchAnswer::Plain(Answer::Refused(Refusal::BadHandle));
    };
    begin_open(table, request, size)
}
