//! Working through a workload.

ghost use Rattle.std.specs.Prelude.{◌≡◌, ◌≢◌, ◌+◌, ◌^◌, ◌<◌, ◌≤◌, ℕ, [], Option, List};
ghost use Rattle.script_io.specs.Faults.{HasFailed};
ghost use Rattle.vm_base.specs.declared.limits.TheConstants.{KOIDS, WORK_COUNT};
ghost use Rattle.vm_model.specs.Contents.Content.{nothing};
ghost use Rattle.vm_model.specs.Machine.Machine.{IsGoodMachine};
ghost use Rattle.vm_core.specs.Vm.{Agrees, machine_of};
ghost use Rattle.vm_session.specs.Outcome.{WorkEndsAs};
ghost use Rattle.vm_session.specs.inside.Working.{StepsOn};

use crate::rooms::Rooms;
use crate::tally::{Tally, write_tally};
use crate::workload::{call_for, number_after};
use page_store::PageStore;
use script_io::{Sink, Status, push_all};
use std::alloc::Global;
use vm_base::FRAMES;
use vm_core::Vm;

/// Does `count` commands that are generated from a number, one after another, on a machine with `frames` page frames,
/// from 1 to 65,536, and pushes the line that says what became of them.
///
/// `HostMemory` if the host has too little memory for the buffers and the frames. `WriteFault` if the sink fails.
pub(crate) fn work<P: PageStore, K: Sink>(
    alloc: Global,
    frames: u32,
    number: u64,
    count: u64,
    store: &mut P,
    sink: &mut K,
) -> Status
    requires empty { P.content store.old ≡ nothing }
    requires frames { 1 ≤ frames × frames ≤ FRAMES }
    requires count { count ≤ WORK_COUNT }
    ensures ends { (source : Option (List ℕ)) → WorkEndsAs result frames number count source source
        (K.contents sink.old) (K.contents sink.new) (P.content store.new) }
    ensures write_cause { result ≡ Status.WriteFault → HasFailed (K.faults sink.old) (K.faults sink.new) }
    ensures host_memory { result ≡ Status.HostMemory → sink.new ≡ sink.old }
    ensures others { (result ≢ Status.Usage) × (result ≢ Status.ReadFault) }
{
    let Ok(mut boxed) = Rooms::new(alloc) else {
        return Status::HostMemory;
    };
    let Ok(()) = store.fill(frames) else {
        return Status::HostMemory;
    };
    let mut vm = Vm::new(alloc);
    let rooms = boxed.as_mut();
    let tally = work_through(store, &mut vm, number, count, rooms);
    // By one call: at the end of the body its tables would be dropped one by one, each with a proof.
    drop(vm);
    let end = write_tally(tally, store, &mut rooms.reply);
    match push_all(sink, &rooms.reply[..end]) {
        Ok(()) => Status::Done,
        Err(_) => Status::WriteFault,
    }
}

/// Does the commands, and counts what became of them.
fn work_through<P: PageStore>(
    store: &mut P,
    vm: &mut Vm,
    number: u64,
    count: u64,
    rooms: &mut Rooms,
) -> Tally
    requires agrees { Agrees (P.content store.old) vm.old }
    requires next { (P.content store.old).next + count ≤ KOIDS }
    requires count { count < 2 ^ 63 }
    ensures steps { StepsOn (machine_of (P.content store.old) vm.old) number count result []
        (machine_of (P.content store.new) vm.new) }
    ensures good { IsGoodMachine (machine_of (P.content store.new) vm.new) }
{
    let mut tally = Tally {
        ok: 0,
        refused: 0,
        host: 0,
    };
    let mut x = number;
    for _ in 0..count {
        x = number_after(x);
        let answer = vm.answer(store, &call_for(x), &mut rooms.read, &mut rooms.pinned);
        tally.add(&answer);
    }
    tally
}
