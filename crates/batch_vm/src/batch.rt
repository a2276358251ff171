//! The machine with jobs, and its step.

ghost use Rattle.std.specs.Prelude.{◌≡◌, ◌+◌, ◌<◌, ◌≤◌, length, None};
ghost use Rattle.vm_base.specs.declared.limits.TheConstants.{DATA_BYTES, KOIDS, PIN_PAGES};

use crate::beginning::{JobRequest, begin};
use crate::job_table::JobTable;
use crate::stepping::{PieceRequest, do_piece, drop_job};
use batch_model::{BatchAnswer, BatchCall, BatchCommand, BatchReply};
use page_store::PageStore;
use std::alloc::Global;
use std::marker::Model;
use vm_base::{DATA_BYTES, PIN_PAGES};
use vm_core::Vm;

/// A machine, and the jobs that were begun on its VMOs. One `step` is one event.
#[derive(Drop)]
pub struct Batch {
    vm: Vm,
    jobs: JobTable,
}

impl Model for Batch {
    ghost use Rattle.batch_vm.specs.Batch.{BatchParts};

    ghost Value = { BatchParts };

    ghost use Rattle.batch_vm.specs.BatchFields.{batch_parts_of, HasGoodJobs};

    ghost view = { batch_parts_of };

    ghost invariant = { HasGoodJobs };
}

impl Batch {
    ghost use Rattle.vm_model.specs.Contents.Content.{Content, HasNoVmo};
    ghost use Rattle.vm_core.specs.Vm.{Agrees, bare_machine};
    ghost use Rattle.batch_model.specs.Batch.{BatchStep, IsGoodBatch, empty_batch};
    ghost use Rattle.batch_vm.specs.Batch.{batch_of};

    /// Makes a machine with no jobs and nothing else. It agrees with every store that has no VMO, whatever its next koid is,
    /// from 1 on, as `PageStore::next_koid` says of any store. If that is 1, they are the empty machine with jobs.
    pub fn new(alloc: Global) -> Batch
        ensures bare { (c : Content) → batch_of c result ≡ record { machine = bare_machine c; jobs = λ n. None } }
        ensures agrees { (c : Content) → HasNoVmo c → 1 ≤ c.next → Agrees c result.vm }
        ensures empty { (c : Content) → HasNoVmo c → c.next ≡ 1 → batch_of c result ≡ empty_batch c.frames }
    {
        Batch {
            vm: Vm::new(alloc),
            jobs: JobTable::new(alloc),
        }
    }

    /// Does one event of the machine with jobs whole: a command is refused and nothing changes, or it has its effect, or the
    /// host lacks memory for it and nothing changes. A piece of a job is the plain command on its pages, so it is refused as
    /// that would be, and then the job is as it was. The store is the one that holds the VMOs of the names.
    pub fn step<P: PageStore>(&mut self, store: &mut P, command: &BatchCommand) -> BatchReply
        requires agrees { Agrees (P.content store.old) self.old.vm }
        requires next { (P.content store.old).next < KOIDS }
        ensures step { BatchStep (batch_of (P.content store.old) self.old) command.now result
            (batch_of (P.content store.new) self.new) }
        ensures agrees { Agrees (P.content store.new) self.new.vm }
        ensures good { IsGoodBatch (batch_of (P.content store.new) self.new) }
        ensures next { (P.content store.new).next ≤ (P.content store.old).next + 1 }
    {
        let mut bytes = [0; DATA_BYTES];
        let mut numbers = [0; PIN_PAGES];
        self.answer(store, &command.lend(), &mut bytes, &mut numbers)
            .into_owned()
    }

    /// Does the event of `step` for a command whose bytes are lent. The answer lends what was read of `bytes`, which
    /// has room for `DATA_BYTES` bytes, and the frames of pinned pages of `numbers`, which has room for `PIN_PAGES`.
    pub fn answer<'a, P: PageStore>(
        &mut self,
        store: &mut P,
        call: &BatchCall<'_>,
        bytes: &'a mut [u8],
        numbers: &'a mut [u64],
    ) -> BatchAnswer<'a>
        requires agrees { Agrees (P.content store.old) self.old.vm }
        requires next { (P.content store.old).next < KOIDS }
        requires bytes { DATA_BYTES ≤ length bytes.old }
        requires numbers { PIN_PAGES ≤ length numbers.old }
        ensures step { BatchStep (batch_of (P.content store.old) self.old) call.now result
            (batch_of (P.content store.new) self.new) }
        ensures agrees { Agrees (P.content store.new) self.new.vm }
        ensures good { IsGoodBatch (batch_of (P.content store.new) self.new) }
        ensures next { (P.content store.new).next ≤ (P.content store.old).next + 1 }
    {
        match call {
            BatchCall::Plain(call) => {
                BatchAnswer::Plain(self.vm.answer(store, call, bytes, numbers))
            }
            BatchCall::Begin {
                job,
                kind,
                name,
                offset,
                len,
            } => {
                let request = JobRequest {
                    job: *job,
                    kind: *kind,
                    name: *name,
                    offset: *offset,
                    len: *len,
                };
                begin(store, &mut self.vm, &mut self.jobs, request, bytes, numbers)
            }
            BatchCall::Step { job, pages } => {
                let request = PieceRequest {
                    job: *job,
                    pages: *pages,
                };
                do_piece(store, &mut self.vm, &mut self.jobs, request, bytes, numbers)
            }
            BatchCall::Drop { job } => drop_job(&mut self.jobs, *job),
        }
    }
}
