//! The step of a job, and giving a job up.

ghost use Rattle.std.specs.Prelude.{◌≡◌, ◌+◌, ◌<◌, ◌≤◌, length, Some};
ghost use Rattle.vm_base.specs.declared.limits.TheConstants.{DATA_BYTES, KOIDS, PIN_PAGES};
ghost use Rattle.vm_model.specs.Machine.Machine.{Machine};
ghost use Rattle.vm_core.specs.Vm.{Agrees};
ghost use Rattle.batch_model.specs.declared.command.BatchCommand.TheVariants as BatchCommand;
ghost use Rattle.batch_model.specs.declared.job.Job.{Job as JobSpec};
ghost use Rattle.batch_model.specs.Batch.{BatchStep, PieceGives, AreGoodJobs};
ghost use Rattle.batch_vm.specs.Batch.{DoesBatch};
ghost use Rattle.batch_vm.specs.Jobs.{jobs_of};

use crate::job_table::JobTable;
use crate::pieces::{pages_left, piece_call, piece_len};
use batch_model::{BatchAnswer, Job, JobName};
use page_store::PageStore;
use vm_base::Refusal;
use vm_core::Vm;
use vm_model::Answer;

/// Notes what the machine answered to a piece of `len` bytes of a job that is there. Where the piece is done, the job has got
/// behind it, and goes if no page is left. Else the job is as it was.
fn note_piece<'a>(
    table: &mut JobTable,
    name: JobName,
    held: Job,
    len: u64,
    answer: Answer<'a>,
) -> BatchAnswer<'a>
    requires there { jobs_of table.old name.0 ≡ Some held }
    requires inside { held.next + len ≤ held.end }
    ensures { PieceGives answer.entry (jobs_of table.old) name.0 (record held { next = held.next + len })
        result (jobs_of table.new) }
{
    match answer {
        Answer::Done => {
            let now = Job {
                next: held.next + len,
                ..held
            };
            table.advance(name, now);
            BatchAnswer::Left(pages_left(&now))
        }
        refused => BatchAnswer::Plain(refused),
    }
}

/// The next `pages` pages of a job that are to be done. They may be more than are left.
#[derive(Clone, Copy)]
pub struct PieceRequest {
    pub job: JobName,
    pub pages: u64,
}

/// Does the next pages of a job, or all that are left if these are fewer, as the plain command on them. The answer lends what it
/// reads of `bytes` and `numbers`.
pub fn do_piece<'a, P: PageStore>(
    store: &mut P,
    vm: &mut Vm,
    table: &mut JobTable,
    request: PieceRequest,
    bytes: &'a mut [u8],
    numbers: &'a mut [u64],
) -> BatchAnswer<'a>
    requires agrees { Agrees (P.content store.old) vm.old }
    requires next { (P.content store.old).next < KOIDS }
    requires jobs { AreGoodJobs (jobs_of table.old) }
    requires bytes { DATA_BYTES ≤ length bytes.old }
    requires numbers { PIN_PAGES ≤ length numbers.old }
    ensures { DoesBatch (P.content store.old) (record { vm = vm.old; jobs = table.old }) (BatchCommand.Step request.job request.pages)
        result (P.content store.new) (record { vm = vm.new; jobs = table.new }) }
{
    let Some(held) = table.find(request.job) else {
        return BatchAnswer::Plain(Answer::Refused(Refusal::BadHandle));
    };
    if request.pages == 0 {
        return BatchAnswer::Plain(Answer::Refused(Refusal::InvalidArgs));
    }
    let len = piece_len(&held, request.pages);
    let answer = vm.answer(store, &piece_call(&held, len), bytes, numbers);
    note_piece(table, request.job, held, len, answer)
}

/// Gives a job up. What was done of it stays so.
pub fn drop_job(table: &mut JobTable, job: JobName) -> BatchAnswer<'static>
    ensures { (m : Machine) → BatchStep (record { machine = m; jobs = jobs_of table.old }) (BatchCommand.Drop job)
        result (record { machine = m; jobs = jobs_of table.new }) }
{
    if table.find(job).is_none() {
        return BatchAnswer::Plain(Answer::Refused(Refusal::BadHandle));
    }
    table.remove(job);
    BatchAnswer::Plain(Answer::Done)
}
