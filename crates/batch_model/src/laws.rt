//! What holds of the definitions alone. Each law is the contract of a function that does nothing.

ghost use Rattle.std.specs.Prelude.{ℕ, List, ◌≡◌, ◌%◌, ◌-◌, cond, None, Some};
ghost use Rattle.vm_base.specs.declared.limits.TheConstants.{PAGE};
ghost use Rattle.vm_base.specs.declared.names.VmoName.{VmoName};
ghost use Rattle.vm_model.specs.Contents.Zeroing.{is_whole};
ghost use Rattle.vm_model.specs.Machine.Machine.{IsGoodMachine};
ghost use Rattle.vm_model.specs.Machine.MachineStep.{MachineStep};
ghost use Rattle.vm_model.specs.Machine.Refusals.{refusals, first_of};
ghost use Rattle.vm_model.specs.declared.reply.Reply.TheVariants.{Done};
ghost use Rattle.batch_model.specs.BatchWords.{BatchCommand, BatchReply};
ghost use Rattle.batch_model.specs.declared.command.BatchCommand.TheVariants.{Begin};
ghost use Rattle.batch_model.specs.declared.command.BatchReply.TheVariants.{Left};
ghost use Rattle.batch_model.specs.declared.job.Job.{Job};
ghost use Rattle.batch_model.specs.declared.job.JobKind.{JobKind};
ghost use Rattle.batch_model.specs.declared.job.JobName.{JobName};
ghost use Rattle.batch_model.specs.Pieces.{plain_command, begun, whole_of, IsOfPages};
ghost use Rattle.batch_model.specs.Batch.{BatchState, BatchStep, IsGoodBatch, HasBatchRanges};
ghost use Rattle.batch_model.specs.BatchRuns.{BatchEvent, BatchRun, last_batch, MachineRun, machine_events, last_machine, Lasts, Part, job_parts, Tiles, times_in, AreTurns, NoneRefused};

/// States that a run of the machine with jobs is a run of the machine over the plain commands and the pieces, in their order.
/// Nothing else changes the machine.
pub fn a_run_is_one_of_the_machine()
    ensures run { (old : BatchState) (events : List BatchEvent) → BatchRun old events →
        MachineRun old.machine (machine_events old events) }
    ensures last { (old : BatchState) (events : List BatchEvent) → BatchRun old events →
        last_machine old.machine (machine_events old events) ≡ (last_batch old events).machine }
{}

/// States that the pieces of a job that came to its end, without those that were refused, are whole pages, and each begins
/// where the one before it ends, whatever other commands came between. So each page of the range is in exactly one of them,
/// and no other page is in any.
pub fn pieces_tile_the_range()
    ensures tiles { (old : BatchState) (name : ℕ) (job : Job) (events : List BatchEvent) →
        old.jobs name ≡ Some job → IsOfPages job → BatchRun old events → Lasts name old events →
        (last_batch old events).jobs name ≡ None → Tiles job.next (job_parts name old events) job.end }
    ensures once { (first end p : ℕ) (parts : List Part) → first % PAGE ≡ 0 → Tiles first parts end →
        times_in p parts ≡ cond (is_whole first (end - first) p) 1 0 }
{}

/// States that, if nothing but host memory would refuse the plain command on all that is left of a job, nothing else refuses
/// a piece of it, with no other command between. Once its last piece is done, the plain command has led to the same machine.
/// A piece that the host lacks memory for may be tried again.
pub fn pieces_are_the_whole()
    ensures pieces { (old : BatchState) (name : ℕ) (job : Job) (events : List BatchEvent) →
        IsGoodMachine old.machine → old.jobs name ≡ Some job → IsOfPages job →
        first_of (refusals old.machine.state (whole_of job)) ≡ None →
        BatchRun old events → AreTurns name old events → NoneRefused events }
    ensures whole { (old : BatchState) (name : ℕ) (job : Job) (events : List BatchEvent) →
        IsGoodMachine old.machine → old.jobs name ≡ Some job → IsOfPages job →
        first_of (refusals old.machine.state (whole_of job)) ≡ None →
        BatchRun old events → AreTurns name old events → (last_batch old events).jobs name ≡ None →
        MachineStep old.machine (whole_of job) Done (last_batch old events).machine }
{}

/// States that a job that is begun is there with all of its range left, whole pages, and the machine is as it was. The plain
/// command on what is left is the one on the range that was asked for.
pub fn a_job_begins_whole()
    ensures begins { (old new : BatchState) (job : JobName) (kind : JobKind) (name : VmoName) (offset len left : ℕ) →
        BatchStep old (Begin job kind name offset len) (Left left) new →
        (new.machine ≡ old.machine) × (new.jobs job.0 ≡ Some (begun kind name offset len)) × IsOfPages (begun kind name offset len) }
    ensures whole { (kind : JobKind) (name : VmoName) (offset len : ℕ) →
        whole_of (begun kind name offset len) ≡ plain_command kind name offset len }
{}

/// States that a step, by a command whose fields are within their types, leads from a good machine with good jobs to another.
/// So what the laws above ask of the machine and of the job holds of all that is come to.
pub fn a_step_keeps_the_batch_good()
    ensures { (old new : BatchState) (command : BatchCommand) (reply : BatchReply) →
        IsGoodBatch old → HasBatchRanges command → BatchStep old command reply new → IsGoodBatch new }
{}
