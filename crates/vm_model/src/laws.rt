//! What holds of the definitions alone. Each law is the contract of a function that does nothing.

ghost use Rattle.std.specs.Prelude.{true, ℕ, List, ◌≡◌, ◌≢◌, ◌+◌, ◌≤◌};
ghost use Rattle.std.specs.List.{AllByRecursion};
ghost use Rattle.vm_base.specs.declared.refusal.Refusal.TheVariants.{HostMemory};
ghost use Rattle.vm_model.specs.Machine.Words.{Command, Reply};
ghost use Rattle.vm_model.specs.declared.reply.Reply.TheVariants as Reply;
ghost use Rattle.vm_model.specs.Language.Reading.{reading, Order};
ghost use Rattle.vm_model.specs.Language.Spelling.{HasRanges, has_spelling, spelling};
ghost use Rattle.vm_model.specs.Machine.Machine.{Machine, empty_machine, IsGoodMachine};
ghost use Rattle.vm_model.specs.Machine.MachineStep.{MachineStep};
ghost use Rattle.vm_model.specs.Scripts.Run.{lines_of, Run};
ghost use Rattle.vm_model.specs.Language.Text.{texts};
ghost use Rattle.vm_model.specs.Scripts.Example.{example_script, example_text};

/// States that a machine with page frames and nothing else is good.
pub fn the_empty_machine_is_good()
    ensures { (frames : ℕ) → IsGoodMachine (empty_machine frames) }
{}

/// States that a step of the machine, by a command whose fields are within their types, leads from a good machine to a
/// good machine. It gives at most one koid, and the machine keeps its frames.
pub fn a_step_keeps_the_machine_good()
    ensures good { (old new : Machine) (command : Command) (reply : Reply) →
        IsGoodMachine old → HasRanges command → MachineStep old command reply new → IsGoodMachine new }
    ensures koids { (old new : Machine) (command : Command) (reply : Reply) →
        IsGoodMachine old → HasRanges command → MachineStep old command reply new →
        new.state.content.next ≤ old.state.content.next + 1 }
    ensures frames { (old new : Machine) (command : Command) (reply : Reply) →
        IsGoodMachine old → HasRanges command → MachineStep old command reply new →
        new.state.content.frames ≡ old.state.content.frames }
{}

/// States that the definitions are neither loose nor empty. On a machine with 1,024 frames each legal run over the
/// example's three lines in which the host had memory writes exactly its three replies, and there is such a run.
pub fn the_example_has_one_outcome()
    ensures only { (replies : List Reply) (last : Machine) →
        Run (empty_machine 1024) (lines_of example_script) replies last →
        AllByRecursion (λ r. r ≢ Reply.Refused HostMemory) replies → texts replies ≡ example_text }
    ensures exists { (replies : List Reply) × (last : Machine) ×
        Run (empty_machine 1024) (lines_of example_script) replies last
        × AllByRecursion (λ r. r ≢ Reply.Refused HostMemory) replies × (texts replies ≡ example_text) }
{}

/// States that what is spelled canonically is read back as the same command.
pub fn a_canonical_spelling_is_read_back()
    ensures { (command : Command) → HasRanges command → has_spelling command ≡ true →
        reading (spelling command) ≡ Order command }
{}
