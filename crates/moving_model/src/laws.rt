//! What holds of machines whose pages move. Each law is the contract of a function that does nothing.

ghost use Rattle.std.specs.Prelude.{◌≡◌, ◌⊎◌, ◌+◌, ◌<◌, ◌≤◌, ◌^◌, ◌++◌, ℕ, true, false, List, [], ◌∷◌, None, Some};
ghost use Rattle.std.specs.List.{AllByRecursion};
ghost use Rattle.vm_base.specs.declared.refusal.Refusal.TheVariants.{HostMemory};
ghost use Rattle.vm_model.specs.Machine.Words.{Command, Reply};
ghost use Rattle.vm_model.specs.declared.reply.Reply.TheVariants as Reply;
ghost use Rattle.vm_model.specs.Contents.Content.{Page};
ghost use Rattle.vm_model.specs.Language.Reading.{reading, Order};
ghost use Rattle.vm_model.specs.Naming.Pins.{is_pinned};
ghost use Rattle.vm_model.specs.Machine.State.{State, IsGoodState};
ghost use Rattle.vm_model.specs.Machine.Given.{GivesName};
ghost use Rattle.vm_model.specs.Machine.Refusals.{refusals, first_of};
ghost use Rattle.vm_model.specs.Machine.Machine.{Machine, IsGoodMachine};
ghost use Rattle.vm_model.specs.Machine.MachineStep.{may_want_memory, MachineStep};
ghost use Rattle.vm_model.specs.Scripts.Run.{Legal};
ghost use Rattle.moving_model.specs.Renaming.{Renaming, KeepsFrom, KeepsPinned, state_renamed, machine_renamed, reply_renamed};
ghost use Rattle.moving_model.specs.Moving.{MovingStep, HasMoved, MovingLegal, TellsNoFrames, tells_choice};
ghost use Rattle.moving_model.specs.Transcript.{Told, Asked, told, IsWhole, script_of, answers_of, ArePossible, AreWhole};

/// States that pages that move, seen one by one, are pages in renamed frames: each page shows its bytes and is held
/// where it was, frames are shared as they were, and pinned pages keep theirs. Renamed pages have moved so.
pub fn pages_that_moved_are_renamed()
    ensures renamed { (old new : State) → IsGoodState old → HasMoved old new →
        (r : Renaming) × KeepsFrom r old.content.frames × KeepsPinned r old × (new ≡ state_renamed r old) }
    ensures moved { (r : Renaming) (old : State) → IsGoodState old → KeepsFrom r old.content.frames →
        KeepsPinned r old → HasMoved old (state_renamed r old) }
{}

/// States that what is legal is legal where pages move: they may stay.
pub fn what_is_legal_is_legal_where_pages_move()
    ensures { (frames : ℕ) (lines : List (List ℕ)) (out : List ℕ) (last : Machine) →
        Legal frames lines out last → MovingLegal frames lines out }
{}

/// States that, if no reply tells frames, what is legal where pages move is legal where they stay.
pub fn moves_are_not_seen_where_no_frames_are_told()
    ensures { (frames : ℕ) (lines : List (List ℕ)) (out : List ℕ) (legal : MovingLegal frames lines out) →
        AllByRecursion TellsNoFrames legal.replies → (last : Machine) × Legal frames lines out last }
{}

/// States how a step looks under other numbers. Let one permutation of the frames of a good machine rename the frames
/// before and after a step of any command. What comes out is a step again, with the frames in the reply renamed. If the
/// pages that are pinned afterwards keep their frames, the reply is the same.
pub fn a_step_under_other_numbers_is_a_step()
    ensures renamed { (r : Renaming) (old new : Machine) (command : Command) (reply : Reply) →
        KeepsFrom r old.state.content.frames → IsGoodMachine old → GivesName command →
        MachineStep old command reply new →
        MachineStep (machine_renamed r old) command (reply_renamed r reply) (machine_renamed r new) }
    ensures same_reply { (r : Renaming) (old new : Machine) (command : Command) (reply : Reply) →
        KeepsFrom r old.state.content.frames → IsGoodMachine old → GivesName command →
        KeepsPinned r new.state → MachineStep old command reply new →
        MachineStep (machine_renamed r old) command reply (machine_renamed r new) }
{}

/// States that two steps of a good machine with one reply to one command lead to machines that differ by a renaming of
/// frames. It keeps the frames of the pages that were pinned before, and of those that are pinned then.
pub fn two_steps_with_one_reply_differ_by_a_renaming()
    ensures { (old one other : Machine) (command : Command) (reply : Reply) →
        IsGoodMachine old → GivesName command → MachineStep old command reply one → MachineStep old command reply other →
        (r : Renaming) × KeepsFrom r old.state.content.frames × KeepsPinned r old.state × KeepsPinned r one.state
        × (other ≡ machine_renamed r one) }
{}

/// States that a good machine has one reply to a command, except for the place where a region or a mapping is put, the
/// frames of a pin, and `HostMemory`.
pub fn a_reply_is_fixed_but_for_places_and_frames()
    ensures { (old one other : Machine) (command : Command) (reply again : Reply) →
        IsGoodMachine old → tells_choice command ≡ false →
        MachineStep old command reply one → MachineStep old command again other →
        (reply ≡ again) ⊎ (reply ≡ Reply.Refused HostMemory) ⊎ (again ≡ Reply.Refused HostMemory) }
{}

/// States that a page that is pinned before and after a step keeps its frame, also where pages move.
pub fn a_pinned_page_keeps_its_frame()
    ensures stays { (old new : Machine) (command : Command) (reply : Reply) → IsGoodMachine old →
        MachineStep old command reply new → (v p : ℕ) (before : Page) → old.state.content.page v p ≡ Some before →
        is_pinned old.state.pins v p ≡ true → is_pinned new.state.pins v p ≡ true →
        (after : Page) × (new.state.content.page v p ≡ Some after) × (after.tag ≡ before.tag) }
    ensures moving { (old new : Machine) (command : Command) (reply : Reply) → IsGoodMachine old →
        MovingStep old command reply new → (v p : ℕ) (before : Page) → old.state.content.page v p ≡ Some before →
        is_pinned old.state.pins v p ≡ true → is_pinned new.state.pins v p ≡ true →
        (after : Page) × (new.state.content.page v p ≡ Some after) × (after.tag ≡ before.tag) }
{}

/// States that a good machine has a reply to each command, be it `HostMemory`.
pub fn each_command_has_a_reply()
    ensures { (old : Machine) (command : Command) → IsGoodMachine old →
        (reply : Reply) × (new : Machine) × MachineStep old command reply new }
{}

/// States that `HostMemory` is a reply if nothing refuses the command and the command may run out of host memory, and
/// never else. It leaves the machine as it is.
pub fn want_of_memory_comes_only_where_it_may()
    ensures only { (old new : Machine) (command : Command) → MachineStep old command (Reply.Refused HostMemory) new →
        (first_of (refusals old.state command) ≡ None) × (may_want_memory old command ≡ true) × (new ≡ old) }
    ensures may { (old : Machine) (command : Command) → first_of (refusals old.state command) ≡ None →
        may_want_memory old command ≡ true → MachineStep old command (Reply.Refused HostMemory) old }
{}

/// States that a step where pages move leads from a good machine to a good machine. It gives at most one koid, and the
/// machine keeps its frames.
pub fn a_step_where_pages_move_keeps_the_machine_good()
    ensures good { (old new : Machine) (command : Command) (reply : Reply) →
        IsGoodMachine old → GivesName command → MovingStep old command reply new → IsGoodMachine new }
    ensures koids { (old new : Machine) (command : Command) (reply : Reply) →
        IsGoodMachine old → GivesName command → MovingStep old command reply new →
        new.state.content.next ≤ old.state.content.next + 1 }
    ensures frames { (old new : Machine) (command : Command) (reply : Reply) →
        IsGoodMachine old → GivesName command → MovingStep old command reply new →
        new.state.content.frames ≡ old.state.content.frames }
{}

/// States that a command that is read from a line gives a name that there is, if it gives one.
pub fn a_line_gives_a_name_that_there_is()
    ensures { (line : List ℕ) (command : Command) → reading line ≡ Order command → GivesName command }
{}

/// States that a whole transcript tells a script and a text that are legal where pages move. What is legal where pages
/// move is given by a whole transcript.
pub fn a_whole_transcript_is_legal()
    ensures legal { (frames : ℕ) (lines : List Told) (last : Machine) → IsWhole frames lines last →
        MovingLegal frames (script_of lines) (answers_of lines) }
    ensures whole { (frames : ℕ) (lines : List (List ℕ)) (out : List ℕ) → MovingLegal frames lines out →
        (tells : List Told) × (last : Machine) × IsWhole frames tells last
        × (script_of tells ≡ lines) × (answers_of tells ≡ out) }
{}

/// States that no lines are a transcript, a transcript is possible, and so is what a possible one begins with. Behind a
/// transcript each line of a script may come.
pub fn what_may_stand_in_a_transcript()
    ensures none { (frames : ℕ) → AreWhole frames [] }
    ensures whole { (frames : ℕ) (lines : List (List ℕ)) → AreWhole frames lines → ArePossible frames lines }
    ensures before { (frames : ℕ) (lines more : List (List ℕ)) → ArePossible frames (lines ++ more) → ArePossible frames lines }
    ensures asked { (frames : ℕ) (lines : List (List ℕ)) (line script : List ℕ) → AreWhole frames lines →
        told line ≡ Some (Asked script) → ArePossible frames (lines ++ line ∷ []) }
{}

/// States that an address that is given has 64 bits, also where pages move.
pub fn an_address_has_64_bits()
    ensures stays { (old new : Machine) (command : Command) (address : ℕ) → IsGoodMachine old →
        MachineStep old command (Reply.Address address) new → address < 2 ^ 64 }
    ensures moving { (old new : Machine) (command : Command) (address : ℕ) → IsGoodMachine old →
        MovingStep old command (Reply.Address address) new → address < 2 ^ 64 }
{}
