//! What a checker of transcripts rests on: the checker's machine, which stands for all that may have answered so.

ghost use Rattle.std.specs.Prelude.{◌≡◌, ◌++◌, ◌<◌, ◌≤◌, ◌^◌, ℕ, true, false, List, [], ◌∷◌, map, Option, None};
ghost use Rattle.std.specs.List.{AllByRecursion};
ghost use Rattle.vm_base.specs.declared.limits.TheConstants.{NAMES};
ghost use Rattle.vm_base.specs.declared.names.PinName.{PinName};
ghost use Rattle.vm_base.specs.declared.names.VmoName.{VmoName};
ghost use Rattle.vm_base.specs.declared.refusal.Refusal.{Refusal};
ghost use Rattle.vm_base.specs.declared.refusal.Refusal.TheVariants.{Syntax};
ghost use Rattle.vm_model.specs.Machine.Words.{Command, Reply};
ghost use Rattle.vm_model.specs.declared.reply.Reply.TheVariants as Reply;
ghost use Rattle.vm_model.specs.declared.command.Command.TheVariants as Command;
ghost use Rattle.vm_model.specs.Language.Reading.{reading, Blank, Order, Outside};
ghost use Rattle.vm_model.specs.Language.Text.{reply_lines};
ghost use Rattle.vm_model.specs.Machine.Given.{GivesName};
ghost use Rattle.vm_model.specs.Machine.Machine.{Machine, empty_machine, IsGoodMachine};
ghost use Rattle.vm_model.specs.Machine.MachineStep.{MachineStep};
ghost use Rattle.moving_model.specs.Moving.{MovingStep, TellsNoFrames, tells_choice, tells_place};
ghost use Rattle.moving_model.specs.Transcript.{Told, Asked, Answered, MayBegin};
ghost use Rattle.moving_model.specs.Standing.{StandsFor, with_seen, Fits, may_tell, AreSeen, AreLeft};
ghost use Rattle.moving_model.specs.Following.{Follows, MayAnswer};

/// States that, after a step of the checker's machine whose reply tells no frames, it stands for exactly those machines
/// to which a machine may come with this reply for which it stood before.
pub fn a_step_is_one_of_all_that_it_stands_for()
    ensures forth { (own next : Machine) (command : Command) (reply : Reply) → IsGoodMachine own → GivesName command →
        TellsNoFrames reply → MachineStep own command reply next → (numbers : ℕ → Option ℕ) (other : Machine) →
        StandsFor own numbers other → (later : Machine) → MovingStep other command reply later → StandsFor next numbers later }
    ensures back { (own next : Machine) (command : Command) (reply : Reply) → IsGoodMachine own → GivesName command →
        TellsNoFrames reply → MachineStep own command reply next → (numbers : ℕ → Option ℕ) (other : Machine) →
        StandsFor own numbers other → (later : Machine) → StandsFor next numbers later → MovingStep other command reply later }
{}

/// States the same of a pin, whose frames are given. The numbers must fit what was seen before.
pub fn a_pin_is_one_of_all_that_it_stands_for()
    ensures forth { (own next : Machine) (pin : PinName) (name : VmoName) (offset len : ℕ) (mine : List ℕ) →
        IsGoodMachine own → pin.0 < NAMES → MachineStep own (Command.VmoPin pin name offset len) (Reply.Pins mine) next →
        (numbers : ℕ → Option ℕ) (other : Machine) → StandsFor own numbers other → (told : List ℕ) (later : Machine) →
        MovingStep other (Command.VmoPin pin name offset len) (Reply.Pins told) later →
        Fits own numbers mine told × StandsFor next (with_seen numbers mine told) later }
    ensures back { (own next : Machine) (pin : PinName) (name : VmoName) (offset len : ℕ) (mine : List ℕ) →
        IsGoodMachine own → pin.0 < NAMES → MachineStep own (Command.VmoPin pin name offset len) (Reply.Pins mine) next →
        (numbers : ℕ → Option ℕ) (told : List ℕ) → Fits own numbers mine told → (later : Machine) →
        StandsFor next (with_seen numbers mine told) later →
        (other : Machine) × StandsFor own numbers other × MovingStep other (Command.VmoPin pin name offset len) (Reply.Pins told) later }
{}

/// States that whether numbers fit is found one number after another.
pub fn what_fits_is_told_one_after_another()
    ensures fits { (own : Machine) (numbers : ℕ → Option ℕ) (mine told : List ℕ) → AreSeen own numbers →
        AllByRecursion (λ t. t < own.state.content.frames) mine →
        may_tell own.state.content.frames numbers mine told ≡ true → Fits own numbers mine told }
    ensures tells { (own : Machine) (numbers : ℕ → Option ℕ) (mine told : List ℕ) → AreSeen own numbers →
        AllByRecursion (λ t. t < own.state.content.frames) mine →
        Fits own numbers mine told → may_tell own.state.content.frames numbers mine told ≡ true }
{}

/// States that the numbers that were seen are those of the frames of pinned pages. So it is at the beginning, after a
/// pin, and after a step that tells no frames, once those of other frames are forgotten.
pub fn what_was_seen_is_of_pinned_pages()
    ensures begins { (frames : ℕ) → AreSeen (empty_machine frames) (λ t. None) }
    ensures left { (own next : Machine) (command : Command) (reply : Reply) → IsGoodMachine own → GivesName command →
        TellsNoFrames reply → MachineStep own command reply next → (numbers : ℕ → Option ℕ) (other : Machine) →
        StandsFor own numbers other → (later : ℕ → Option ℕ) → AreSeen own numbers → AreLeft next numbers later → AreSeen next later }
    ensures pins { (own next : Machine) (pin : PinName) (name : VmoName) (offset len : ℕ) (mine : List ℕ) →
        IsGoodMachine own → pin.0 < NAMES → MachineStep own (Command.VmoPin pin name offset len) (Reply.Pins mine) next →
        (numbers : ℕ → Option ℕ) (told : List ℕ) → Fits own numbers mine told → AreSeen own numbers →
        AreSeen next (with_seen numbers mine told) }
{}

/// States that the checker's machine follows a transcript, turn by turn, from no lines on. A turn is a blank line, a
/// line outside the grammar, a command that tells no choice, a refusal, a place, or a pin whose numbers fit. It still
/// follows if it forgets what is no longer pinned.
pub fn the_own_machine_follows_a_transcript()
    ensures begins { (frames : ℕ) (numbers : ℕ → Option ℕ) → Follows frames (empty_machine frames) numbers [] }
    ensures blank { (frames : ℕ) (own : Machine) (numbers : ℕ → Option ℕ) (tells : List Told) (line : List ℕ) →
        Follows frames own numbers tells → reading line ≡ Blank → Follows frames own numbers (tells ++ Asked line ∷ []) }
    ensures outside { (frames : ℕ) (own : Machine) (numbers : ℕ → Option ℕ) (tells : List Told) (line : List ℕ) →
        Follows frames own numbers tells → reading line ≡ Outside →
        Follows frames own numbers (tells ++ Asked line ∷ map Answered (reply_lines (Reply.Refused Syntax))) }
    ensures plain { (frames : ℕ) (own next : Machine) (numbers : ℕ → Option ℕ) (tells : List Told) (line : List ℕ)
        (command : Command) (reply : Reply) → Follows frames own numbers tells → IsGoodMachine own →
        reading line ≡ Order command → tells_choice command ≡ false → MachineStep own command reply next →
        Follows frames next numbers (tells ++ Asked line ∷ map Answered (reply_lines reply)) }
    ensures refused { (frames : ℕ) (own : Machine) (numbers : ℕ → Option ℕ) (tells : List Told) (line : List ℕ)
        (command : Command) (refusal : Refusal) → Follows frames own numbers tells → IsGoodMachine own →
        reading line ≡ Order command → MachineStep own command (Reply.Refused refusal) own →
        Follows frames own numbers (tells ++ Asked line ∷ map Answered (reply_lines (Reply.Refused refusal))) }
    ensures placed { (frames : ℕ) (own next : Machine) (numbers : ℕ → Option ℕ) (tells : List Told) (line : List ℕ)
        (command : Command) (address : ℕ) → Follows frames own numbers tells → IsGoodMachine own →
        reading line ≡ Order command → tells_place command ≡ true → MachineStep own command (Reply.Address address) next →
        Follows frames next numbers (tells ++ Asked line ∷ map Answered (reply_lines (Reply.Address address))) }
    ensures pins { (frames : ℕ) (own next : Machine) (numbers : ℕ → Option ℕ) (tells : List Told) (line : List ℕ)
        (pin : PinName) (name : VmoName) (offset len : ℕ) (mine told : List ℕ) → Follows frames own numbers tells →
        IsGoodMachine own → own.state.content.frames ≤ 2 ^ 64 →
        reading line ≡ Order (Command.VmoPin pin name offset len) →
        MachineStep own (Command.VmoPin pin name offset len) (Reply.Pins mine) next → Fits own numbers mine told →
        Follows frames next (with_seen numbers mine told) (tells ++ Asked line ∷ map Answered (reply_lines (Reply.Pins told))) }
    ensures left { (frames : ℕ) (own : Machine) (numbers later : ℕ → Option ℕ) (tells : List Told) →
        Follows frames own numbers tells → AreLeft own numbers later → Follows frames own later tells }
{}

/// States what may not follow. Behind whole turns no reply line may come. Behind a line of a script only one may come
/// that a machine gives for which the checker's machine stands. A second line of a script may come only if the first is
/// blank.
pub fn what_may_not_follow()
    ensures due { (frames : ℕ) (own : Machine) (numbers : ℕ → Option ℕ) (tells : List Told) (line : List ℕ) (more : List Told) →
        Follows frames own numbers tells → MayBegin frames (tells ++ Answered line ∷ more) → ⊥ }
    ensures answered { (frames : ℕ) (own : Machine) (numbers : ℕ → Option ℕ) (tells : List Told) (line first : List ℕ)
        (more : List Told) → Follows frames own numbers tells →
        MayBegin frames (tells ++ Asked line ∷ Answered first ∷ more) → MayAnswer own numbers line first }
    ensures asked { (frames : ℕ) (own : Machine) (numbers : ℕ → Option ℕ) (tells : List Told) (line next : List ℕ)
        (more : List Told) → Follows frames own numbers tells →
        MayBegin frames (tells ++ Asked line ∷ Asked next ∷ more) → reading line ≡ Blank }
{}
