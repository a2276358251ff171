//! A law of what scripts are answered. It is the contract of a function that does nothing.

ghost use Rattle.std.specs.Prelude.{◌↔◌, ℕ, List};
ghost use Rattle.vm_model.specs.Machine.Machine.{Machine};
ghost use Rattle.vm_model.specs.Scripts.Run.{Legal};
ghost use Rattle.line_server.specs.Answering.{AnsweringRun};
ghost use Rattle.vm_session.specs.Plain.{plain};

/// States that lines are answered by a text on the plain machine, one after another, if and only if the text is that of
/// one legal run.
pub fn answered_lines_are_a_legal_run()
    ensures { (frames : ℕ) (lines : List (List ℕ)) (out : List ℕ) (last : Machine) →
        AnsweringRun plain (plain.start frames) lines out last ↔ Legal frames lines out last }
{}
