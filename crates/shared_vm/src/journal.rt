//! What keeps the deeds of actors.

ghost use Rattle.std.specs.Prelude.{◌≡◌, ◌-◌, ◌^◌, List, [], ◌∷◌, ◌++◌, vec_len, vec_capacity};
ghost use Rattle.shared_vm.specs.declared.task.Deed.{Deed};
ghost use Rattle.shared_vm.specs.Journal.{Leaves, Spare, Suffices};

use crate::task::Deed;
use vm_model::Answer;

/// Keeps the deeds of actors, one behind another, in room that was taken before.
pub trait Journal: Drop {
    /// The deeds, the first one first.
    ghost deeds: { Self → List Deed };

    /// For how many further deeds there is room, and for how much data of their replies.
    ghost spare: { Self → Spare };

    /// Notes a deed behind the others: its actor, and the machine's answer.
    fn note(&mut self, actor: u32, answer: Answer<'_>)
        requires { Suffices (spare self.old) answer }
        ensures deeds { deeds self.new ≡ deeds self.old ++ record { actor = actor; reply = answer.entry } ∷ [] }
        ensures spare { Leaves (spare self.old) answer.entry (spare self.new) };
}

/// Each deed has its reply whole, so there is room for all data that replies may have.
impl Journal for Vec<Deed> {
    ghost deeds = { λ v. v.items };

    ghost spare = { λ v. record { deeds = vec_capacity v - vec_len v; bytes = 2 ^ 64; numbers = 2 ^ 64 } };

    fn note(&mut self, actor: u32, answer: Answer<'_>) {
        let reply = answer.into_owned();
        self.push_reserved(Deed { actor, reply });
    }
}
