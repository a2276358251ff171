//! What an actor is to do, and what it did.

use vm_model::{Command, Reply};

/// One task of an actor.
#[derive(Drop)]
pub enum Task {
    /// To have the machine do a command.
    Order(Command),
    /// A line that is outside the grammar. It is refused with `SYNTAX`, and changes nothing.
    Outside,
}

/// A task done: the actor that did it, and the machine's reply. Actors are numbered from 0 to 3.
#[derive(Drop)]
pub struct Deed {
    pub actor: u32,
    pub reply: Reply,
}
