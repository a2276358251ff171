//! The founders of hidden nodes: the VMOs for which each hidden node was made.

ghost use Rattle.std.specs.Prelude.{◌≡◌, ◌≢◌, ◌⊎◌, ℕ, None, Some};
ghost use Rattle.cow_forest.specs.inside.Founders.{founders_in};

use cow_arena::NodeId;
use std::alloc::Global;
use vm_base::Koid;

/// The VMO of which the snapshot was made that put a hidden node over it, and the snapshot. Each VMO below the node is the
/// elder, or has the koid of the younger or a later one. A page of the elder that comes to the node comes to the page there
/// that has its own number.
#[derive(Clone, Copy)]
pub(crate) struct Founders {
    pub elder: Koid,
    pub younger: Koid,
}

/// The founders of each hidden node, by its number. What stands under the number of any other node says nothing.
#[derive(Drop)]
pub(crate) struct FounderTable {
    pub entries: Vec<Option<Founders>>,
}

impl FounderTable {
    /// Makes a table without founders. It takes no memory.
    pub(crate) fn new(alloc: Global) -> FounderTable
        ensures { (k : ℕ) → founders_in result k ≡ None }
    {
        FounderTable {
            entries: Vec::new(alloc),
        }
    }

    /// Returns the founders of a node. `None` if none were noted for lack of memory, and maybe if the node is not hidden.
    pub(crate) fn get(&self, at: NodeId) -> Option<Founders>
        ensures { result ≡ founders_in self.now at.0 }
    {
        if at.0 < self.entries.len() {
            self.entries[at.0]
        } else {
            None
        }
    }

    /// Notes the founders of a node, and makes room for nodes whose numbers are below `room`. Where the host has too little
    /// memory, none are noted.
    pub(crate) fn note(&mut self, at: NodeId, founders: Founders, room: usize)
        ensures here { (founders_in self.new at.0 ≡ Some founders) ⊎ (founders_in self.new at.0 ≡ None) }
        ensures others { (k : ℕ) → k ≢ at.0 → founders_in self.new k ≡ founders_in self.old k }
    {
        self.grow(room);
        self.set(at, Some(founders));
    }

    /// Gives a node founders, or none, if there is room for them.
    fn set(&mut self, at: NodeId, founders: Option<Founders>)
        ensures here { (founders_in self.new at.0 ≡ founders) ⊎ (founders_in self.new at.0 ≡ None) }
        ensures others { (k : ℕ) → k ≢ at.0 → founders_in self.new k ≡ founders_in self.old k }
    {
        if at.0 < self.entries.len() {
            self.entries[at.0] = founders;
        }
    }

    /// Makes room for nodes whose numbers are below `room`, if the host has the memory.
    fn grow(&mut self, room: usize)
        ensures { (k : ℕ) → founders_in self.new k ≡ founders_in self.old k }
    {
        while self.entries.len() < room {
            let Ok(()) = self.entries.push(None) else {
                return;
            };
        }
    }
}
