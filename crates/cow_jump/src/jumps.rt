//! The table of jumps: ways upwards in the clone tree over many nodes at once.

ghost use Rattle.std.specs.Prelude.{◌≡◌, ◌≢◌, ◌⊎◌, ℕ, None, Some, IfSome};
ghost use Rattle.cow_jump.specs.Jumps.{jump_in, serial_in, IsCurrentJump, AreMovedUp};
ghost use Rattle.cow_jump.specs.inside.Table.{IsServedByJump, IsGiven, AreRetired};

use cow_arena::{NodeId, Side};
use std::alloc::Global;
use vm_base::PageNo;

/// A way upwards from the pages of a node to those of a node above it, past the rows of all nodes between. It serves the
/// pages below `end` that lie in the node's window, except for those that are barred.
#[derive(Clone, Copy)]
pub struct Jump {
    /// The node to which it leads.
    pub to: NodeId,
    /// The side from which a walk comes there.
    pub side: Side,
    /// The number of pages by which a page is further on there.
    pub shift: u64,
    /// The page from which on it does not serve.
    pub end: PageNo,
    /// The pages that it does not serve, by their numbers modulo 64: a node between may have a row there.
    pub barred: u64,
    /// The number of nodes by which it leads further up.
    pub over: u64,
    /// The serial number of the node to which it leads.
    pub serial: u64,
}

/// The place that a way upwards comes to.
#[derive(Clone, Copy)]
pub(crate) struct Place {
    pub node: NodeId,
    pub page: PageNo,
    pub side: Side,
}

/// The jump of each node, if it has one, and the serial number of each hidden node: the koid of the snapshot at which it was made.
/// A jump says nothing that the tree does not say: a walk may take it in place of its steps. A jump to a node that is gone is not
/// taken, nor is one to a later node of the same number. No call but `grow` asks the host for memory, and none fails.
#[derive(Drop)]
pub struct JumpTable {
    /// By the number of the node. A node past the last has no jump.
    pub entries: Vec<Option<Jump>>,
    /// By the number of the node. It is 0 if the node is gone or not hidden, and so is that of a node past the last.
    pub serials: Vec<u64>,
}

impl JumpTable {
    /// Makes a table in which no node has a jump. It takes no memory.
    pub fn new(alloc: Global) -> JumpTable
        ensures jumps { (k : ℕ) → jump_in result k ≡ None }
        ensures serials { (k : ℕ) → serial_in result k ≡ 0 }
    {
        JumpTable {
            entries: Vec::new(alloc),
            serials: Vec::new(alloc),
        }
    }

    /// Returns the serial number of a node. 0 if it has none.
    #[inline(always)]
    pub(crate) fn serial(&self, at: NodeId) -> u64
        ensures { result ≡ serial_in self.now at.0 }
    {
        if at.0 < self.serials.len() {
            self.serials[at.0]
        } else {
            0
        }
    }

    /// Returns the jump of a node, if it has one that is to be taken: the node to which it leads is still there.
    #[inline(always)]
    pub(crate) fn get(&self, at: NodeId) -> Option<Jump>
        ensures { IfSome result (λ jump. (jump_in self.now at.0 ≡ Some jump) × IsCurrentJump self.now jump) }
    {
        if self.entries.len() <= at.0 {
            return None;
        }
        let jump = self.entries[at.0]?;
        if jump.serial == 0 || jump.serial != self.serial(jump.to) {
            return None;
        }
        Some(jump)
    }

    /// Returns where the jump of a node leads from a page, if the node has one that serves the page.
    #[inline(always)]
    pub(crate) fn take(&self, at: NodeId, page: PageNo) -> Option<Place>
        ensures { IfSome result (λ place. IsServedByJump self.now at.0 page place) }
    {
        let jump = self.get(at)?;
        if jump.end <= page || (jump.barred >> (page % 64)) & 1 == 1 {
            return None;
        }
        let there = page.checked_add(jump.shift)?;
        Some(Place {
            node: jump.to,
            page: there,
            side: jump.side,
        })
    }

    /// Gives a node a jump, or none, if there is room for it.
    pub(crate) fn set(&mut self, at: NodeId, jump: Option<Jump>)
        ensures here { IsGiven self.new at.0 jump }
        ensures others { (k : ℕ) → k ≢ at.0 → jump_in self.new k ≡ jump_in self.old k }
        ensures serials { (k : ℕ) → serial_in self.new k ≡ serial_in self.old k }
    {
        if at.0 < self.entries.len() {
            self.entries[at.0] = jump;
        }
    }

    /// Gives a node a serial number, if there is room for it.
    fn set_serial(&mut self, at: NodeId, serial: u64)
        ensures here { (serial_in self.new at.0 ≡ serial) ⊎ (serial_in self.new at.0 ≡ 0) }
        ensures others { (k : ℕ) → k ≢ at.0 → serial_in self.new k ≡ serial_in self.old k }
        ensures jumps { (k : ℕ) → jump_in self.new k ≡ jump_in self.old k }
    {
        if at.0 < self.serials.len() {
            self.serials[at.0] = serial;
        }
    }

    /// Gives a hidden node, which is new, its serial number and the jump of another, which has none then, and neither has a third.
    pub fn move_up(&mut self, from: NodeId, to: NodeId, other: NodeId, serial: u64)
        requires to { to.0 ≢ from.0 }
        requires other { other.0 ≢ to.0 }
        ensures { AreMovedUp self.old self.new from.0 to.0 other.0 serial }
    {
        let jump = self.get(from);
        self.set(from, None);
        self.set(other, None);
        self.set(to, jump);
        self.set_serial(to, serial);
    }

    /// Lets no jump to a node be taken from now on.
    pub(crate) fn retire(&mut self, at: NodeId)
        ensures { AreRetired self.old self.new at.0 }
    {
        self.set_serial(at, 0);
    }

    /// Makes room for the jumps and the serial numbers of nodes whose numbers are below this. Where the host has too little memory,
    /// there is room for fewer. No jump changes.
    pub fn grow(&mut self, nodes: usize)
        ensures jumps { (k : ℕ) → jump_in self.new k ≡ jump_in self.old k }
        ensures serials { (k : ℕ) → serial_in self.new k ≡ serial_in self.old k }
    {
        self.grow_entries(nodes);
        self.grow_serials(nodes);
    }

    fn grow_entries(&mut self, nodes: usize)
        ensures jumps { (k : ℕ) → jump_in self.new k ≡ jump_in self.old k }
        ensures serials { self.new.serials ≡ self.old.serials }
    {
        while self.entries.len() < nodes {
            let Ok(()) = self.entries.push(None) else {
                return;
            };
        }
    }

    fn grow_serials(&mut self, nodes: usize)
        ensures entries { self.new.entries ≡ self.old.entries }
        ensures serials { (k : ℕ) → serial_in self.new k ≡ serial_in self.old k }
    {
        while self.serials.len() < nodes {
            let Ok(()) = self.serials.push(0) else {
                return;
            };
        }
    }
}
