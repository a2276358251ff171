//! A table of nodes by number. Two of these lead into the tree.

ghost use Rattle.std.specs.Prelude.{◌≡◌, ◌≢◌, ℕ, ◌+◌, ◌%◌, ◌≤◌, replicate, None, Some, IsSome, OnOk};
ghost use Rattle.std.specs.Option.{option_or};
ghost use Rattle.std.specs.HashMap.{spare};
ghost use Rattle.vm_base.specs.Entries.{with_key, without_key};
ghost use Rattle.cow_forest.specs.Tables.{node_in, displaced_in, own_node, unless_own};

use cow_arena::NodeId;
use std::alloc::Global;
use std::collections::HashMap;
use std::marker::Model;
use vm_base::HostMemory;

/// The number of places in the array of a table. The place of a number is the remainder of the number by this.
const PLACES: usize = 64;

/// Nodes by number. An entry stands in the array, at the place of its number, until another number with the same place
/// is entered. From then on it stands in the map. As long as no two numbers have the same place, nothing is hashed.
/// Contracts see the node of each number, and how many more numbers can be entered with no memory from the host.
#[derive(Drop)]
pub(crate) struct NodeTable {
    /// At each place, the entry that was entered last of those with this place (`place_of`), unless it has left.
    recent: [Option<(u64, NodeId)>; PLACES],
    /// The entries that were displaced: another number with the same place was entered after them. If a number has an
    /// entry in the array too, the entry in the array counts.
    displaced: HashMap<u64, NodeId>,
}

impl Model for NodeTable {
    ghost use Rattle.cow_forest.specs.Tables.{NodeEntries};

    ghost Value = { NodeEntries };

    ghost use Rattle.cow_forest.specs.inside.TableFields.{entries_of, ArePlacedByNumber};

    ghost view = { entries_of };

    ghost invariant = { ArePlacedByNumber };
}

impl NodeTable {
    /// Makes a table in which no number has a node.
    pub(crate) fn new(alloc: Global) -> NodeTable
        ensures { (n : ℕ) → node_in result n ≡ None }
    {
        NodeTable {
            recent: none_recent(),
            displaced: HashMap::new(alloc),
        }
    }

    /// Makes room for `n` numbers more. `HostMemory` if the host has too little memory. No entry changes.
    pub(crate) fn reserve(&mut self, n: usize) -> Result<(), HostMemory>
        ensures nodes { node_in self.new ≡ node_in self.old }
        ensures room { OnOk result (n ≤ self.new.spare) }
    {
        let Ok(()) = self.displaced.reserve(n) else {
            return Err(HostMemory);
        };
        Ok(())
    }

    /// Returns the node of a number, which has an entry. The entry stands in the array or in the map.
    #[inline(always)]
    pub(crate) fn get(&self, number: u64) -> NodeId
        requires { IsSome (node_in self.now number) }
        ensures { node_in self.now number ≡ Some result }
    {
        match self.look(number) {
            Some(node) => node,
            None => unreachable!(),
        }
    }

    /// Returns the node of a number. `None` if it has no entry.
    #[inline(always)]
    pub(crate) fn look(&self, number: u64) -> Option<NodeId>
        ensures { node_in self.now number ≡ result }
    {
        match own_node(self.recent[place_of(number)], number) {
            Some(node) => Some(node),
            None => find(&self.displaced, number),
        }
    }

    /// Enters the node of a number, in place of the node that it had. There is room for it.
    pub(crate) fn enter(&mut self, number: u64, node: NodeId)
        requires { 1 ≤ self.old.spare }
        ensures nodes { node_in self.new ≡ with_key (node_in self.old) number node }
        ensures spare { self.old.spare ≤ self.new.spare + 1 }
    {
        let place = place_of(number);
        displace(&mut self.displaced, self.recent[place], number);
        self.recent[place] = Some((number, node));
    }

    /// Gives a number that has an entry another node. It takes no memory.
    pub(crate) fn redirect(&mut self, number: u64, node: NodeId)
        requires { IsSome (node_in self.old number) }
        ensures { node_in self.new ≡ with_key (node_in self.old) number node }
    {
        let place = place_of(number);
        match own_node(self.recent[place], number) {
            Some(_) => self.recent[place] = Some((number, node)),
            None => change(&mut self.displaced, number, node),
        }
    }

    /// Takes the entry of a number out.
    pub(crate) fn leave(&mut self, number: u64)
        ensures { node_in self.new ≡ without_key (node_in self.old) number }
    {
        let place = place_of(number);
        self.recent[place] = unless_own(self.recent[place], number);
        forget(&mut self.displaced, number);
    }
}

/// Returns an array with no entry at any place.
fn none_recent() -> [Option<(u64, NodeId)>; PLACES]
    ensures { result ≡ replicate PLACES None }
{
    [None; PLACES]
}

/// Returns the place of a number in the array, below `PLACES`.
#[inline(always)]
fn place_of(number: u64) -> usize
    ensures { result ≡ number % PLACES }
{
    (number % PLACES as u64) as usize
}

/// Returns the node of a number, if this entry is the number's.
#[inline(always)]
fn own_node(entry: Option<(u64, NodeId)>, number: u64) -> Option<NodeId>
    ensures { result ≡ own_node entry number }
{
    match entry {
        Some((there, node)) if number == there => Some(node),
        _ => None,
    }
}

/// Returns the entry, unless it is the number's own.
#[inline(always)]
fn unless_own(entry: Option<(u64, NodeId)>, number: u64) -> Option<(u64, NodeId)>
    ensures { result ≡ unless_own entry number }
{
    match entry {
        Some((there, _)) if number == there => None,
        _ => entry,
    }
}

/// Puts the entry that stands at the place of a number among the displaced ones, unless it is the number's own. There
/// is room for it.
#[inline(always)]
fn displace(displaced: &mut HashMap<u64, NodeId>, entry: Option<(u64, NodeId)>, number: u64)
    requires { 1 ≤ spare displaced.old }
    ensures nodes { (n : ℕ) → n ≢ number →
        displaced_in displaced.new.entries n ≡ option_or (own_node entry n) (displaced_in displaced.old.entries n) }
    ensures spare { spare displaced.old ≤ spare displaced.new + 1 }
{
    if let Some((there, node)) = unless_own(entry, number) {
        put(displaced, there, node);
    }
}

/// Puts an entry into the map. There is room for it.
#[inline(never)]
fn put(displaced: &mut HashMap<u64, NodeId>, number: u64, node: NodeId)
    requires { 1 ≤ spare displaced.old }
    ensures nodes { displaced_in displaced.new.entries ≡ with_key (displaced_in displaced.old.entries) number node }
    ensures spare { spare displaced.old ≤ spare displaced.new + 1 }
{
    let _entered = displaced.insert(number, node);
}

/// Gives a number that is in the map another node. It takes no memory.
#[inline(never)]
fn change(displaced: &mut HashMap<u64, NodeId>, number: u64, node: NodeId)
    requires { IsSome (displaced_in displaced.old.entries number) }
    ensures { displaced_in displaced.new.entries ≡ with_key (displaced_in displaced.old.entries) number node }
{
    let _entered = displaced.insert(number, node);
}

/// Takes a number out of the displaced ones.
#[inline(always)]
fn forget(displaced: &mut HashMap<u64, NodeId>, number: u64)
    ensures { displaced_in displaced.new.entries ≡ without_key (displaced_in displaced.old.entries) number }
{
    if !displaced.is_empty() {
        take_out(displaced, number);
    }
}

/// Takes a number out of the map.
#[inline(never)]
fn take_out(displaced: &mut HashMap<u64, NodeId>, number: u64)
    ensures { displaced_in displaced.new.entries ≡ without_key (displaced_in displaced.old.entries) number }
{
    let _left = displaced.remove(&number);
}

/// Returns the node of a number, by a look-up in the map. `None` if it is not there.
#[inline(never)]
fn find(displaced: &HashMap<u64, NodeId>, number: u64) -> Option<NodeId>
    ensures { displaced_in displaced.now.entries number ≡ result }
{
    match displaced.get(&number) {
        Some(node) => Some(*node),
        None => None,
    }
}
