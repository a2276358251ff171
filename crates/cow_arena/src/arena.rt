//! The arena of nodes.

ghost use Rattle.std.specs.Prelude.{◌≡◌, ◌≢◌, ℕ, ◌+◌, ◌≤◌, ◌<◌, ◌^◌, None, Some, is_none, is_some, IsSome, IfSome, IsSomeAnd, IfOk, OnOk, OnErr};
ghost use Rattle.slab.specs.Slab.{get, ContainsKey, HasRoomFor};
ghost use Rattle.vm_base.specs.Entries.{with_key, without_key};
ghost use Rattle.cow_arena.specs.declared.node.Node.{Node};
ghost use Rattle.cow_arena.specs.Nodes.{nodes_of, link_to, child_on, other_side, side_of, node_above, side_in, sibling_in, AreFamily};
ghost use Rattle.cow_arena.specs.Walk.{Slots, tree_with, walk, frame_shown};
ghost use Rattle.cow_arena.specs.Forest.{IsForest, HasListedRows};
ghost use Rattle.cow_arena.specs.Changes.{root_node, window_first, moved_link, hidden_over, below_hidden, paired, relinked, lifted, spliced, spliced_over};
ghost use Rattle.cow_arena.specs.Renamed.{AreExchanged};
ghost use Rattle.cow_arena.specs.Counts.{hidden_count, visible_count, HasFewerHidden};

use crate::node::{Node, NodeId, Pair, Side, leads_to};
use page_list::ListId;
use slab::Slab;
use std::alloc::Global;
use std::marker::Model;
use vm_base::{HostMemory, Koid, PageNo};

/// The nodes of all clone trees. Contracts see the node of each number (`nodes_of`), and how many lists were given to
/// nodes so far. The nodes are a forest at every moment (`IsForest`). If all rows stand in lists of nodes, they still
/// do after each call (`HasListedRows`), provided that the lists of removed nodes have no rows. Only `add_root` and
/// `add_pair` ask the host for memory. No call goes over more than four nodes.
#[derive(Drop)]
pub struct CowArena {
    nodes: Slab<Node>,
    /// The number of lists that were given to nodes so far, and so the number of the next list.
    lists: u64,
    /// The number of hidden nodes.
    hidden: u64,
}

impl Model for CowArena {
    ghost use Rattle.cow_arena.specs.Nodes.{Arena};

    ghost Value = { Arena };

    ghost use Rattle.cow_arena.specs.inside.Fields.{arena_of, IsArena};

    ghost view = { arena_of };

    ghost invariant = { IsArena };
}

impl CowArena {
    /// Makes an arena with no nodes.
    pub fn new(alloc: Global) -> CowArena
        ensures nodes { nodes_of result ≡ λ k. None }
        ensures lists { result.lists ≡ 0 }
        ensures forest { IsForest (nodes_of result) result.lists }
        ensures visible { visible_count result ≡ 0 }
    {
        CowArena {
            nodes: Slab::new(alloc),
            lists: 0,
            hidden: 0,
        }
    }

    /// Adds the node of a VMO of `count` pages, without a parent and with a new list. `HostMemory` if the host has too
    /// little memory. Fewer than 2^64 - 2 lists were given before.
    pub fn add_root(&mut self, koid: Koid, count: PageNo) -> Result<NodeId, HostMemory>
        requires lists { self.old.lists + 2 < 2 ^ 64 }
        ensures new { IfOk result (λ at. nodes_of self.old at.0 ≡ None) }
        ensures nodes { IfOk result (λ at.
            nodes_of self.new ≡ with_key (nodes_of self.old) at.0 (root_node koid self.old.lists count)) }
        ensures lists { OnOk result (self.new.lists ≡ self.old.lists + 1) }
        ensures hidden { hidden_count self.new ≡ hidden_count self.old }
        ensures visible { OnOk result (visible_count self.new ≡ visible_count self.old + 1) }
        ensures forest { IsForest (nodes_of self.new) self.new.lists }
        ensures listed { OnOk result ((slots : Slots) → HasListedRows (tree_with (nodes_of self.old) self.old.lists slots) →
            HasListedRows (tree_with (nodes_of self.new) self.new.lists slots)) }
        ensures err { OnErr result (nodes_of self.new ≡ nodes_of self.old) }
        ensures err_lists { OnErr result (self.new.lists ≡ self.old.lists) }
        ensures err_visible { OnErr result (visible_count self.new ≡ visible_count self.old) }
    {
        let list = ListId(self.lists);
        let Ok(at) = self.nodes.insert(Node {
            koid: Some(koid),
            parent: None,
            left: None,
            right: None,
            list,
            count,
            first: 0,
            seen: 0,
        })
        else {
            return Err(HostMemory);
        };
        self.lists += 1;
        Ok(NodeId(at))
    }

    /// Puts a hidden node in the place of a VMO's node, with the list, the count and the window of that node. Below it
    /// stand the VMO's node, which sees all of it, and the node of a snapshot of `count` pages, which sees `seen` of
    /// its pages from page `first` on. Both have new lists without rows. So each page of the VMO's node shows what it
    /// showed, and the walk from a page of any other node finds what it found. A page of the snapshot past those that it
    /// sees is zero. `HostMemory` if the host has too little memory. Fewer than 2^64 - 2 lists were given before.
    pub fn add_pair(
        &mut self,
        leaf: NodeId,
        koid: Koid,
        first: PageNo,
        seen: PageNo,
        count: PageNo,
    ) -> Result<Pair, HostMemory>
        requires leaf { IsSomeAnd (nodes_of self.old leaf.0) (λ node. IsSome node.koid × (first + seen ≤ node.count)) }
        requires seen { seen ≤ count }
        requires lists { self.old.lists + 2 < 2 ^ 64 }
        ensures new { IfOk result (λ pair. (nodes_of self.old pair.hidden.0 ≡ None)
            × (nodes_of self.old pair.child.0 ≡ None) × (pair.hidden.0 ≢ pair.child.0)) }
        ensures nodes { IfOk result (λ pair. (node : Node) → nodes_of self.old leaf.0 ≡ Some node →
            nodes_of self.new ≡ paired (nodes_of self.old) leaf.0 node pair.hidden.0 pair.child.0 self.old.lists
            koid first seen count) }
        ensures shows { OnOk result ((slots : Slots) → HasListedRows (tree_with (nodes_of self.old) self.old.lists slots) →
            (p : ℕ) (node : Node) → nodes_of self.old leaf.0 ≡ Some node → p < node.count →
            frame_shown (tree_with (nodes_of self.new) self.new.lists slots) leaf.0 p ≡
            frame_shown (tree_with (nodes_of self.old) self.old.lists slots) leaf.0 p) }
        ensures walks { OnOk result ((slots : Slots) (k p : ℕ) (other : Node) → nodes_of self.old k ≡ Some other → k ≢ leaf.0 →
            walk (tree_with (nodes_of self.new) self.new.lists slots) k p ≡ walk (tree_with (nodes_of self.old) self.old.lists slots) k p) }
        ensures inside { IfOk result (λ pair. (slots : Slots) → HasListedRows (tree_with (nodes_of self.old) self.old.lists slots) →
            (p : ℕ) → p < seen → frame_shown (tree_with (nodes_of self.new) self.new.lists slots) pair.child.0 p ≡
            frame_shown (tree_with (nodes_of self.old) self.old.lists slots) leaf.0 (first + p)) }
        ensures past { IfOk result (λ pair. (slots : Slots) → HasListedRows (tree_with (nodes_of self.old) self.old.lists slots) →
            (p : ℕ) → seen ≤ p → frame_shown (tree_with (nodes_of self.new) self.new.lists slots) pair.child.0 p ≡ None) }
        ensures lists { OnOk result (self.new.lists ≡ self.old.lists + 2) }
        ensures hidden { OnOk result (hidden_count self.new ≡ hidden_count self.old + 1) }
        ensures visible { OnOk result (visible_count self.new ≡ visible_count self.old + 1) }
        ensures forest { IsForest (nodes_of self.new) self.new.lists }
        ensures listed { OnOk result ((slots : Slots) → HasListedRows (tree_with (nodes_of self.old) self.old.lists slots) →
            HasListedRows (tree_with (nodes_of self.new) self.new.lists slots)) }
        ensures err { OnErr result (nodes_of self.new ≡ nodes_of self.old) }
        ensures err_lists { OnErr result (self.new.lists ≡ self.old.lists) }
        ensures err_hidden { OnErr result (hidden_count self.new ≡ hidden_count self.old) }
        ensures err_visible { OnErr result (visible_count self.new ≡ visible_count self.old) }
    {
        let Ok(()) = self.nodes.reserve(2) else {
            return Err(HostMemory);
        };
        let node = self.nodes[leaf.0];
        let child = Node {
            koid: Some(koid),
            parent: None,
            left: None,
            right: None,
            list: ListId(self.lists + 1),
            count,
            first: window_first(first, seen),
            seen,
        };
        let pair = put_pair(&mut self.nodes, leaf, node, child, ListId(self.lists));
        self.lists += 2;
        self.hidden += 1;
        Ok(pair)
    }

    /// Returns the number of nodes for which there is room. The number of each node is below it.
    pub fn capacity(&self) -> usize
        ensures capacity { result ≡ self.now.slots.capacity }
        ensures below { (k : ℕ) → IsSome (nodes_of self.now k) → k < result }
    {
        self.nodes.capacity()
    }

    /// Returns whether there is a node with this number.
    pub fn has(&self, at: NodeId) -> bool
        ensures { result ≡ is_some (nodes_of self.now at.0) }
    {
        self.nodes.contains(at.0)
    }

    /// Returns a copy of a node. The function is inlined, so that a caller reads no more of the node than it asks for.
    #[inline(always)]
    pub fn node(&self, at: NodeId) -> Node
        requires { IsSome (nodes_of self.now at.0) }
        ensures { nodes_of self.now at.0 ≡ Some result }
    {
        self.nodes[at.0]
    }

    /// Returns a node where it stands, not copied.
    #[inline(always)]
    pub fn look(&self, at: NodeId) -> &Node
        requires { IsSome (nodes_of self.now at.0) }
        ensures { nodes_of self.now at.0 ≡ Some result.now }
    {
        &self.nodes[at.0]
    }

    /// Returns which child of its parent a node is. `None` if and only if it has no parent.
    pub fn side(&self, at: NodeId) -> Option<Side>
        requires { IsSome (nodes_of self.now at.0) }
        ensures side { result ≡ side_in (nodes_of self.now) at.0 }
        ensures root { (node : Node) → nodes_of self.now at.0 ≡ Some node → is_none result ≡ is_none node.parent }
    {
        Some(above(&self.nodes, at)?.side_of(at))
    }

    /// Returns the other child of the parent of a node. `None` if and only if it has no parent.
    pub fn sibling(&self, at: NodeId) -> Option<NodeId>
        requires { IsSome (nodes_of self.now at.0) }
        ensures sibling { result ≡ sibling_in (nodes_of self.now) at.0 }
        ensures root { (node : Node) → nodes_of self.now at.0 ≡ Some node → is_none result ≡ is_none node.parent }
    {
        sibling_of(&above(&self.nodes, at)?, at)
    }

    /// Gives a node that has a parent a window of `seen` pages over it, from page `first` of the parent on. The window
    /// is not longer than the node and ends inside the parent. A window without pages begins at 0.
    pub fn set_window(&mut self, at: NodeId, first: PageNo, seen: PageNo)
        requires node { IsSomeAnd (nodes_of self.old at.0) (λ node. seen ≤ node.count) }
        requires parent { IsSomeAnd (node_above (nodes_of self.old) at.0) (λ parent. first + seen ≤ parent.count) }
        requires empty { seen ≡ 0 → first ≡ 0 }
        ensures nodes { (node : Node) → nodes_of self.old at.0 ≡ Some node →
            nodes_of self.new ≡ with_key (nodes_of self.old) at.0 (record node { first = first; seen = seen }) }
        ensures lists { self.new.lists ≡ self.old.lists }
        ensures hidden { hidden_count self.new ≡ hidden_count self.old }
        ensures visible { visible_count self.new ≡ visible_count self.old }
        ensures forest { IsForest (nodes_of self.new) self.new.lists }
        ensures listed { (slots : Slots) → HasListedRows (tree_with (nodes_of self.old) self.old.lists slots) →
            HasListedRows (tree_with (nodes_of self.new) self.new.lists slots) }
    {
        let node = &mut self.nodes[at.0];
        node.first = first;
        node.seen = seen;
    }

    /// Changes the page count of a VMO's node to `count`, which is at least the length of its window.
    pub fn set_count(&mut self, at: NodeId, count: PageNo)
        requires { IsSomeAnd (nodes_of self.old at.0) (λ node. IsSome node.koid × (node.seen ≤ count)) }
        ensures nodes { (node : Node) → nodes_of self.old at.0 ≡ Some node →
            nodes_of self.new ≡ with_key (nodes_of self.old) at.0 (record node { count = count }) }
        ensures lists { self.new.lists ≡ self.old.lists }
        ensures hidden { hidden_count self.new ≡ hidden_count self.old }
        ensures visible { visible_count self.new ≡ visible_count self.old }
        ensures forest { IsForest (nodes_of self.new) self.new.lists }
        ensures listed { (slots : Slots) → HasListedRows (tree_with (nodes_of self.old) self.old.lists slots) →
            HasListedRows (tree_with (nodes_of self.new) self.new.lists slots) }
    {
        self.nodes[at.0].count = count;
    }

    /// Removes the node of a VMO that has no parent. Rows that are left in its list stand in no node's list afterwards.
    pub fn remove_root(&mut self, leaf: NodeId)
        requires { IsSomeAnd (nodes_of self.old leaf.0) (λ node. IsSome node.koid × (node.parent ≡ None)) }
        ensures nodes { nodes_of self.new ≡ without_key (nodes_of self.old) leaf.0 }
        ensures lists { self.new.lists ≡ self.old.lists }
        ensures hidden { hidden_count self.new ≡ hidden_count self.old }
        ensures visible { visible_count self.new + 1 ≡ visible_count self.old }
        ensures forest { IsForest (nodes_of self.new) self.new.lists }
        ensures listed { (slots : Slots) (node : Node) → nodes_of self.old leaf.0 ≡ Some node → ((p : ℕ) → slots node.list.0 p ≡ None) →
            HasListedRows (tree_with (nodes_of self.old) self.old.lists slots) →
            HasListedRows (tree_with (nodes_of self.new) self.new.lists slots) }
    {
        self.nodes.try_remove(leaf.0);
    }

    /// Removes the node of a VMO that has a parent, and the parent with it. The sibling takes the parent's place, and
    /// sees what it saw through both windows. If the parent's list has no rows, the walk from each page of a node that
    /// is left finds what it found.
    pub fn splice(&mut self, leaf: NodeId)
        requires { IsSomeAnd (nodes_of self.old leaf.0) (λ node. IsSome node.koid × IsSome node.parent) }
        ensures nodes { (h s : ℕ) (node parent sibling : Node) →
            AreFamily (nodes_of self.old) leaf.0 h s node parent sibling →
            nodes_of self.new ≡ spliced (nodes_of self.old) leaf.0 h s parent sibling }
        ensures walks { (slots : Slots) (h s : ℕ) (node parent sibling : Node) →
            AreFamily (nodes_of self.old) leaf.0 h s node parent sibling → ((p : ℕ) → slots parent.list.0 p ≡ None) →
            (k p : ℕ) → k ≢ leaf.0 → k ≢ h → walk (tree_with (nodes_of self.new) self.new.lists slots) k p ≡
            walk (tree_with (nodes_of self.old) self.old.lists slots) k p }
        ensures lists { self.new.lists ≡ self.old.lists }
        ensures hidden { hidden_count self.new + 1 ≡ hidden_count self.old }
        ensures visible { visible_count self.new + 1 ≡ visible_count self.old }
        ensures forest { IsForest (nodes_of self.new) self.new.lists }
        ensures listed { (slots : Slots) (h s : ℕ) (node parent sibling : Node) →
            AreFamily (nodes_of self.old) leaf.0 h s node parent sibling →
            ((p : ℕ) → slots parent.list.0 p ≡ None) → ((p : ℕ) → slots node.list.0 p ≡ None) →
            HasListedRows (tree_with (nodes_of self.old) self.old.lists slots) →
            HasListedRows (tree_with (nodes_of self.new) self.new.lists slots) }
    {
        let Some(hidden) = self.nodes[leaf.0].parent else {
            unreachable!()
        };
        let parent = self.nodes[hidden.0];
        let Some(sibling) = sibling_of(&parent, leaf) else {
            unreachable!()
        };
        let node = self.nodes[sibling.0];
        let room = room_in(&self.nodes, parent.parent);
        splice_nodes(
            &mut self.nodes,
            leaf,
            hidden,
            sibling,
            parent.parent,
            lifted(node, parent, room),
        );
        self.hidden -= 1;
    }

    /// Does what `splice` does, but the sibling takes over the list of the parent, and its own list goes with that of
    /// the leaf. So the caller first moves the rows of the sibling into the parent's list. The walk from each page of a
    /// node that is left then finds what it would find after `splice`, had the rows of the two lists been exchanged.
    pub fn splice_over(&mut self, leaf: NodeId)
        requires { IsSomeAnd (nodes_of self.old leaf.0) (λ node. IsSome node.koid × IsSome node.parent) }
        ensures nodes { (h s : ℕ) (node parent sibling : Node) →
            AreFamily (nodes_of self.old) leaf.0 h s node parent sibling →
            nodes_of self.new ≡ spliced_over (nodes_of self.old) leaf.0 h s parent sibling }
        ensures walks { (slots over : Slots) (h s : ℕ) (node parent sibling : Node) →
            AreFamily (nodes_of self.old) leaf.0 h s node parent sibling →
            AreExchanged slots over parent.list.0 sibling.list.0 → ((p : ℕ) → slots parent.list.0 p ≡ None) →
            (k p : ℕ) → k ≢ leaf.0 → k ≢ h → walk (tree_with (nodes_of self.new) self.new.lists over) k p ≡
            walk (tree_with (nodes_of self.old) self.old.lists slots) k p }
        ensures lists { self.new.lists ≡ self.old.lists }
        ensures hidden { hidden_count self.new + 1 ≡ hidden_count self.old }
        ensures visible { visible_count self.new + 1 ≡ visible_count self.old }
        ensures forest { IsForest (nodes_of self.new) self.new.lists }
        ensures listed { (slots : Slots) (h s : ℕ) (node parent sibling : Node) →
            AreFamily (nodes_of self.old) leaf.0 h s node parent sibling →
            ((p : ℕ) → slots sibling.list.0 p ≡ None) → ((p : ℕ) → slots node.list.0 p ≡ None) →
            HasListedRows (tree_with (nodes_of self.old) self.old.lists slots) →
            HasListedRows (tree_with (nodes_of self.new) self.new.lists slots) }
    {
        let (Some(hidden), Some(sibling)) = (self.nodes[leaf.0].parent, self.sibling(leaf)) else {
            unreachable!()
        };
        let list = self.node(hidden).list;
        self.splice(leaf);
        self.nodes[sibling.0].list = list;
    }

    /// Returns how many nodes are hidden: fewer than there are visible ones, or none.
    pub fn hidden(&self) -> u64
        ensures count { result ≡ hidden_count self.now }
        ensures fewer { HasFewerHidden self.now }
    {
        self.hidden
    }
}

/// Returns where a window of `seen` pages begins: at `first`, or at 0 if it has no page.
pub fn window_first(first: PageNo, seen: PageNo) -> PageNo
    ensures { result ≡ window_first first seen }
{
    if seen == 0 { 0 } else { first }
}

/// Returns the parent of a node, if it has one.
fn above(nodes: &Slab<Node>, at: NodeId) -> Option<Node>
    requires node { ContainsKey nodes.now at.0 }
    requires parent { (node : Node) → get nodes.now at.0 ≡ Some node → IfSome node.parent (λ it. ContainsKey nodes.now it.0) }
    ensures { result ≡ node_above (get nodes.now) at.0 }
{
    let parent = nodes[at.0].parent?;
    Some(nodes[parent.0])
}

/// Returns the other child of this node.
fn sibling_of(parent: &Node, at: NodeId) -> Option<NodeId>
    ensures { result ≡ child_on parent.now (other_side (side_of parent.now at.0)) }
{
    match parent.side_of(at) {
        Side::Left => parent.right,
        Side::Right => parent.left,
    }
}

/// Returns a node as it is in the place of its parent, with the window that it had through both over the nodes above.
/// `room` is how many pages the node above the parent has.
fn lifted(node: Node, parent: Node, room: PageNo) -> Node
    requires { parent.first + parent.seen ≤ room }
    ensures { result ≡ lifted parent node }
{
    let seen = node.seen.min(parent.seen.saturating_sub(node.first));
    let first = if seen == 0 {
        0
    } else {
        node.first + parent.first
    };
    Node {
        parent: parent.parent,
        first,
        seen,
        ..node
    }
}

/// Puts a hidden node in the place of the leaf, which is `node`. Below it stand the leaf, with the list `list`, and the
/// child.
fn put_pair(nodes: &mut Slab<Node>, leaf: NodeId, node: Node, child: Node, list: ListId) -> Pair
    requires room { HasRoomFor nodes.old 2 }
    requires leaf { get nodes.old leaf.0 ≡ Some node }
    requires parent { IfSome node.parent (λ it. ContainsKey nodes.old it.0) }
    requires above { IfSome node.parent (λ it. it.0 ≢ leaf.0) }
    ensures free { (get nodes.old result.hidden.0 ≡ None) × (get nodes.old result.child.0 ≡ None) × (result.hidden.0 ≢ result.child.0) }
    ensures nodes { get nodes.new ≡ with_key
        (with_key
        (with_key (relinked (get nodes.old) node.parent leaf.0 result.hidden.0) result.hidden.0 (hidden_over node leaf.0 result.child.0))
        leaf.0
        (below_hidden node result.hidden.0 list.0))
        result.child.0
        (record child { parent = link_to result.hidden.0 }) }
    ensures capacity { nodes.new.capacity ≡ nodes.old.capacity }
    ensures below { (result.hidden.0 < nodes.new.capacity) × (result.child.0 < nodes.new.capacity) }
    ensures fits { nodes.new.capacity < 2 ^ 64 }
{
    let hidden = NodeId(nodes.insert_reserved(node));
    let child = NodeId(nodes.insert_reserved(Node {
        parent: Some(hidden),
        ..child
    }));
    nodes[hidden.0] = Node {
        koid: None,
        left: Some(leaf),
        right: Some(child),
        ..node
    };
    nodes[leaf.0] = Node {
        parent: Some(hidden),
        list,
        first: 0,
        seen: node.count,
        ..node
    };
    relink(nodes, node.parent, leaf, hidden);
    let _room = nodes.capacity();
    Pair { hidden, child }
}

/// Removes a leaf and the hidden node above it, and puts `node` in the hidden node's place: the sibling as it is there.
fn splice_nodes(
    nodes: &mut Slab<Node>,
    leaf: NodeId,
    hidden: NodeId,
    sibling: NodeId,
    parent: Option<NodeId>,
    node: Node,
)
    requires parent { IfSome parent (λ it. ContainsKey nodes.old it.0) }
    requires sibling { ContainsKey nodes.old sibling.0 }
    requires leaf { sibling.0 ≢ leaf.0 }
    requires hidden { sibling.0 ≢ hidden.0 }
    requires above { IfSome parent (λ it. it.0 ≢ hidden.0) }
    ensures nodes { get nodes.new ≡ with_key (without_key (without_key (relinked (get nodes.old) parent hidden.0 sibling.0)
        hidden.0) leaf.0) sibling.0 node }
    ensures capacity { nodes.new.capacity ≡ nodes.old.capacity }
{
    relink(nodes, parent, hidden, sibling);
    nodes.try_remove(hidden.0);
    nodes.try_remove(leaf.0);
    nodes[sibling.0] = node;
}

/// Returns how many pages the parent has, or 0 if there is none.
fn room_in(nodes: &Slab<Node>, parent: Option<NodeId>) -> PageNo
    requires { IfSome parent (λ it. ContainsKey nodes.now it.0) }
    ensures { IfSome parent (λ it. (node : Node) → get nodes.now it.0 ≡ Some node → result ≡ node.count) }
{
    match parent {
        Some(parent) => nodes[parent.0].count,
        None => 0,
    }
}

/// Returns a link to a child, changed to lead to `to` if it led to `from`.
fn moved_link(link: Option<NodeId>, from: NodeId, to: NodeId) -> Option<NodeId>
    ensures { result ≡ moved_link from.0 to.0 link }
{
    if leads_to(link, from) { Some(to) } else { link }
}

/// Puts another node in the place of a child of the parent, if there is one.
fn relink(nodes: &mut Slab<Node>, parent: Option<NodeId>, from: NodeId, to: NodeId)
    requires { IfSome parent (λ it. ContainsKey nodes.old it.0) }
    ensures nodes { get nodes.new ≡ relinked (get nodes.old) parent from.0 to.0 }
    ensures capacity { nodes.new.capacity ≡ nodes.old.capacity }
{
    let Some(parent) = parent else {
        return;
    };
    let node = nodes[parent.0];
    nodes[parent.0] = Node {
        left: moved_link(node.left, from, to),
        right: moved_link(node.right, from, to),
        ..node
    };
}
