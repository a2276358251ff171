//! A node of the clone tree.

ghost use Rattle.std.specs.Prelude.{◌≡◌};
ghost use Rattle.cow_arena.specs.Nodes.{side_of, child_on, leads_to};

use page_list::ListId;
use vm_base::{Koid, PageNo};

/// The number of a node in its arena. Once the node is gone, another may get the number.
#[derive(Clone, Copy, Debug, PartialEq, Eq)]
pub struct NodeId(pub usize);

/// The side on which one of the two children of a hidden node stands.
#[derive(Clone, Copy, Debug, PartialEq, Eq)]
pub enum Side {
    /// The one of which the snapshot was made.
    Left,
    /// The snapshot.
    Right,
}

/// The two nodes that a snapshot adds.
#[derive(Clone, Copy, Debug, PartialEq, Eq)]
pub struct Pair {
    /// The hidden node, in the place of the node of which the snapshot was made.
    pub hidden: NodeId,
    /// The node of the snapshot.
    pub child: NodeId,
}

/// A node. A node with a koid is visible, the node of a VMO, and has no children. A node without one is hidden and has
/// two.
///
/// If page q of a node has no row in the node's own list, it shows what page `first + q` of the parent shows, if q is
/// below `seen`. Otherwise it is zero.
#[derive(Clone, Copy, Debug, PartialEq, Eq)]
pub struct Node {
    pub koid: Option<Koid>,
    pub parent: Option<NodeId>,
    pub left: Option<NodeId>,
    pub right: Option<NodeId>,
    /// The page list with the node's own rows.
    pub list: ListId,
    /// The number of pages of the node.
    pub count: PageNo,
    /// The page of the parent where the node's window over it begins.
    pub first: PageNo,
    /// The number of pages of the window.
    pub seen: PageNo,
}

impl Node {
    /// Returns the side on which a child of this hidden node stands.
    pub fn side_of(&self, child: NodeId) -> Side
        ensures { result ≡ side_of self.now child.0 }
    {
        if leads_to(self.left, child) {
            Side::Left
        } else {
            Side::Right
        }
    }

    /// Returns the child on this side. `None` if the node is visible.
    pub fn child_on(&self, side: Side) -> Option<NodeId>
        ensures { result ≡ child_on self.now side }
    {
        match side {
            Side::Left => self.left,
            Side::Right => self.right,
        }
    }
}

/// Reports whether a link leads to this node.
#[tactic(auto, unfolding(vm_base::specs::Entries::passes))]
pub(crate) fn leads_to(link: Option<NodeId>, to: NodeId) -> bool
    ensures { result ≡ leads_to link to.0 }
{
    match link {
        Some(at) => at.0 == to.0,
        None => false,
    }
}
