//! The nodes and pages that the calls of this crate speak of.

use cow_arena::{Node, NodeId, Side};
use vm_base::PageNo;

/// A VMO's node, its parent, which is hidden, and the other child of the parent.
#[derive(Clone, Copy)]
pub(crate) struct Family {
    pub(crate) leaf: NodeId,
    pub(crate) hidden: NodeId,
    pub(crate) sibling: NodeId,
}

/// The window of a VMO's node over its parent: page `q` of the node comes to page `q + shift` of the parent.
#[derive(Clone, Copy)]
pub(crate) struct Window {
    pub(crate) leaf: NodeId,
    pub(crate) hidden: NodeId,
    pub(crate) shift: PageNo,
}

/// The pages of a VMO's node from `first` on, as they come to a node above it. Page `q` comes to page `q + shift` of
/// that node, which is below `to`.
#[derive(Clone, Copy)]
pub(crate) struct Span {
    pub(crate) first: PageNo,
    pub(crate) shift: PageNo,
    pub(crate) to: PageNo,
}

/// A VMO's node, a node `at` above it, which is `node`, and the side from which the walk comes there.
#[derive(Clone, Copy)]
pub(crate) struct Arrival {
    pub(crate) leaf: NodeId,
    pub(crate) at: NodeId,
    pub(crate) node: Node,
    pub(crate) side: Side,
}
