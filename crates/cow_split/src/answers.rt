//! Answers about a page of a node.

ghost use Rattle.std.specs.Prelude.{◌≡◌, None, Some, IfSome, IfNone};
ghost use Rattle.cow_split.specs.Trees.{frame_held};

use cow_arena::{NodeId, Side};
use page_list::Slot;
use vm_base::{PageNo, Tag};

/// The row that says what a page of a node shows.
#[derive(Clone, Copy, Debug, PartialEq, Eq)]
pub enum Holder {
    /// The node's own row.
    Own(Slot),
    /// The row of a page of a hidden node above the node, and the side from which the walk comes to it.
    Above {
        node: NodeId,
        page: PageNo,
        side: Side,
        slot: Slot,
    },
    /// There is no row: the page is zero.
    Nothing,
}

impl Holder {
    /// Returns the frame of the page. `None` if and only if the page is zero.
    pub fn frame(self) -> Option<Tag>
        ensures some { IfSome result (λ tag. frame_held self ≡ Some tag.0) }
        ensures none { IfNone result (frame_held self ≡ None) }
    {
        match self {
            Holder::Own(Slot::Frame { tag, .. })
            | Holder::Above {
                slot: Slot::Frame { tag, .. },
                ..
            } => Some(tag),
            _ => None,
        }
    }
}

/// A row of a page of a hidden node, and the side of the node from which a page of a node below comes to it.
#[derive(Clone, Copy)]
pub struct RowAbove {
    pub node: NodeId,
    pub page: PageNo,
    pub side: Side,
    pub slot: Slot,
}

/// The viewers of the frame of a page, once the page is cut off from the row that it saw.
#[derive(Clone, Copy, Debug, PartialEq, Eq)]
pub enum Cut {
    /// Another VMO sees the frame.
    StillSeen,
    /// No other VMO sees the frame. Its row is gone, and the frame is the caller's.
    LastViewer(Tag),
    /// The page saw no frame.
    NothingThere,
}
