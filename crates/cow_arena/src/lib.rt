//! The nodes of the clone tree: visible nodes, one for each VMO, and hidden nodes (the kernel's hidden parents), which
//! hold what the two nodes below them share.
//!
//! `CowArena` keeps the nodes in a slab. Of each node it keeps the parent, the children, the page list, and the window
//! over the parent. It stands on `page_list` for the number of a list, and never looks at a row. The contracts speak of
//! the nodes under their numbers (`nodes_of`), which are a forest (`IsForest`), and of how a page of a node is looked
//! for upwards (`walk`). They say which walks a change of the nodes leaves as they were, and that all rows stand in
//! lists of nodes (`HasListedRows`). `cow_split` comes next.
#![tactic(auto)]

mod arena;
mod node;

pub use arena::{CowArena, window_first};
pub use node::{Node, NodeId, Pair, Side};
