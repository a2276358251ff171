//! A balanced search tree of rows that stand in a slab (`BalancedTree`), for every table that keeps an order: its
//! callers see the list of the rows by rising rank, and room for more.
//!
//! It stands on `slab` alone. A row type implements `TreeRow`: it names the rank of a row, and holds the links and
//! the height that the tree stores in it. A row type that stands for extents implements `ExtentRow` too, and the tree
//! then finds the first gap of a size between them. A row type whose key is a pair of numbers has `pair_rank` for its
//! rank, and the laws on pairs (`PairLaws`). `Steps` counts the rows that a call looks at, puts, adds or takes.
#![tactic(auto)]

mod balanced_tree;
mod changes;
mod children;
mod descent;
mod extent_row;
mod gaps;
mod insertion;
mod moving;
mod pairs;
mod removal;
mod rotation;
mod row_slab;
mod spans;
mod steps;
mod tree_row;

pub use balanced_tree::BalancedTree;
pub use children::{Child, link_to};
pub use extent_row::ExtentRow;
pub use pairs::pair_rank;
pub use row_slab::RowSlab;
pub use spans::{Span, span_over};
pub use steps::Steps;
pub use tree_row::TreeRow;
