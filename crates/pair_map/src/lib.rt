//! Maps from pairs of numbers, over the balanced tree: for tables that keep an order and have their keys in two parts.
//!
//! `PairMap` has a value under a pair: of the contracts its callers see `values_of`, the value of each pair.
//! `ExtentMap` has extents of several lists, which stand apart (`StandApart`): its callers see `extents_of`, the extent
//! of each list and first number, look for the extent that has a number, ask whether a range is open, and find the
//! first open range of a size. An extent that loses its last numbers, or numbers in its middle, keeps its row in the tree.
//! Both take room by `reserve` before anything is added, and are generic in the value. The rows that stand in the tree are
//! private to the crate. It stands on `balanced_tree` alone.
#![tactic(auto)]

mod extent_map;
mod pair_map;
mod pair_row;
mod stretch_row;

pub use extent_map::ExtentMap;
pub use pair_map::PairMap;
pub use stretch_row::Extent;
