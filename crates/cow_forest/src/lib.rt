//! The store of pages over the clone tree (`CowForest`): snapshots share the page frames of their VMOs through hidden nodes,
//! and copy none.
//!
//! It stands on `cow_fork` and `cow_merge`, by which the tree changes, on `frame_pool`, and on `page_store`, whose contract
//! (`PageStore`) it meets. The layers above make one by `CowForest::new` and see its content. Beyond that contract its calls
//! say which rows and nodes they add, and the counted ones (`look_counted`, `zero_range`) how many steps they take.
#![tactic(auto)]

mod forest;
mod founders;
mod looking;
mod node_table;
mod owning;
mod ranges;
mod sweeps;
mod tables;
mod viewing;

pub use forest::CowForest;
