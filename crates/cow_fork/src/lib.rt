//! Giving a page of a VMO a frame of its own in the clone tree, and making one zero.
//!
//! It stands on `cow_split`, by which a page is cut off from the row that it sees, on `cow_jump`, by whose jumps a row
//! further up is found, and on `frame_pool`. A frame is copied only if another VMO shows it. Otherwise it moves to the page
//! (`fork`), or is given back (`mark_zero`). Rows that say zero and hide nothing go (`sweep`). Of the contracts, the layer above uses that the tree stays exact over the
//! frames that are taken, that only the leaf's page changes what it shows (`HasOwned`, `HasZeroed`), and what becomes of the
//! frames.
#![tactic(auto)]

mod forking;
mod sharing;
mod sweeping;
mod zeroing;

pub use forking::{fork, fork_holder};
pub use sharing::{Snapshot, share};
pub use sweeping::sweep;
pub use zeroing::{mark_zero, zero_by_jumps};
