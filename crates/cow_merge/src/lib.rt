//! Shrinking a VMO in the clone tree, and closing one: frames that only it showed are given back, and a hidden node
//! that is left with one child is merged into this child.
//!
//! It stands on `cow_split`, by which pages are cut off from the rows that they see, and on `frame_pool`. It goes over
//! a range by the rows of the lists on the way upwards, through the windows, and never page by page. Of the contracts,
//! the layer above uses that the tree stays exact over the frames that are taken, and that every other VMO shows what
//! it showed (`KeepsPages`, `HasGone`).
#![tactic(auto)]

mod closing;
mod handing;
mod lifting;
mod places;
mod ranges;
mod sharing;
mod shrinking;
mod uncovering;
mod witness;

pub use closing::{close, close_by_jumps};
pub use shrinking::{shrink, shrink_by_jumps};
