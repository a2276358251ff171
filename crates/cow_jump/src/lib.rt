//! Jumps: ways upwards in the clone tree over many nodes at once, for walks to the row of a page.
//!
//! It stands on `cow_split`, whose walk upwards (`holder`) it shortens. `JumpTable` has a jump for some nodes; a snapshot gives
//! its two nodes theirs (`note_pair`). A close retires those to nodes that go (`retire_pair`), and the node that takes the place of
//! its parent gets one anew (`renew_jump`). Of the contracts, the layer above uses that each jump says what the tree says
//! (`AreJumps`), and that a walk by jumps comes to the same row (`holder_by_jumps`). A jump stays right where rows go, and where
//! nodes of VMOs get rows (`JumpRowLaws`).
#![tactic(auto)]

mod jumping;
mod jumps;

pub use jumping::{
    above_by_jumps, above_with, holder_by_jumps, holder_by_jumps_counted, note_pair, renew_jump,
    retire_pair,
};
pub use jumps::{Jump, JumpTable};
