//! The page frames of the machine, and their bytes (`FramePool`). A frame is free, or it was taken
//! and has the bytes of a page.
//!
//! It stands on `vm_base` alone. The layer above makes a pool by `FramePool::new`, and sees it as a
//! number of frames (`frames`) and a map from the tags that are taken to their bytes (`taken_frames`).
#![tactic(auto)]

mod frame_pool;

pub use frame_pool::{Backlink, FramePool};
