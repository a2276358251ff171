//! The machine of a kernel that moves pages: what is legal where page frames move.
//!
//! A kernel may move a page that no pin covers to another frame, so who reads its replies can't know which frame such a
//! page has. `specs/` says what a renaming of frames is, and which steps, runs and texts are legal where pages move.
//! `laws` states what holds of them: that a step under other numbers is a step, and that moves are not seen where no
//! reply tells frames. `following` states what a checker of transcripts rests on.
//!
//! It stands on `vm_model`, and has no code.
#![tactic(auto)]

pub mod following;
pub mod laws;
