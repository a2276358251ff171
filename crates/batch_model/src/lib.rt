//! Range operations in pieces: the machine with its jobs that the crates above are proved against, and the plain types that it
//! speaks of.
//!
//! A job is a commit, a zero or a decommit of whole pages that is done some pages at a time, while other commands come between.
//! `specs/` is what a reader must believe: jobs and their pieces, the step of each command, and what lists of steps are.
//! `src/` has the types of jobs, commands and replies, and `laws` states what holds of the definitions alone.
//!
//! It stands on `vm_model`, whose step a plain command and a piece each are. The layers above may use all of it.
#![tactic(auto)]

mod command;
mod job;
pub mod laws;
mod lent;

pub use command::{BatchCommand, BatchReply};
pub use job::{Job, JobKind, JobName};
pub use lent::{BatchAnswer, BatchCall};
