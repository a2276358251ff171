//! Whether a transcript is legal: a script, and behind each of its lines the lines of its replies.
//!
//! `Checker` reads a transcript line by line, and says of each line whether a machine may have answered it, where pages move
//! (`moving_model`). It keeps a machine of its own, which does each command as the reply says (`checker_machine`), and the
//! numbers that were given of the frames of pinned pages (`numbers`). `answering` compares a reply line with what the
//! checker's machine may answer. `run_check` is the program: it reads a source to its end and writes one line. The layer
//! above may use `run_check`.
#![tactic(auto)]

mod answering;
mod checker;
mod checking;
mod lines;
mod numbers;
mod reports;
mod rooms;
mod verdict;

pub use checker::Checker;
pub use checking::run_check;
pub use verdict::Verdict;
