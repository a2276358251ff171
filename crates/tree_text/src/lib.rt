//! The clone tree as text: a line for each node, with its window, its rows and their split bits, indented by where it stands.
//!
//! `write_forest` pushes the text of a `CowForest` to a sink, and takes no memory. It stands on `cow_forest` for the tree, on
//! `cow_arena` and `page_list` for nodes and rows, on `word_text` for numbers, and on `script_io` for sinks. `walking` goes from a
//! node to the next one, `lines` writes what a line says, and `writing` pushes it.
#![tactic(auto)]

mod lines;
mod walking;
mod writing;

pub use lines::Form;
pub use writing::write_forest;
