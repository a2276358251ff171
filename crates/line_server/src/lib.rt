//! The serving of a script line by line, by whatever interprets its lines.
//!
//! `read_lines` reads the lines of a source by `Lines`, one after another. What is done with a line is a `Turn`. A program of lines
//! is an `Interpreter`: it says which text may answer a line from which state, and answers so. `serve` has each line of a script
//! answered, and returns how that ended. `serve_asked` does so with the frames that a command line asks for, which `frames_asked`
//! reads. `push_answer` and `push_syntax` write answers. It stands on `page_store` for what an interpreter works on, on `script_io`
//! for sources, sinks and lines, and on `script_text` and `reply_text` for words and replies.
#![tactic(auto)]

mod answering;
mod interpreter;
mod reading;
mod replies;
mod serving;
mod words;

pub use interpreter::Interpreter;
pub use reading::{Turn, read_lines};
pub use replies::{push_answer, push_syntax};
pub use serving::{Bounds, serve, serve_asked};
pub use words::{decimal_of_word, frames_asked, frames_in};
