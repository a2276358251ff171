//! A run of the machine over a script, from the bytes of a source to the bytes of a sink, or over
//! commands that are generated from a number.
//!
//! It stands on `vm_core` for the step, on `line_server` for the loop over lines, on `script_text`, `reply_text` and
//! `word_text` for lines and replies, and on `script_io` for sources and sinks. `run` is the call that the program makes, and
//! its contract is the theorem of the whole project. `VmInterpreter` answers a single line, for whoever keeps a machine between
//! lines.
#![tactic(auto)]

mod interpreter;
mod laws;
mod rooms;
mod serving;
mod session;
mod tally;
mod words;
mod working;
mod workload;

pub use interpreter::VmInterpreter;
pub use laws::answered_lines_are_a_legal_run;
pub use script_io::{Status, code};
pub use serving::serve;
pub use session::run;
