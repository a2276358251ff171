//! A machine that is held between lines, for whoever calls it in process.
//!
//! `HeldVm` is an interpreter of `line_server` with its store. `answer` answers one line of a script and writes the reply to the bytes of its
//! caller, who needs neither a source nor a sink. `new` holds the machine of `run`, whose lines are answered by the same code as in
//! `serve` and `run`, and `hold` any other interpreter. `vmosim_c` offers the first to programs in C, and a program in Rattle may compare a
//! model of its own with it line by line. `told` is what such a program in C is told of a call, a length and a number.
#![tactic(auto)]

mod held;
mod told;

pub use held::{AnswerError, HeldVm};
pub use told::{
    Answered, CLOSED, DONE, FRAME_COUNT, OUT_OF_KOIDS, OUT_OF_MEMORY, OUT_OF_ROOM, OpenError,
    ScriptError, tell_line, tell_refusal, tell_script,
};
