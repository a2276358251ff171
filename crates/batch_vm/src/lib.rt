//! The machine with jobs: range operations that are done a few pages at a time, while other commands come between.
//!
//! It stands on `vm_core`, whose step a plain command and a piece of a job each are, and on `pair_map` for the jobs. Its contract is
//! the step relation of `batch_model`. The layers above make a `Batch` by `Batch::new` and give it commands by `Batch::step`. `BatchInterpreter`
//! answers a single line, for whoever keeps a machine between lines.
#![tactic(auto)]

mod batch;
mod beginning;
mod interpreter;
mod job_table;
mod pieces;
mod reading;
mod serving;
mod stepping;
mod words;
mod writing;

pub use batch::Batch;
pub use batch_model::{BatchAnswer, BatchCall, BatchCommand, BatchReply, Job, JobKind, JobName};
pub use interpreter::BatchInterpreter;
pub use reading::{BatchLine, read_batch_call, read_batch_line};
pub use serving::run_batch;
pub use writing::{batch_line_count, write_batch_line};
