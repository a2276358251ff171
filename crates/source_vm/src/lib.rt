//! VMOs whose pages come from a source: a page is filled from a stored function when it is first needed, and may be evicted as
//! long as it has the bytes of its source. The functions stand in for the kernel's pagers. Loose children show the pages of their
//! parents until they write them themselves.
//!
//! `SourceVm` is the machine, over any store of pages: `step` does a `SourceCommand`, and `answer` a `SourceCall`. `read_source_line`
//! reads a line of a script, and `run_sources` runs one. It stands on `source_model` for the commands and the definitions of the step,
//! on `page_store` for the store, on `pair_map` for its tables, on `script_text` for the fields of a line, and on `line_server` for the loop
//! over lines. It keeps no text: reads walk up the links, from loose children to the page whose bytes they show (`walk`).
#![tactic(auto)]

mod accesses;
mod closing;
mod interpreter;
mod lifetimes;
mod page_bytes;
mod ranges;
mod reading;
mod serving;
mod source_byte;
mod source_fn;
mod table;
mod vm;
mod walk;

pub use reading::{SourceLine, read_source_call, read_source_line};
pub use serving::run_sources;
pub use source_byte::src_byte;
pub use source_fn::SourceFn;
pub use source_model::{SourceCall, SourceCommand};
pub use vm::SourceVm;
