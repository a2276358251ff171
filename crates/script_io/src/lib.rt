//! Where the bytes of a script come from, where replies go, and how a run ends.
//!
//! A `Source` gives bytes and a `Sink` takes them. Each counts its faults, so a layer above can promise that it reports
//! a fault only if one was counted, or if the count stands at its end. `SureSource`, `MemSource`, `MemSink` and
//! `SliceSink`, over bytes of its caller, stand in memory and tell their bytes to clauses. `CountSink` only counts bytes.
//! `ReadSource` and `WriteSink` stand over a reader and a writer, such as the system's streams. `Lines` reads a source line
//! by line, and `push_all` pushes all of some bytes. It stands on `vm_base`, and finds line feeds by the ported crate
//! `memchr`. The layers above may use all of it.
#![tactic(auto)]

mod count_sink;
mod line_buffer;
mod line_reader;
mod mem_sink;
mod mem_source;
mod noted;
mod plan;
mod read_source;
mod sink;
mod slice_sink;
mod source;
mod status;
mod sure_source;
mod write_sink;

pub use count_sink::CountSink;
pub use line_reader::{Fetch, Lines};
pub use mem_sink::MemSink;
pub use mem_source::MemSource;
pub use read_source::ReadSource;
pub use sink::{Sink, push_all};
pub use slice_sink::SliceSink;
pub use source::Source;
pub use status::{Status, code};
pub use sure_source::SureSource;
pub use write_sink::WriteSink;
