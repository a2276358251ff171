//! The machine for programs in C, and for others that call as C does.
//!
//! A caller keeps a `Vmosim`, 16 bytes: it opens it, has lines answered one by one, and closes it. Or it has a whole script answered by one
//! call. `include/vmosim.h` is what C reads, and says what a caller owes.
//!
//! `kept` opens, answers and closes a machine: `HeldVm` of `held_vm` over the clone tree, in a box. `handle` turns the box into what is
//! kept, and back. `script` answers a whole script, by `serve` of `vm_session`. `exports` has the calls, and `laws` what follows from their
//! clauses alone. `tools/build_library` makes a static library of it, which is proved anew wherever it is built.
#![tactic(auto)]

mod exports;
mod handle;
mod kept;
mod laws;
mod opening;
mod script;

pub use exports::{vmosim_close, vmosim_line, vmosim_open, vmosim_script};
pub use handle::Handle;
pub use kept::Vmosim;
pub use laws::done_line_leaves_the_machine_after;
pub use opening::KeptVm;
