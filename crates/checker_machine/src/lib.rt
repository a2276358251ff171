//! The machine that a checker of transcripts keeps (`CheckerMachine`): one `Machine` over the plain store, with notes of what is
//! ready. It does each command, and says whether a reply of want of memory may come. Where a reply tells a place, the
//! place is the one that the transcript tells.
//!
//! It stands on `machine`, which does the commands, on `page_store` and `checker_ready` for pages and for what they are ready
//! for, and on the questions of `vmo_ops` and `region_ops` for what may want memory. It calls no code of the clone tree, and
//! none of the code of page faults. The layer above makes it by `CheckerMachine::new`, gives it frames by `fill`, and hands it
//! one call after another. Contracts see the machine that it stands for (`checker_machine_of`). A call that answers `HostMemory`
//! changes nothing.
#![tactic(auto,
// the region of a name
unfolding(vm_model::specs::Space::Regions::region_of, vm_base::specs::Entries::passes))]

mod checker_machine;
mod wanting;

pub use checker_machine::CheckerMachine;
