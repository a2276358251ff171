//! The operations on VMOs: making them, their snapshots, slices and references; closing names; reading and writing;
//! owning, zeroing and pinning pages, and giving their frames back; changing the size. Each is one command of the
//! machine, by a name that is already looked up.
//!
//! It stands on `page_store`, whose trait it is generic over, on `vmo_table` and on `pin_table`. Its contracts say that
//! a call is the step of its command, as `vm_model` defines it. The layer above looks names up, calls an operation, and
//! makes a reply of its answer. An operation asks what refuses it, makes room, and is then done. What refuses it can be asked
//! apart (`ask_to_own` and the like): the answer is the refusal, or what was found. A clause says that it is the refusal of
//! the definitions.
#![tactic(auto,
// no VMO has more pages than fit
using(vm_model::proofs::ContentLaws::pages_of_le,
// where the host may lack memory, some page that is touched is held
crate::proofs::ZeroLaws::held_touched_any),
// what a state says of a name and of a VMO
unfolding(vm_model::specs::Machine::State::target_of, vm_model::specs::Machine::State::lineage_of,
// how names and VMOs come into a state
vm_model::specs::Machine::Step::with_alias, vm_model::specs::Machine::Step::with_vmo,
// and snapshots
vm_model::specs::Machine::Step::with_snapshot))]

mod aliases;
mod children;
mod closing;
mod committing;
mod copies;
mod decommitting;
mod filling;
mod held_pages;
mod making;
mod owning;
mod pinning;
mod ranges;
mod reading;
mod ready;
mod requests;
mod sizes;
mod snapshots;
mod writing;
mod zeroing;

pub use aliases::{ask_to_reference, ask_to_slice, reference_target, slice_target};
pub use children::create_child;
pub use closing::close;
pub use committing::{commit, commit_touching};
pub use copies::{count_copies, next_copy};
pub use decommitting::{ask_to_decommit, decommit, decommit_touching};
pub use filling::{fill, fill_touching};
pub use making::{ask_to_create, create};
pub use owning::{need_of, reserve_rows};
pub use pinning::{ask_to_pin, pin, pin_into, unpin};
pub use ranges::{PagePart, TouchedPages, part_in_page, place_in_vmo, touched_by, touched_pages};
pub use reading::{ask_to_read, read, read_into, read_range};
pub use ready::{RangeToChange, ask_to_own, reserve_to_own};
pub use requests::{ChildShape, NameRange};
pub use sizes::{ask_to_resize, is_pinned_past, resize};
pub use snapshots::{SeenPart, ask_to_snapshot};
pub use writing::{write, write_touching};
pub use zeroing::{ZeroCost, ask_to_zero, cost_to_zero, zero, zero_touching};
