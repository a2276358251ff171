//! What pages of address spaces are ready for, however it is kept: a machine of the commands keeps translations, and a
//! checker keeps notes under stamps. `ReadyPages` has what both do: they take back what a command made untrue, and read and
//! write through mappings.
//!
//! It stands on `page_store`, whose VMOs are shown, on `pin_table`, since a snapshot leaves pinned pages as they are, and on
//! `mapping_set`, whose entries say what each page shows. It speaks the words of `vm_model` on accesses and readiness.
#![tactic(auto)]

mod change;
mod ready_pages;

pub use change::Change;
pub use ready_pages::{ReadyNotes, ReadyPages};
