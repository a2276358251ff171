//! One machine: its names, pins and regions, what is ready, and one answer for each command. It is generic over the pages
//! of VMOs and over what keeps which pages are ready, so that the machine of the commands and that of a checker are its
//! instances.
//!
//! It stands on `vmo_ops` and `region_ops` for what commands do to VMOs and to address spaces, on `vmo_table` for names
//! and lineage, on `pin_table` for pins, on `region_tree` and `mapping_set` for regions and what pages show, on
//! `attribution` for what a VMO holds and what is mapped in a region, and on `page_store` and `ready_pages`, whose traits it is
//! generic over. Its contract is the step relation of `vm_model`.
#![tactic(auto)]

mod accessing;
mod asking;
mod changing;
mod dispatching;
mod groups;
mod machine;
mod mappings;
mod naming;
mod pinning;
mod placing;
mod requests;
mod spaces;
mod tables;

pub use groups::{Group, group_of};
pub use machine::Machine;
pub use requests::{ChildRequest, PinRequest, RegionCommand, region_command};
