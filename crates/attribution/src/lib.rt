//! What a VMO holds (`info`), what the machine holds (`stat`), and what is mapped in a region (`maps`).
//!
//! It stands on `page_store` and `vmo_table`, for regions on `mapping_set` and `region_tree`, and its contracts speak
//! in the words of `vm_model`. The layer above uses it to answer the commands that ask. `laws` states that the charged
//! pages of all VMOs add up to the frames in use.
#![tactic(auto)]

mod counts;
pub mod laws;
mod machine_stat;
mod region_maps;
mod vmo_info;

pub use machine_stat::stat;
pub use region_maps::{maps, runs_in};
pub use vmo_info::info;
