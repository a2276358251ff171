//! The names of VMOs, and what the machine keeps of each VMO beside its pages (`VmoTable`). That is whether it may
//! change its size, how it came to be, its parent, and how many keepers it has, which are pins and mapped pages. A VMO
//! that no name and no keeper keeps leaves the table, and its children get its parent.
//!
//! It stands on `vm_model`, in whose words its contracts speak: a map from names (`names_of`), a map from koids
//! (`lineage_in`), and a count for each koid (`keepers_of`). It also stands on `balanced_tree`, in which it keeps the
//! children of each VMO. The layer above makes a table by `VmoTable::new`, and takes room by `VmoTable::reserve` before
//! it enters a name.
#![tactic(auto)]

mod child_rows;
mod vmo_table;
mod vmos;

pub use vm_model::{NameKind, Origin, Target};
pub use vmo_table::VmoTable;
