//! The regions of address spaces (`Regions`): a tree of regions under each root region, and the search for a free place
//! in a region.
//!
//! It stands on `vm_model`, in whose words its contracts speak: a map from the numbers of names (`regions_of`), whose
//! regions are good (`AreGoodRegions`), and what a free place is (`is_free`, `has_place`). It keeps the regions in a
//! `PairMap`, and the live children of each in an `ExtentMap`, so no call walks over all children of a region. It asks
//! `mapping_set` where the entries of a region are. If the layer above notes the live children of each region there
//! (`AreNoted`), one search in the set of mappings finds a free place, or that there is none
//! (`Regions::find_gap_noted`). The laws of `proofs/NotedLaws` say that the children stay noted as regions come and go.
//! The layer above makes the regions by `Regions::new`.
#![tactic(auto)]

mod fields;
mod tree;

pub use tree::{Destroyed, Regions};
pub use vm_model::Region;
