//! What commands do to address spaces: a region is allocated in another (`allocate`), a part of a VMO is mapped into
//! one (`map`), the pages of a range are unmapped (`unmap`), what accesses to them may do is changed (`protect`), and a
//! region is destroyed with all below it (`destroy`).
//!
//! It stands on `region_tree` and `mapping_set`, and on `vmo_table` and any `PageStore`: each entry keeps its VMO, which
//! leaves with the last that keeps it. Each call promises that it is the step of its command (`vm_model`), whatever else
//! the state has. The layer above has looked the names up, so that a call begins with the refusals that rest on regions
//! and arguments. `unmap`, `protect` and `destroy` have one that is handed the region that was found: the machines call
//! that one, and the other is for callers outside. What refuses a command can be asked apart (`ask_to_map` and the like):
//! the answer is the refusal, or what was found. A region or a mapping is put at a place that was found or is given
//! (`allocate_at`, `map_at`), so a machine that is told the place goes by the same code.
//!
//! `allocate_at`, and a search that is told so (`SearchedRegion`), rest on that the live children of each region are noted
//! (`AreNoted` of `region_tree`), and all keep it so.
#![tactic(auto,
// where a region and a place in it end
using(crate::proofs::PlaceLaws::live_end, crate::proofs::PlaceLaws::place_inside, crate::proofs::PlaceLaws::place_end),
// the region of a name
unfolding(vm_model::specs::Space::Regions::region_of, vm_base::specs::Entries::passes))]

mod allocating;
pub mod laws;
mod leaving;
mod mapping;
mod placing;
mod protecting;
mod ranges;
mod rooting;
mod unmapping;

pub use allocating::{AllocateRequest, allocate, allocate_at, ask_to_allocate};
pub use mapping::{MapRequest, ask_to_map, is_map_place, map, map_at, map_in, piece_at};
pub use placing::{SearchedRegion, Wanted, ask_for_region, is_place};
pub use protecting::{ask_to_protect, protect, protect_in};
pub use ranges::{PageRange, RegionRange};
pub use rooting::create_root;
pub use unmapping::{ask_to_unmap, destroy, destroy_in, is_mapped_in, unmap, unmap_in};
