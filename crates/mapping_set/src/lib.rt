//! What each page of each address space shows (`MappingSet`), as pieces of mappings.
//!
//! It stands on `vm_model`, in whose words its contracts speak: a table from the numbers of root regions and pages to entries
//! (`table_of`), and on `pair_map` for the pieces, which are held in two tables. By the root region and the last page of
//! each, one look-up finds the piece that has a page, or the next one. The second table has all that is taken in a region, by
//! first pages: the pieces that were mapped in it, and the places of other regions in it that the callers note
//! (`MappingSet::hold_place`). So each piece of a region is found with no look at those of another, and one search tells a
//! place that is free of both, or that there is none (`MappingSet::first_clear`). No table has a row for each page. What is
//! left of a piece that is cut, or loses pages, takes its row in the tables, and a second part is one row more. The layer above
//! makes a set by `MappingSet::new`, and takes room by `MappingSet::reserve` before it calls what takes some.
#![tactic(auto)]

mod mapping_set;
mod piece;
mod taken;

pub use mapping_set::MappingSet;
pub use piece::Piece;
pub use vm_model::Entry;
