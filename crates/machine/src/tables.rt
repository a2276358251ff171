//! The tables of the machine, as one value.

use mapping_set::MappingSet;
use pin_table::PinTable;
use region_tree::Regions;
use std::alloc::Global;
use vmo_table::VmoTable;

/// The names, VMOs, pins, regions and mappings of a machine.
#[derive(Drop)]
pub(crate) struct Tables {
    /// The allocator that gives room for a list of mappings.
    pub(crate) alloc: Global,
    pub(crate) vmos: VmoTable,
    /// The pins. Each is counted in `vmos` as a keeper of its VMO.
    pub(crate) pins: PinTable,
    pub(crate) regions: Regions,
    /// The mappings, beside which the live children of each region are noted.
    pub(crate) maps: MappingSet,
}
