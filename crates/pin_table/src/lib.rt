//! The pins of the machine (`PinTable`): under each pin's name the pages that it keeps in their frames.
//!
//! It stands on `vm_model`, in whose words its contracts speak: a map from the numbers of pins (`pins_of`). It also
//! stands on `pair_map`, for the pages that are pinned. The layer above makes a table by `PinTable::new`, and takes
//! room by `PinTable::reserve` before it adds a pin.
#![tactic(auto)]

mod pages;
mod pin_table;

pub use pin_table::PinTable;
