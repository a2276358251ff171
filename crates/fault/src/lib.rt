//! Page faults: which pages of address spaces are translated, and reading and writing through mappings
//! (`Translations`).
//!
//! A translation is what the page tables of the processor have of a page: the frame of the page of the VMO that it
//! shows, and whether it may be written. An access to a page with a translation takes no page fault. It asks no other
//! table, and asks the store for the bytes of the frame alone. The layer above says what a command changed (`ReadyPages`),
//! and the translations that this made untrue are forgotten (`forget_changed`, `forget`, `forget_at`, `make_readonly`).
//! These calls find translations by the page of the VMO that they show, or by their own page, and never go over a range
//! page by page. All translations of a page of a VMO are the links of a list and hold one frame, so one look tells whether
//! all of them are forgotten or none.
//!
//! It stands on `ready_pages`, whose traits `Translations` implements, on `page_store`, on `pin_table`, and on `mapping_set`,
//! whose entries it translates. Its tables are of `pair_map` and `slab`. It speaks the words of `vm_model` on accesses and
//! readiness.
#![tactic(auto)]

mod checking;
mod forgetting;
mod frames;
mod lists;
mod needing;
mod page_map;
mod reading;
mod ready;
mod translation;
mod translations;
mod writable;
mod writing;

pub use translation::Translation;
pub use translations::Translations;
