//! The store of pages: what it contains and how it changes (`PageStore`), and the plain store (`FlatStore`), a map of
//! held pages. Over any store there are the bytes of a page (`read_page`, `write_page`), the pages that a name has
//! (`pages_of_name`), and how a VMO leaves it (`drop_gone`).
//!
//! It stands on `vm_model`, whose contents the contracts speak of, and on `frame_pool` and `pair_map` for the plain store.
//! The layers above use the trait, and make a store by `FlatStore::new`. A checker keeps its pages in a plain store, which
//! shares with the clone tree only the buffer of frames (`FramePool`) and the ordered tables.
#![tactic(auto)]

mod flat_store;
mod frames;
mod leaving;
mod names;
mod page_bytes;
mod page_store;
mod refusing_store;

pub use flat_store::FlatStore;
pub use leaving::drop_gone;
pub use names::{pages_of_name, size_of_name};
pub use page_bytes::{read_page, write_page};
pub use page_store::{Look, PageStore};
pub use refusing_store::RefusingStore;
