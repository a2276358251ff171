//! What the pages of address spaces are ready for, for a machine over the plain store (`ReadyMap`): beside each
//! ready page the page of a VMO that it shows, and the frame that this page had. It is an implementation of `ReadyPages`.
//!
//! A page of a VMO has a stamp if some page is ready for an access to it, and each ready page the time at which it was made
//! ready. So what a page of a VMO makes ready is reset by one change of its stamp, however many address spaces show it. The stamp
//! counts the notes under it and goes with the last, so that nothing stays of pages that are shown no longer (`stamps`).
//!
//! An access finds the entries of the pages that it touches once, and looks once at what each is ready for. It has at most
//! `DATA_BYTES` bytes, so it touches no page, one or two. What refuses an access can be asked apart (`refusal_to_read`,
//! `refusal_to_write`), and so can whether it may want memory of the host (`wants_memory_to_read`, `wants_memory_to_write`).
//!
//! It stands on `page_store` for the bytes and the frames that pages have now, and shares the tables of address spaces
//! (`MappingSet`, `Regions`) with the machine that is judged. It calls no code of the clone tree or of page faults.
#![tactic(auto)]

mod asking;
mod finding;
mod needing;
mod noted;
mod places;
mod reading;
mod ready_map;
mod stamps;
mod touching;
mod writing;

pub use asking::{refusal_to_read, refusal_to_write, wants_memory_to_read, wants_memory_to_write};
pub use ready_map::{ReadyMap, ReadyPage};
