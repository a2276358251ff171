//! The words that every layer of the machine speaks: names of objects, frame tags, refusals, limits,
//! page arithmetic, and the sets of permissions and map options. Its definitions say what a map from
//! numbers, a search and a count are, with their laws (`specs/`, `proofs/`).
//!
//! It stands on `bitflags` alone. The layers above may use all of it.
#![tactic(auto)]

mod flags;
mod limits;
mod names;
mod pages;
mod refusal;

pub use flags::{MapFlags, Perm};
pub use limits::{
    ACTOR_MAX, DATA_BYTES, DEFAULT_FRAMES, FRAMES, INPUT_BYTES, KOIDS, LINE_BYTES, NAMES, PAGE,
    PAGE_BYTES, PAGES_END, PIN_PAGES, ROOT_END, ROOT_FIRST, SCRIPT_BYTES, SOURCE_BYTES,
    SOURCE_KIND_MAX, SOURCE_PAGES, TEXT_BYTES, TEXT_ROOM, VMO_PAGES, WORK_COUNT,
};
pub use names::{Koid, PinName, RegionName, Tag, VmoName};
pub use pages::{PageNo, in_page, page_count, page_of, round_up};
pub use refusal::{Failed, HostMemory, Refusal};
