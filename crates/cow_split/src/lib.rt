//! Who sees a row of the clone tree: the walk upwards from a node to the row that shows its page, the search downwards
//! for the visible nodes that see a row, and the split bits, which say of a hidden node's row that no VMO on a side
//! sees it.
//!
//! It stands on `cow_arena` and `page_list`. It changes nothing but a row's bits, or removes a row that nobody sees any
//! more (`cut`, `cut_row`). Of the contracts, the layer above uses that a tree is exact (`IsExact`) over the frames
//! that are taken, with some pages of visible nodes left out of sight, and that a cut leaves one page more out.
#![tactic(auto)]

mod answers;
mod climbing;
mod cutting;
mod existing;
mod others;
mod search;
mod viewers;

pub use answers::{Cut, Holder, RowAbove};
pub use climbing::{holder, holder_above};
pub use cutting::{cut, cut_holder, cut_row, is_last};
pub use existing::reached_from;
pub use search::{sees, side_seen};
pub use viewers::{koid_below, least_koid, lesser, viewer_count};
