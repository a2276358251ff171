//! Page lists: which page of which list has a row, and what the row says of the page.
//!
//! `PageLists` is one table of rows from a list and a page to a slot, in the balanced tree (`balanced_tree`). A filter
//! beside it (`filter.rt`) tells most empty lists, and most pages without a row, by one test. The layer above gives
//! each list a number, takes room by `PageLists::reserve` before it adds rows, and of the contracts sees `slots_of`,
//! which slot each page of each list has, how many rows there are (`row_count`), and how many more fit.
#![tactic(auto)]

mod filter;
mod page_lists;
mod row;

pub use balanced_tree::Steps;
pub use page_lists::PageLists;
pub use row::{ListId, Row, RowSlab, Slot};
