//! The machine of page sources with loose children: its commands, and the definitions of its states and of its step, with their laws.
//!
//! A loose child shows the pages of its parent as they are, until it writes them itself. The definitions push a write down to each page
//! that shows it, and code walks up the links: that the two are one is a law here. It stands on `vm_model`, whose contents and
//! changes of pages it cites.
#![tactic(auto)]

mod backing;
mod call;
mod command;
mod laws;
mod link;

pub use backing::Backing;
pub use call::SourceCall;
pub use command::SourceCommand;
pub use laws::{
    a_name_that_is_closed_leaves_what_lives, a_step_keeps_the_sources_good,
    a_write_comes_to_what_shows_its_page, look_ups_find_the_text, paging_changes_no_text,
    the_empty_sources_are_good,
};
pub use link::Link;
