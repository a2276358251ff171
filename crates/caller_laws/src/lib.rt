//! What a caller of the lower crates knows at plain arguments, by their contracts alone.
//!
//! Each law stands in place of wrong bodies: if a contract allowed another answer at the law's arguments, the law would
//! not be proved any more. No crate stands on this one.
#![tactic(auto)]

mod data;
mod flags;
mod machines;
mod numbers;
mod pins;
mod scripts;
mod streams;
mod trees;

pub use data::a_byte_comes_behind_the_others;
pub use flags::{
    a_right_is_found_by_its_name, map_options_have_their_bits, rights_have_their_bits,
};
pub use machines::a_new_machine_agrees_with_any_empty_store;
pub use numbers::{
    a_page_begins_at_its_number, codes_differ, one_byte_more_is_a_page_more, whole_pages_stay,
};
pub use pins::{a_pin_is_told, a_removed_pin_is_told};
pub use scripts::{
    a_comment_has_more_than_its_mark, a_flag_is_written_by_its_word, a_flag_stands_once,
    a_leading_zero_is_no_name, a_line_of_the_greatest_length_is_read, a_longer_word_is_no_command,
    a_read_is_written_with_its_offset_first, a_tab_parts_words, a_word_of_a_byte_more_is_no_data,
    bytes_are_read_from_the_word, data_may_end_before_a_tab, offset_comes_before_length,
    offset_of_a_read_comes_before_its_length, the_greatest_number_is_read,
    two_to_the_64_is_no_number,
};
pub use streams::a_failed_read_is_counted_and_told;
pub use trees::{
    a_close_leaves_no_hidden_node, a_page_without_a_parent_takes_one_look_up,
    a_third_row_comes_in_few_steps, one_of_two_rows_goes_in_few_steps, one_vmo_has_no_hidden_node,
    pages_without_rows_are_made_zero_in_one_step,
};
