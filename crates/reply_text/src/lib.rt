//! How replies are spelled: the lines of a reply, as bytes. The lines of two replies are also read back: of an address,
//! and of the frames of a pin, since a reader of replies can't know them before.
//!
//! It stands on the definitions of `vm_model` and on `word_text` for numbers, byte data and
//! permissions. It takes no memory, and the layers above may use all of it.
#![tactic(auto)]

mod lines;
mod parts;
mod reading;

pub use lines::{answer_line_count, line_count, write_answer_line, write_line};
pub use reading::{read_address, read_pins};
