//! The grammar of scripts: what one line says, as a command or as nothing, how the fields of a command are spelled, and
//! the one canonical line of each command.
//!
//! It stands on `vm_base` for names and sets of flags, and on `vm_model` for commands, and for how a line is read and a
//! command is spelled. Numbers, byte data and permissions are written by `word_text`. Byte data is read by `hex_digits`, the
//! ends of words are found by `memchr`, the words of a line stand in an `arrayvec`, and sets of flags are `bitflags`.
//! It takes no memory of the host. The layer above hands in one line without its line feed: `read_call` lends byte data
//! from a buffer of the caller, and `read_line` gives a command with data of its own. The readers of single fields are
//! there for other front ends, `next_word` cuts a word off a line, and `word_at` says where a word of a line stands. A
//! program that makes scripts hands commands to `write_command`.
//!
//! `words` cuts a line, `fields`, `field_groups` and `flags` read its words, `command_words` finds a command by its
//! word, and `vmo_commands` and `region_commands` have the commands one by one. `frequent` reads the lines of two
//! commands without a list of their words. `writing` spells a command, by `vmo_arguments` and `region_arguments` for
//! its arguments, and `parts` for their words.
#![tactic(auto)]

mod command_words;
mod field_groups;
mod fields;
mod flags;
mod frequent;
mod parts;
mod reading;
mod region_arguments;
mod region_commands;
mod vmo_arguments;
mod vmo_commands;
mod words;
mod writing;

pub use fields::{byte_data, byte_data_into, number, perm, pin, region, vmo};
pub use reading::{Line, SyntaxFault, read_call, read_line};
pub use words::{next_word, word_at};
pub use writing::write_command;
