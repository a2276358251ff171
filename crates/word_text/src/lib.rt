//! The words that commands and replies have in common, as text: numbers in decimal, byte data and permissions.
//!
//! It stands on `vm_base` for sets of permissions, on `vm_model` for the definitions of the texts, on `hex_digits` for byte
//! data, on `itoa` for numbers, and on `bitflags` for the bits of a set. It takes no memory, and the layers above may
//! use all of it.
//!
//! All its functions have one form, and so have the functions of the layers above that write a part of a line. Each is
//! handed what it writes, the buffer (`out`), and how many bytes of the buffer are in use (`at`). It answers how many
//! are in use afterwards. The bytes before `at` stay as they are.
#![tactic(auto)]

mod parts;

pub use parts::{put, put_data, put_decimal, put_field, put_number, put_perm, put_word};
