//! Where the data of a task stands while it is done.

use vm_base::{DATA_BYTES, PIN_PAGES};

/// Room for the data of one task, made once for all of them, so that no command and no reply moves its own. Each task overwrites
/// what it uses.
#[derive(Drop)]
pub(crate) struct LineRoom {
    /// The bytes that a command writes.
    pub(crate) written: [u8; DATA_BYTES],
    /// The bytes that a command reads.
    pub(crate) read: [u8; DATA_BYTES],
    /// The frames of the pages that a command pins.
    pub(crate) pinned: [u64; PIN_PAGES],
}

impl LineRoom {
    /// Makes room with zeros in it.
    pub(crate) fn new() -> LineRoom {
        LineRoom {
            written: [0; DATA_BYTES],
            read: [0; DATA_BYTES],
            pinned: [0; PIN_PAGES],
        }
    }
}
