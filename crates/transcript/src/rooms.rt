//! Where the data of a line stands while its reply is compared.

use vm_base::{DATA_BYTES, PIN_PAGES, TEXT_ROOM};

/// Room for the data of one line. It is made once for a whole transcript.
#[derive(Drop)]
pub(crate) struct Rooms {
    /// The bytes that a command reads.
    pub(crate) read: [u8; DATA_BYTES],
    /// The frames of the pages that a command pins.
    pub(crate) pinned: [u64; PIN_PAGES],
    /// A line of a reply.
    pub(crate) reply: [u8; TEXT_ROOM],
}

impl Rooms {
    /// Makes rooms with zeros in them.
    pub(crate) fn new() -> Rooms {
        Rooms {
            read: [0; DATA_BYTES],
            pinned: [0; PIN_PAGES],
            reply: [0; TEXT_ROOM],
        }
    }
}
