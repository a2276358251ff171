//! Calls of the libraries that no script makes, or whose answers no reply tells.

use std::alloc::AllocError;
use vm_base::HostMemory;

mod counting;
mod reading;
mod streams;
mod zeroing;

/// The reason why a check fails.
#[derive(Debug, Drop)]
enum Fault {
    /// A line of a text has none of the forms, or bytes are no text.
    NoForm,
    /// The answer is another one.
    OtherAnswer,
    /// The host has too little memory for the check.
    HostMemory,
}

impl From<AllocError> for Fault {
    fn from(_: AllocError) -> Fault {
        Fault::HostMemory
    }
}

impl From<HostMemory> for Fault {
    fn from(_: HostMemory) -> Fault {
        Fault::HostMemory
    }
}

/// Returns bytes as a text.
fn text_of(bytes: &[u8]) -> Result<&str, Fault> {
    match str::from_utf8(bytes) {
        Ok(text) => Ok(text),
        Err(_) => Err(Fault::NoForm),
    }
}
