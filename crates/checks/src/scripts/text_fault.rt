//! Why a text fails.

use script_io::Status;
use std::alloc::{AllocError, AllocFailed};

/// The reason why a text fails.
#[derive(Debug, PartialEq, Drop)]
pub(crate) enum Fault {
    /// No script begins the text.
    NoScript,
    /// A line has none of the forms.
    NoForm,
    /// The run of a script ended so.
    Ended(Status),
    /// The written bytes are no text.
    NoText,
    /// The first line that is other than the one that is wanted.
    OtherReply { wanted: String, written: String },
    /// There are more or fewer lines, or calls, than those that are wanted.
    OtherLength,
    /// The clone tree has these counts.
    OtherTree(String),
    /// The host has too little memory for the check.
    HostMemory,
}

impl From<AllocError> for Fault {
    fn from(_: AllocError) -> Fault {
        Fault::HostMemory
    }
}

impl<T: Drop> From<AllocFailed<T>> for Fault {
    fn from(_: AllocFailed<T>) -> Fault {
        Fault::HostMemory
    }
}
