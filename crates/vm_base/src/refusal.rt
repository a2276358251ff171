//! Why a command is refused, and the two faults of the host.

/// Why a command is refused. The names are Zircon's statuses, except for `Syntax`, `NameInUse` and `HostMemory`. A
/// refused command changes nothing.
#[derive(Clone, Copy, Debug, PartialEq, Eq, Hash)]
pub enum Refusal {
    /// The line is outside the grammar.
    Syntax,
    /// A name that is used is not open.
    BadHandle,
    /// The name to be given is open, or was given to a region.
    NameInUse,
    /// The region is destroyed, or pinned pages stand in the way.
    BadState,
    /// A right is missing.
    AccessDenied,
    /// An argument is out of its bounds, or arguments contradict each other.
    InvalidArgs,
    /// The object does not offer the operation.
    NotSupported,
    /// The VMO may not be resized by this name.
    Unavailable,
    /// A range passes the end of the VMO, or a size passes the limit.
    OutOfRange,
    /// A mapping passes the end of the VMO.
    BufferTooSmall,
    /// A page of the range is not mapped.
    NotFound,
    /// The place asked for is not free.
    AlreadyExists,
    /// No free place fits.
    NoResources,
    /// The machine has too few free frames.
    NoMemory,
    /// The host has too little memory for the simulator's own tables.
    HostMemory,
}

/// The host has too little memory for what a call asked for. What the object holds is as it was, as
/// the clauses of each call that answers this say. They say nothing of its spare room.
#[derive(Clone, Copy, Debug, PartialEq, Eq)]
pub struct HostMemory;

/// Reading or writing failed. A source or a sink that tells its bytes has those that it had before
/// the call. One over the system tells none: a part of what it was to write may have been written.
#[derive(Clone, Copy, Debug, PartialEq, Eq)]
pub struct Failed;
