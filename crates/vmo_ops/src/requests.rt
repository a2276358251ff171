//! What the operations are asked for, as values.

ghost use Rattle.std.specs.Prelude.{◌≡◌};

use vm_base::{Koid, VmoName};

/// A range of bytes of what a name stands for: `len` bytes from `offset` bytes into it on.
#[derive(Clone, Copy, Debug)]
pub struct NameRange {
    pub name: VmoName,
    pub offset: u64,
    pub len: u64,
}

impl NameRange {
    /// Returns the range of `len` bytes from `offset` bytes into the name on.
    #[inline(always)]
    pub fn new(name: VmoName, offset: u64, len: u64) -> NameRange
        ensures { result ≡ record { name = name; offset = offset; len = len } }
    {
        NameRange { name, offset, len }
    }
}

/// A range of bytes of a VMO: `len` bytes from `at` bytes into it on.
#[derive(Clone, Copy)]
pub(crate) struct VmoRange {
    pub(crate) koid: Koid,
    pub(crate) at: u64,
    pub(crate) len: u64,
}

/// The part of its parent that a child is to be, and what its name is to allow.
#[derive(Clone, Copy, Debug)]
pub struct ChildShape {
    /// In bytes into the parent's name.
    pub offset: u64,
    /// In bytes.
    pub size: u64,
    pub resizable: bool,
    pub no_write: bool,
}
