//! Jobs: range operations on the pages of a VMO that are done a few pages at a time.

use vm_base::VmoName;

/// The name of a job, as `j0`.
#[derive(Clone, Copy, Debug, PartialEq, Eq, Hash)]
pub struct JobName(pub u32);

/// The kind of work that a job does on its pages.
#[derive(Clone, Copy, Debug, PartialEq, Eq, Hash)]
pub enum JobKind {
    /// It gives them frames of their own (`ZX_VMO_OP_COMMIT`).
    Commit,
    /// It makes their bytes zeros (`ZX_VMO_OP_ZERO`).
    Zero,
    /// It takes their frames back (`ZX_VMO_OP_DECOMMIT`).
    Decommit,
}

/// A job that is there. What is left of it are the bytes of the name from `next` to below `end`, both counted from the name's
/// first byte and whole pages.
#[derive(Clone, Copy, Debug, PartialEq, Eq)]
pub struct Job {
    pub kind: JobKind,
    pub name: VmoName,
    pub next: u64,
    pub end: u64,
}
