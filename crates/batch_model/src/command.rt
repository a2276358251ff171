//! The commands of a machine with jobs, and its replies.

use crate::job::{JobKind, JobName};
use vm_base::VmoName;
use vm_model::{Bytes4k, Command, PinNumbers, Reply};

/// A command of a machine with jobs. Offsets and lengths are in bytes from the first byte of the name. `B` is the
/// bytes that it writes.
#[derive(Drop)]
pub enum BatchCommand<B: Drop = Bytes4k> {
    /// A command of the machine.
    Plain(Command<B>),
    /// Begins a job on a range of whole pages. It does none of them yet.
    Begin {
        job: JobName,
        kind: JobKind,
        name: VmoName,
        offset: u64,
        len: u64,
    },
    /// Does the next pages of a job, so many of them, or all that are left if these are fewer.
    Step {
        job: JobName,
        pages: u64,
    },
    /// Gives a job up. Its pages stay as they are.
    Drop {
        job: JobName,
    },
}

/// The reply of a machine with jobs to a command. `B` is the bytes that were read, and `N` the numbers of pinned frames.
#[derive(Drop)]
pub enum BatchReply<B: Drop = Bytes4k, N: Drop = PinNumbers> {
    /// The reply of the machine itself.
    Plain(Reply<B, N>),
    /// It is done, and so many pages of the job are left.
    Left(u64),
}
