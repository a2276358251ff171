//! Commands and replies whose data stands elsewhere.

ghost use Rattle.std.specs.Prelude.{◌≡◌};

use crate::command::{BatchCommand, BatchReply};
use vm_model::{Bytes4k, LentBytes, LentNumbers};

/// A command of a machine with jobs, with the bytes that it writes lent to it.
pub type BatchCall<'a> = BatchCommand<LentBytes<'a>>;

/// A reply of a machine with jobs, with the data that was read lent to it.
pub type BatchAnswer<'a> = BatchReply<LentBytes<'a>, LentNumbers<'a>>;

/// The command with the same fields, where the plain command is made by this call.
macro_rules! same_fields {
    ($value:expr, $plain:ident) => {
        match $value {
            BatchCommand::Plain(command) => BatchCommand::Plain(command.$plain()),
            BatchCommand::Begin { job, kind, name, offset, len } => BatchCommand::Begin {
                job: *job, kind: *kind, name: *name, offset: *offset, len: *len,
            },
            BatchCommand::Step { job, pages } => BatchCommand::Step { job: *job, pages: *pages },
            BatchCommand::Drop { job } => BatchCommand::Drop { job: *job },
        }
    };
}

impl<'a> BatchCommand<LentBytes<'a>> {
    /// Returns the command, with bytes of its own.
    pub fn to_owned(&self) -> BatchCommand<Bytes4k>
        ensures { result ≡ self.now }
    {
        same_fields!(self, to_owned)
    }
}

impl BatchCommand<Bytes4k> {
    /// Lends the command.
    pub fn lend(&self) -> BatchCommand<LentBytes<'_>>
        ensures { result ≡ self.now }
    {
        same_fields!(self, lend)
    }
}

impl<'a> BatchReply<LentBytes<'a>, LentNumbers<'a>> {
    /// Returns the reply, with data of its own.
    pub fn into_owned(self) -> BatchReply
        ensures { result ≡ self.entry }
    {
        match self {
            BatchReply::Plain(reply) => BatchReply::Plain(reply.into_owned()),
            BatchReply::Left(pages) => BatchReply::Left(pages),
        }
    }
}
