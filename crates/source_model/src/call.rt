//! A command of page sources whose byte data stands elsewhere.

ghost use Rattle.std.specs.Prelude.{◌≡◌};

use crate::command::SourceCommand;
use vm_model::{Bytes4k, LentBytes};

/// A command with the bytes that it writes lent to it, so that they are not moved with it.
pub type SourceCall<'a> = SourceCommand<LentBytes<'a>>;

/// The command with the same fields, and with bytes that are made by this call.
macro_rules! same_fields {
    ($value:expr, $bytes:ident) => {
        match $value {
            SourceCommand::Create { name, size, kind, seed } => SourceCommand::Create {
                name: *name, size: *size, kind: *kind, seed: *seed,
            },
            SourceCommand::Child { name, parent, offset, size } => SourceCommand::Child {
                name: *name, parent: *parent, offset: *offset, size: *size,
            },
            SourceCommand::Loose { name, parent, offset, size } => SourceCommand::Loose {
                name: *name, parent: *parent, offset: *offset, size: *size,
            },
            SourceCommand::Close { name } => SourceCommand::Close { name: *name },
            SourceCommand::Read { name, offset, len } => SourceCommand::Read { name: *name, offset: *offset, len: *len },
            SourceCommand::Write { name, offset, bytes } => SourceCommand::Write {
                name: *name, offset: *offset, bytes: bytes.$bytes(),
            },
            SourceCommand::Supply { name, offset, len } => SourceCommand::Supply { name: *name, offset: *offset, len: *len },
            SourceCommand::Evict { name, offset, len } => SourceCommand::Evict { name: *name, offset: *offset, len: *len },
            SourceCommand::Stat => SourceCommand::Stat,
        }
    };
}

impl<'a> SourceCommand<LentBytes<'a>> {
    /// Returns the command, with bytes of its own.
    pub fn to_owned(&self) -> SourceCommand<Bytes4k>
        ensures { result ≡ self.now }
    {
        same_fields!(self, to_bytes)
    }
}

impl SourceCommand<Bytes4k> {
    /// Lends the command.
    pub fn lend(&self) -> SourceCommand<LentBytes<'_>>
        ensures { result ≡ self.now }
    {
        same_fields!(self, lend)
    }
}
