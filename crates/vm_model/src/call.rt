//! A command whose byte data stands elsewhere.

ghost use Rattle.std.specs.Prelude.{◌≡◌};

use crate::bytes::Bytes4k;
use crate::command::Command;
use crate::lent::LentBytes;

/// A command with the bytes that it writes lent to it, so that they are not moved with it.
pub type Call<'a> = Command<LentBytes<'a>>;

/// The command with the same fields, and with bytes that are made by this call.
macro_rules! same_fields {
    ($value:expr, $bytes:ident) => {
        match $value {
            Command::VmoCreate { name, size, resizable } => Command::VmoCreate {
                name: *name, size: *size, resizable: *resizable,
            },
            Command::VmoChild { name, parent, kind, offset, size, resizable, no_write } => Command::VmoChild {
                name: *name, parent: *parent, kind: *kind, offset: *offset, size: *size,
                resizable: *resizable, no_write: *no_write,
            },
            Command::VmoClose { name } => Command::VmoClose { name: *name },
            Command::VmoSize { name } => Command::VmoSize { name: *name },
            Command::VmoSetSize { name, size } => Command::VmoSetSize { name: *name, size: *size },
            Command::VmoRead { name, offset, len } => Command::VmoRead { name: *name, offset: *offset, len: *len },
            Command::VmoWrite { name, offset, bytes } => Command::VmoWrite {
                name: *name, offset: *offset, bytes: bytes.$bytes(),
            },
            Command::VmoFill { name, offset, len, byte } => Command::VmoFill {
                name: *name, offset: *offset, len: *len, byte: *byte,
            },
            Command::VmoCommit { name, offset, len } => Command::VmoCommit { name: *name, offset: *offset, len: *len },
            Command::VmoDecommit { name, offset, len } => Command::VmoDecommit { name: *name, offset: *offset, len: *len },
            Command::VmoZero { name, offset, len } => Command::VmoZero { name: *name, offset: *offset, len: *len },
            Command::VmoPin { pin, name, offset, len } => Command::VmoPin {
                pin: *pin, name: *name, offset: *offset, len: *len,
            },
            Command::VmoUnpin { pin } => Command::VmoUnpin { pin: *pin },
            Command::VmoInfo { name } => Command::VmoInfo { name: *name },
            Command::RootCreate { region } => Command::RootCreate { region: *region },
            Command::VmarAllocate { region, parent, offset, len, flags, caps } => Command::VmarAllocate {
                region: *region, parent: *parent, offset: *offset, len: *len, flags: *flags,
                caps: *caps,
            },
            Command::VmarMap { region, offset, name, vmo_offset, len, perm, flags } => Command::VmarMap {
                region: *region, offset: *offset, name: *name, vmo_offset: *vmo_offset, len: *len,
                perm: *perm, flags: *flags,
            },
            Command::VmarUnmap { region, addr, len } => Command::VmarUnmap { region: *region, addr: *addr, len: *len },
            Command::VmarProtect { region, addr, len, perm } => Command::VmarProtect {
                region: *region, addr: *addr, len: *len, perm: *perm,
            },
            Command::VmarDestroy { region } => Command::VmarDestroy { region: *region },
            Command::Maps { region } => Command::Maps { region: *region },
            Command::MemRead { region, addr, len } => Command::MemRead { region: *region, addr: *addr, len: *len },
            Command::MemWrite { region, addr, bytes } => Command::MemWrite {
                region: *region, addr: *addr, bytes: bytes.$bytes(),
            },
            Command::Stat => Command::Stat,
        }
    };
}

impl<'a> Command<LentBytes<'a>> {
    /// Returns the command, with bytes of its own.
    pub fn to_owned(&self) -> Command<Bytes4k>
        ensures { result ≡ self.now }
    {
        same_fields!(self, to_bytes)
    }
}

impl Command<Bytes4k> {
    /// Lends the command.
    pub fn lend(&self) -> Command<LentBytes<'_>>
        ensures { result ≡ self.now }
    {
        same_fields!(self, lend)
    }
}
