//! A reply whose data stands elsewhere.

ghost use Rattle.std.specs.Prelude.{◌≡◌};

use crate::lent::{LentBytes, LentNumbers};
use crate::reply::Reply;

/// A reply with the bytes or the numbers that were read lent to it, so that they are not moved with it. Runs of
/// mappings are its own.
pub type Answer<'a> = Reply<LentBytes<'a>, LentNumbers<'a>>;

impl<'a> Reply<LentBytes<'a>, LentNumbers<'a>> {
    /// Returns the reply, with data of its own.
    pub fn into_owned(self) -> Reply
        ensures { result ≡ self.entry }
    {
        match self {
            Reply::Done => Reply::Done,
            Reply::Number(number) => Reply::Number(number),
            Reply::Bytes(bytes) => Reply::Bytes(bytes.to_bytes()),
            Reply::Pins(numbers) => Reply::Pins(numbers.to_numbers()),
            Reply::Address(address) => Reply::Address(address),
            Reply::Access { faults, bytes } => Reply::Access {
                faults,
                bytes: bytes.to_bytes(),
            },
            Reply::Faults(faults) => Reply::Faults(faults),
            Reply::Info(info) => Reply::Info(info),
            Reply::Runs(runs) => Reply::Runs(runs),
            Reply::Stat(stat) => Reply::Stat(stat),
            Reply::Refused(refusal) => Reply::Refused(refusal),
        }
    }
}
