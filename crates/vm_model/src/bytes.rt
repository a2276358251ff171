//! Byte data of one command or reply.

ghost use Rattle.std.specs.Prelude.{◌≡◌, ◌+◌, ◌≤◌, ◌<◌, ◌↔◌, [], ◌∷◌, ◌++◌, length, IsTrue};

use arrayvec::ArrayVec;
use std::marker::Model;
use vm_base::DATA_BYTES;

/// The bytes of one read or write, at most 4,096. It takes no memory of the host. Clauses see a list.
#[derive(Debug, Drop)]
pub struct Bytes4k {
    bytes: ArrayVec<u8, DATA_BYTES>,
}

impl Model for Bytes4k {
    ghost use Rattle.std.specs.Prelude.{List, ℕ, length, ◌≤◌};
    ghost use Rattle.vm_base.specs.declared.limits.TheConstants.{DATA_BYTES};

    ghost Value = { List ℕ };

    ghost view = { λ b. b.bytes.items };

    ghost invariant = { λ b. length b.bytes.items ≤ DATA_BYTES };
}

impl Bytes4k {
    /// Makes byte data of no bytes.
    pub fn new() -> Bytes4k
        ensures { result ≡ [] }
    {
        Bytes4k {
            bytes: ArrayVec::new(),
        }
    }

    /// Returns the bytes.
    pub fn as_slice(&self) -> &[u8]
        ensures value { result.now ≡ self.now }
        ensures few { length result.now ≤ DATA_BYTES }
    {
        self.bytes.as_slice()
    }

    /// Adds a byte at the end. `false`, with nothing changed, if and only if there are 4,096 bytes already.
    pub fn push(&mut self, byte: u8) -> bool
        ensures room { IsTrue result ↔ (length self.old < DATA_BYTES) }
        ensures added { length self.old < DATA_BYTES → self.new ≡ self.old ++ byte ∷ [] }
        ensures full { length self.old ≡ DATA_BYTES → self.new ≡ self.old }
    {
        self.bytes.try_push(byte).is_ok()
    }

    /// Adds bytes at the end, for which there is room.
    pub fn extend_from_slice(&mut self, bytes: &[u8])
        requires { length self.old + length bytes.now ≤ DATA_BYTES }
        ensures { self.new ≡ self.old ++ bytes.now }
    {
        self.bytes.try_extend_from_slice(bytes).unwrap();
    }
}
