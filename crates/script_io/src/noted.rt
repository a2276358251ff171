//! Bytes that only proofs read.

ghost use Rattle.std.specs.Prelude.{◌≡◌, List, ℕ};
ghost use Rattle.std.specs.Borrow.{ftrue};

use std::marker::Model;

/// Bytes as they were once, which only proofs read, as `bytes`. It takes no memory.
#[derive(Drop)]
pub(crate) struct Noted {
    pub ghost bytes: { List ℕ },
}

impl Model for Noted {
    ghost also_owns = { λ _. ftrue };
}

impl Noted {
    /// Notes what bytes are now.
    pub(crate) fn of(_bytes: &[u8]) -> Noted
        ensures { result.bytes ≡ _bytes.now }
    {
        Noted {}
    }
}
