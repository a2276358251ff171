//! Data of one command or reply that stands elsewhere.

ghost use Rattle.std.specs.Prelude.{◌≡◌, ◌≤◌, length};

use crate::bytes::Bytes4k;
use crate::numbers::PinNumbers;
use std::marker::Model;
use vm_base::{DATA_BYTES, PIN_PAGES};

/// The bytes of one read or write, at most 4,096, lent by who has them. Clauses see a list.
#[derive(Debug, Drop)]
pub struct LentBytes<'a> {
    bytes: &'a [u8],
}

impl<'a> Model for LentBytes<'a> {
    ghost use Rattle.std.specs.Prelude.{List, ℕ, length, ◌≤◌};
    ghost use Rattle.vm_base.specs.declared.limits.TheConstants.{DATA_BYTES};

    ghost Value = { List ℕ };

    ghost view = { λ b. b.bytes.now };

    ghost invariant = { λ b. length b.bytes.now ≤ DATA_BYTES };
}

impl<'a> LentBytes<'a> {
    /// Lends these bytes.
    pub fn new(bytes: &'a [u8]) -> LentBytes<'a>
        requires { length bytes.now ≤ DATA_BYTES }
        ensures { result ≡ bytes.now }
    {
        LentBytes { bytes }
    }

    /// Returns the bytes.
    pub fn as_slice(&self) -> &'a [u8]
        ensures value { result.now ≡ self.now }
        ensures few { length result.now ≤ DATA_BYTES }
    {
        self.bytes
    }

    /// Returns a copy of the bytes.
    pub fn to_bytes(&self) -> Bytes4k
        ensures { result ≡ self.now }
    {
        let mut bytes = Bytes4k::new();
        bytes.extend_from_slice(self.bytes);
        bytes
    }
}

/// The numbers of the frames of pinned pages, at most 256, lent by who has them. Clauses see a list.
#[derive(Debug, Drop)]
pub struct LentNumbers<'a> {
    numbers: &'a [u64],
}

impl<'a> Model for LentNumbers<'a> {
    ghost use Rattle.std.specs.Prelude.{List, ℕ, length, ◌≤◌};
    ghost use Rattle.vm_base.specs.declared.limits.TheConstants.{PIN_PAGES};

    ghost Value = { List ℕ };

    ghost view = { λ n. n.numbers.now };

    ghost invariant = { λ n. length n.numbers.now ≤ PIN_PAGES };
}

impl<'a> LentNumbers<'a> {
    /// Lends these numbers.
    pub fn new(numbers: &'a [u64]) -> LentNumbers<'a>
        requires { length numbers.now ≤ PIN_PAGES }
        ensures { result ≡ numbers.now }
    {
        LentNumbers { numbers }
    }

    /// Returns the numbers.
    pub fn as_slice(&self) -> &'a [u64]
        ensures value { result.now ≡ self.now }
        ensures few { length result.now ≤ PIN_PAGES }
    {
        self.numbers
    }

    /// Returns a copy of the numbers.
    pub fn to_numbers(&self) -> PinNumbers
        ensures { result ≡ self.now }
    {
        let mut numbers = PinNumbers::new();
        numbers.extend_from_slice(self.numbers);
        numbers
    }
}

impl Bytes4k {
    /// Lends the bytes.
    pub fn lend(&self) -> LentBytes<'_>
        ensures { result ≡ self.now }
    {
        LentBytes::new(self.as_slice())
    }
}

impl PinNumbers {
    /// Lends the numbers.
    pub fn lend(&self) -> LentNumbers<'_>
        ensures { result ≡ self.now }
    {
        LentNumbers::new(self.as_slice())
    }
}
