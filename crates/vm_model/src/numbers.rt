//! The frames of pinned pages.

ghost use Rattle.std.specs.Prelude.{◌≡◌, ◌+◌, ◌≤◌, ◌<◌, ◌↔◌, [], ◌∷◌, ◌++◌, length, IsTrue};

use arrayvec::ArrayVec;
use std::marker::Model;
use vm_base::PIN_PAGES;

/// The numbers of the frames of pinned pages, at most 256. It takes no memory of the host. Clauses see
/// a list.
#[derive(Debug, Drop)]
pub struct PinNumbers {
    numbers: ArrayVec<u64, PIN_PAGES>,
}

impl Model for PinNumbers {
    ghost use Rattle.std.specs.Prelude.{List, ℕ, length, ◌≤◌};
    ghost use Rattle.vm_base.specs.declared.limits.TheConstants.{PIN_PAGES};

    ghost Value = { List ℕ };

    ghost view = { λ p. p.numbers.items };

    ghost invariant = { λ p. length p.numbers.items ≤ PIN_PAGES };
}

impl PinNumbers {
    /// Makes a list of no numbers.
    pub fn new() -> PinNumbers
        ensures { result ≡ [] }
    {
        PinNumbers {
            numbers: ArrayVec::new(),
        }
    }

    /// Returns the numbers.
    pub fn as_slice(&self) -> &[u64]
        ensures value { result.now ≡ self.now }
        ensures few { length result.now ≤ PIN_PAGES }
    {
        self.numbers.as_slice()
    }

    /// Adds a number at the end. `false`, with nothing changed, if and only if there are 256 numbers already.
    pub fn push(&mut self, number: u64) -> bool
        ensures room { IsTrue result ↔ (length self.old < PIN_PAGES) }
        ensures added { length self.old < PIN_PAGES → self.new ≡ self.old ++ number ∷ [] }
        ensures full { length self.old ≡ PIN_PAGES → self.new ≡ self.old }
    {
        self.numbers.try_push(number).is_ok()
    }

    /// Adds numbers at the end, for which there is room.
    pub fn extend_from_slice(&mut self, numbers: &[u64])
        requires { length self.old + length numbers.now ≤ PIN_PAGES }
        ensures { self.new ≡ self.old ++ numbers.now }
    {
        self.numbers.try_extend_from_slice(numbers).unwrap();
    }
}
