//! What a row type tells the tree.

ghost use Rattle.std.specs.Prelude.{◌≡◌, ◌⊎◌, true, false};

use crate::children::Child;

/// A row that can stand in a balanced tree. Beside what a table keeps in it, it holds the links to its two children
/// and its height, and whatever else a table wants to know of all rows below it: `linked` computes these anew.
pub trait TreeRow: Copy {
    ghost use Rattle.balanced_tree.specs.Row.{Functions, AreLawful, AreAlike};

    /// The functions that the methods compute.
    ghost functions: { Functions Self };

    /// Returns the place of the row in the order of the table. No two rows of a tree have the same rank.
    fn rank(self) -> u128
        ensures { result ≡ functions.rank self };

    /// Returns the link to the child whose rows have lower ranks.
    fn left(self) -> Option<usize>
        ensures { result ≡ functions.left self };

    /// Returns the link to the child whose rows have higher ranks.
    fn right(self) -> Option<usize>
        ensures { result ≡ functions.right self };

    /// Returns the number of rows on the longest way down from this one, itself included.
    fn height(self) -> u32
        ensures { result ≡ functions.height self };

    /// Returns the row over these two children, in place of those that it had: with their links, and one higher than
    /// the higher of them (at most `u32::MAX`).
    fn linked(self, left: Option<Child<Self>>, right: Option<Child<Self>>) -> Self
        ensures { result ≡ functions.linked self left right };

    /// Reports whether each row over this one is stored as it would be over the other one, under the same link. A change
    /// ends below the first row for which this is so. A row type that always answers `false` is right too: a change then
    /// stores each row on the way to it anew.
    fn is_alike(self, other: Self) -> bool
        ensures { (result ≡ false) ⊎ ((result ≡ true) × AreAlike functions self other) }
    {
        false
    }

    ghost lawful: { AreLawful functions };
}
