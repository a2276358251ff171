//! What a change of a tree leaves to do above it.

ghost use Rattle.std.specs.Prelude.{◌≡◌};
ghost use Rattle.balanced_tree.specs.inside.Standing.{root_after, change_to};

/// The change of a tree that the row above it has to store. With no enum inside a variant the value takes two words,
/// and a call returns it in registers.
#[derive(Clone, Copy)]
pub enum Change {
    /// Nothing: the root stands where one stood before, and the row above it is stored as it was.
    Hidden,
    /// No link: the tree has no row left.
    Empty,
    /// The link to the root.
    Root(usize),
}

/// Returns the link to the root of a tree after a change, from the link before it.
#[inline(always)]
pub fn root_after(change: Change, before: Option<usize>) -> Option<usize>
    ensures { result ≡ root_after change before }
{
    match change {
        Change::Hidden => before,
        Change::Empty => None,
        Change::Root(link) => Some(link),
    }
}

/// Returns the change after which the link to the root of a tree is this one.
#[inline(always)]
pub fn change_to(link: Option<usize>) -> Change
    ensures { result ≡ change_to link }
{
    match link {
        None => Change::Empty,
        Some(place) => Change::Root(place),
    }
}
