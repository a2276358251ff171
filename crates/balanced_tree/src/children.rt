//! A child of a row.

ghost use Rattle.std.specs.Prelude.{◌≡◌};
ghost use Rattle.balanced_tree.specs.Row.{link_of};

/// A row with the link to it: the place in the slab where it stands.
#[derive(Clone, Copy)]
pub struct Child<R> {
    pub link: usize,
    pub row: R,
}

/// Returns the link to a child.
pub fn link_to<R: Copy>(child: Option<Child<R>>) -> Option<usize>
    ensures { result ≡ link_of child }
{
    match child {
        None => None,
        Some(child) => Some(child.link),
    }
}
