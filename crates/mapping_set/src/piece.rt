//! A piece of a mapping.

ghost use Rattle.std.specs.Prelude.{◌≡◌, ◌+◌, ◌<◌, ◌≤◌};
ghost use Rattle.vm_base.specs.declared.limits.TheConstants.{PAGES_END};
ghost use Rattle.mapping_set.specs.Pieces.{piece_from, piece_until, piece_with_perm};

use vm_base::{PAGES_END, PageNo, Perm};
use vm_model::Entry;

/// Entries of `count` neighbouring pages that show rising pages of one VMO. Page `first + i` has the entry `entry`,
/// except that it shows page `entry.page + i` of the VMO.
#[derive(Clone, Copy, Debug, PartialEq, Eq)]
pub struct Piece {
    /// Its first page, counted from address 0.
    pub first: PageNo,
    /// The number of its pages.
    pub count: u64,
    /// The entry of its first page.
    pub entry: Entry,
}

impl Piece {
    /// Returns what is left of the piece from the page `page` on, which is one of its pages.
    pub(crate) fn from(self, page: PageNo) -> Piece
        requires page { (self.first ≤ page) × (page < self.first + self.count) }
        requires pages { self.entry.page + self.count ≤ PAGES_END }
        ensures { result ≡ piece_from self page }
    {
        let behind = page - self.first;
        Piece {
            first: page,
            count: self.count - behind,
            entry: Entry {
                page: self.entry.page + behind,
                ..self.entry
            },
        }
    }
    /// Returns the part of the piece before the page `page`, which lies behind its first page and at most behind its
    /// last.
    pub(crate) fn until(self, page: PageNo) -> Piece
        requires { self.first < page }
        ensures { result ≡ piece_until self page }
    {
        Piece {
            count: page - self.first,
            ..self
        }
    }

    /// Returns the same pages with other permissions.
    pub(crate) fn with_perm(self, perm: Perm) -> Piece
        ensures { result ≡ piece_with_perm self perm }
    {
        Piece {
            entry: Entry { perm, ..self.entry },
            ..self
        }
    }
}
