//! Which frame a page of a VMO has, and whether two frames are the same.

ghost use Rattle.std.specs.Prelude.{◌≡◌, ◌<◌};
ghost use Rattle.vm_model.specs.Contents.Content.{pages_of};
ghost use Rattle.vm_model.specs.Space.Readiness.{frame_at, is_same_frame, frame_number};

use page_store::PageStore;
use vm_base::{Koid, PageNo, Tag};

/// Returns the frame that a page of a VMO has. `None` if the page is zero.
#[inline(always)]
pub(crate) fn frame_of<P: PageStore>(store: &P, v: Koid, page: PageNo) -> Option<Tag>
    requires { page < pages_of (P.content store.now) v.0 }
    ensures { frame_number result ≡ frame_at (P.content store.now) v.0 page }
{
    store.frame(v, page)
}

/// Returns whether two translations with these frames hold the same one.
pub(crate) fn have_same_frame(frame: Option<Tag>, other: Option<Tag>) -> bool
    ensures { result ≡ is_same_frame (frame_number frame) (frame_number other) }
{
    frame == other
}
