//! Frames that are taken for a page, and given back if no page shows them any more.

ghost use Rattle.std.specs.Prelude.{◌≡◌, ◌≢◌, ℕ, ◌+◌, ◌<◌, ◌^◌, ◌⊎◌, true, false, None, IsSome};
ghost use Rattle.vm_base.specs.Search.{HasNone};
ghost use Rattle.vm_base.specs.Entries.{without_key};
ghost use Rattle.vm_base.specs.Pages.{zeros};
ghost use Rattle.frame_pool.specs.Pool.{taken_frames, frame_bytes, taken_count, Takes};
ghost use Rattle.pair_map.specs.Maps.{values_of};
ghost use Rattle.page_store.specs.inside.Rows.{is_viewer, IsAlone, HasOther, HasViewer, HasNoViewer, HasViewerIn, HasThird, HasNoThird};

use frame_pool::FramePool;
use pair_map::PairMap;
use vm_base::{Koid, PageNo, Tag};

/// Returns whether no VMO but this one has a page under a frame.
pub(crate) fn is_alone(viewers: &PairMap<PageNo>, tag: Tag, v: Koid) -> bool
    requires { v.0 + 1 < 2 ^ 64 }
    ensures alone { result ≡ true → IsAlone (values_of viewers.now tag.0) v.0 }
    ensures other { result ≡ false → HasOther (values_of viewers.now tag.0) v.0 }
{
    let Some((least, _)) = viewers.next(tag.0 as u64, 0) else {
        return true;
    };
    least == v.0 && viewers.next(tag.0 as u64, v.0 + 1).is_none()
}

/// Returns whether a VMO other than these two has a page under a frame.
pub(crate) fn has_third(viewers: &PairMap<PageNo>, tag: Tag, v: Koid, w: Koid) -> bool
    requires first { v.0 + 1 < 2 ^ 64 }
    requires second { w.0 + 1 < 2 ^ 64 }
    ensures some { result ≡ true → HasThird (values_of viewers.now tag.0) v.0 w.0 }
    ensures none { result ≡ false → HasNoThird (values_of viewers.now tag.0) v.0 w.0 }
{
    let low = v.0.min(w.0);
    let high = v.0.max(w.0);
    if has_within(viewers, tag, 0, low) {
        return true;
    }
    if has_within(viewers, tag, low + 1, high) {
        return true;
    }
    viewers.next(tag.0 as u64, high + 1).is_some()
}

// Whether a VMO with a koid from one to below another has a page under a frame.
fn has_within(viewers: &PairMap<PageNo>, tag: Tag, from: u64, end: u64) -> bool
    ensures some { result ≡ true → HasViewerIn (values_of viewers.now tag.0) from end }
    ensures none { result ≡ false → HasNone (is_viewer (values_of viewers.now tag.0)) from end }
{
    match viewers.next(tag.0 as u64, from) {
        Some((koid, _)) => koid < end,
        None => false,
    }
}

/// Takes a free frame, of which there is one. Its bytes are zeros.
pub(crate) fn take_zeros(pool: &mut FramePool) -> Tag
    requires { taken_count pool.old < pool.old.frames }
    ensures frames { pool.new.frames ≡ pool.old.frames }
    ensures takes { Takes pool.old pool.new result.0 zeros }
{
    pool.take().unwrap()
}

/// Takes a free frame, of which there is one. Its bytes are those of a frame that is taken.
pub(crate) fn take_copy(pool: &mut FramePool, from: Tag) -> Tag
    requires free { taken_count pool.old < pool.old.frames }
    requires from { IsSome (taken_frames pool.old from.0) }
    ensures frames { pool.new.frames ≡ pool.old.frames }
    ensures takes { Takes pool.old pool.new result.0 (frame_bytes pool.old from.0) }
{
    pool.take_copy(from).unwrap()
}

/// Gives a taken frame back if no page shows it any more.
pub(crate) fn give_back_unshown(pool: &mut FramePool, viewers: &PairMap<PageNo>, tag: Tag)
    requires { IsSome (taken_frames pool.old tag.0) }
    ensures frames { pool.new.frames ≡ pool.old.frames }
    ensures taken { (HasViewer (values_of viewers.now tag.0) × (taken_frames pool.new ≡ taken_frames pool.old))
        ⊎ (HasNoViewer (values_of viewers.now tag.0) × (taken_frames pool.new ≡ without_key (taken_frames pool.old) tag.0)) }
{
    if viewers.next(tag.0 as u64, 0).is_none() {
        pool.give_back(tag);
    }
}
