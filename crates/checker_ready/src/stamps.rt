//! Stamps of the pages of VMOs, and what they leave of a note.

ghost use Rattle.std.specs.Prelude.{◌≡◌, ◌+◌, ◌^◌, ◌<◌, ◌≤◌, Some, IsSome, IfSome};
ghost use Rattle.pair_map.specs.Maps.{values_of, spare_of, with_pair};
ghost use Rattle.vm_model.specs.Space.Readiness.{is_same_frame, frame_number};
ghost use Rattle.page_store.specs.Flat.{flat_content};
ghost use Rattle.checker_ready.specs.Notes.{ready_page, stamp_for, lowered, has_frame};

use crate::ready_map::ReadyPage;
use page_store::{FlatStore, PageStore};
use pair_map::PairMap;
use vm_base::{Koid, PageNo, Tag};
use vm_model::Readiness;

/// The note that was made of a page of an address space, and its time.
#[derive(Clone, Copy)]
pub(crate) struct Kept {
    pub(crate) koid: Koid,
    pub(crate) page: PageNo,
    pub(crate) readiness: Readiness,
    /// The time of the note.
    pub(crate) made: u64,
}

/// The times since when notes of a page of a VMO count.
#[derive(Clone, Copy)]
pub(crate) struct Stamp {
    /// The frame of the page.
    pub(crate) frame: Option<Tag>,
    /// Notes that were made before this time do not count.
    pub(crate) since: u64,
    /// Notes that were made before this time are for reading alone.
    pub(crate) shared: u64,
    /// The number of notes that count.
    pub(crate) notes: u64,
}

/// Returns what a note says under the stamp of its page. `None` if it does not count.
pub(crate) fn ready_page(kept: Kept, stamp: Option<Stamp>) -> Option<ReadyPage>
    ensures { result ≡ ready_page kept stamp }
{
    let stamp = stamp?;
    if kept.made < stamp.since {
        return None;
    }
    let readiness = if kept.made < stamp.shared {
        Readiness::Read
    } else {
        kept.readiness
    };
    Some(ReadyPage {
        koid: kept.koid,
        page: kept.page,
        frame: stamp.frame,
        readiness,
    })
}

/// Returns whether both are the same frame, or no frame.
pub(crate) fn is_same_frame(one: Option<Tag>, other: Option<Tag>) -> bool
    ensures { result ≡ is_same_frame (frame_number one) (frame_number other) }
{
    match (one, other) {
        (Some(one), Some(other)) => one.0 == other.0,
        (None, None) => true,
        _ => false,
    }
}

/// Returns the stamp of a page that has this frame, with one more note, from the stamp that it has: since the same times,
/// unless that is of another frame. Then no note that was made before this time counts.
pub(crate) fn stamp_for(stamp: Option<Stamp>, frame: Option<Tag>, now: u64) -> Stamp
    requires { IfSome stamp (λ stamp. stamp.notes + 1 < 2 ^ 64) }
    ensures { result ≡ stamp_for stamp frame now }
{
    match stamp {
        Some(stamp) if is_same_frame(stamp.frame, frame) => Stamp {
            notes: stamp.notes + 1,
            ..stamp
        },
        _ => Stamp {
            frame,
            since: now,
            shared: now,
            notes: 1,
        },
    }
}

/// Takes a note that goes off the count of its stamp, if it counts there. A stamp under which no note counts goes too.
pub(crate) fn lower(stamps: &mut PairMap<Stamp>, kept: Kept)
    ensures values { values_of stamps.new ≡ with_pair (values_of stamps.old) kept.koid.0 kept.page
        (lowered kept.made (values_of stamps.old kept.koid.0 kept.page)) }
    ensures spare { spare_of stamps.old ≤ spare_of stamps.new }
{
    let Some(stamp) = stamps.find(kept.koid.0, kept.page) else {
        return;
    };
    if kept.made < stamp.since {
        return;
    }
    if stamp.notes <= 1 {
        stamps.remove(kept.koid.0, kept.page);
    } else {
        let notes = stamp.notes - 1;
        stamps.replace(kept.koid.0, kept.page, Stamp { notes, ..stamp });
    }
}

/// Returns whether a page lies in its VMO, and has this frame.
pub(crate) fn has_frame(pages: &FlatStore, koid: Koid, page: PageNo, frame: Option<Tag>) -> bool
    requires { IsSome ((flat_content pages.now).count koid.0) }
    ensures { result ≡ has_frame (flat_content pages.now) koid.0 page frame }
{
    is_same_frame(frame, pages.frame_at(koid, page)) && page < pages.count(koid)
}

/// Gives a pair a value, whether it has one or not. There is room.
pub(crate) fn put<V: Copy>(map: &mut PairMap<V>, first: u64, second: u64, value: V)
    requires { 1 ≤ spare_of map.old }
    ensures values { values_of map.new ≡ with_pair (values_of map.old) first second (Some value) }
    ensures spare { spare_of map.old ≤ spare_of map.new + 1 }
{
    if map.find(first, second).is_some() {
        map.replace(first, second, value);
    } else {
        map.insert(first, second, value);
    }
}
