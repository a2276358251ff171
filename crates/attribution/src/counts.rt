//! The held pages of a VMO, counted.

ghost use Rattle.std.specs.Prelude.{◌≡◌, ◌+◌, IsSome};
ghost use Rattle.vm_model.specs.Contents.Content.{pages_of, IsGood};
ghost use Rattle.vm_model.specs.Machine.Attribution.{is_charged};
ghost use Rattle.page_store.specs.declared.page_store.Look.{Look};
ghost use Rattle.page_store.specs.Pages.{look_at};
ghost use Rattle.attribution.specs.inside.Counts.{AreCounts};

use page_store::{Look, PageStore};
use vm_base::{Koid, PageNo, Tag};

/// The number of pages of a VMO that are held, and the numbers of these that are sole, shared with another VMO, and
/// charged to it.
#[derive(Clone, Copy)]
pub(crate) struct Counts {
    pub held: u64,
    pub sole: u64,
    pub shared: u64,
    pub charged: u64,
}

/// Counts the held pages of a VMO, from one to the next.
pub(crate) fn count_held<P: PageStore>(store: &P, koid: Koid) -> Counts
    requires good { IsGood (P.content store.now) }
    requires vmo { IsSome ((P.content store.now).count koid.0) }
    ensures { AreCounts (P.content store.now) koid.0 (pages_of (P.content store.now) koid.0) result }
{
    let mut counts = Counts {
        held: 0,
        sole: 0,
        shared: 0,
        charged: 0,
    };
    let mut from = 0;
    while let Some(page) = store.next_held(koid, from) {
        count_page(store, koid, page, &mut counts);
        from = page + 1;
    }
    counts
}

// Counts a page that is held. The pages before it are counted.
fn count_page<P: PageStore>(store: &P, koid: Koid, page: PageNo, counts: &mut Counts)
    requires good { IsGood (P.content store.now) }
    requires held { IsSome ((P.content store.now).page koid.0 page) }
    requires before { AreCounts (P.content store.now) koid.0 page counts.old }
    ensures { AreCounts (P.content store.now) koid.0 (page + 1) counts.new }
{
    let Look::Held { tag, sole } = store.look(koid, page) else {
        return;
    };
    counts.held += 1;
    counts.sole += u64::from(sole);
    counts.shared += u64::from(!sole);
    counts.charged += u64::from(charges(store, koid, page, tag, sole));
}

// Whether a VMO is charged for a page of it that is held, with this frame.
fn charges<P: PageStore>(store: &P, koid: Koid, page: PageNo, tag: Tag, sole: bool) -> bool
    requires good { IsGood (P.content store.now) }
    requires look { Look.Held tag sole ≡ look_at (P.content store.now) koid.0 ((P.content store.now).page koid.0 page) }
    ensures { result ≡ is_charged (P.content store.now) koid.0 page }
{
    sole || store.lesser_viewer(tag, koid).is_none()
}
