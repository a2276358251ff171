//! The contract of a store of pages.

ghost use Rattle.std.specs.Prelude.{◌≡◌, ℕ, ◌+◌, ◌-◌, ◌<◌, ◌≤◌, ◌⊎◌, Bool, true, false, length, is_ok, IsSome, None, Some, IfSome, IfNone, IfOk, OnOk, OnErr};
ghost use Rattle.vm_base.specs.Search.{IsFirstOrNone};
ghost use Rattle.vm_model.specs.Contents.Content.{Content, nothing, used, sole, pages_of, is_held, created, views, vmos_of};
ghost use Rattle.vm_model.specs.Contents.Owning.{Owns};
ghost use Rattle.vm_model.specs.Contents.Sharing.{viewers, IsLeastViewer, snapshotted, without};
ghost use Rattle.vm_model.specs.Contents.Zeroing.{zeroed, resized};
ghost use Rattle.page_store.specs.Pages.{look_at, tag_held, IsShown, IsShownOnce, AreBytesOf, Overwrites};
ghost use Rattle.page_store.specs.Held.{held_from};
ghost use Rattle.page_store.specs.Requests.{Request, Fill, Create, Snapshot, Reserve};

use vm_base::{FRAMES, HostMemory, KOIDS, Koid, PAGE, PageNo, Tag, VMO_PAGES};

/// The state of a page of a VMO.
#[derive(Clone, Copy, Debug, PartialEq, Eq)]
pub enum Look {
    /// It is zero and uses no frame.
    Zero,
    /// It is held, with this frame. `sole` says that no other VMO shows the frame.
    Held { tag: Tag, sole: bool },
}

/// A store of VMOs, their pages and the page frames. Clauses speak of what it contains, and of how many pages may be
/// owned or made zero without asking the host for memory (`spare`).
///
/// A call on a koid requires that the store has such a VMO. Pages are counted from the VMO's first. A call leaves all
/// of the content as it was but what its clauses say. A call that answers `HostMemory` changes nothing of the content
/// and does not lower `spare`.
pub trait PageStore: Drop {
    /// The frames and VMOs that it contains.
    ghost content: { Self → Content };

    /// The number of pages that may be owned or made zero without asking the host for memory. `reserve` raises it,
    /// `own` and `zero` lower it by at most 1, and `zero_pages` by at most 1 for each held page. `write` leaves it as it
    /// was, and `snapshot` does not lower it. The other calls that change the store promise nothing of it if they succeed.
    ghost spare: { Self → ℕ };

    /// The possible outcomes of a call that asks the host for memory: the store before it, the call, whether it
    /// succeeds, and the store afterwards. A store that leaves this as it stands here may refuse such a call at any
    /// time. A store over another one says by it that an answer is the inner store's.
    ghost answers: { Self → Request → Bool → Self → Type 0 } = { λ store request ok after. Unit {0} };

    /// Gives a store that has nothing its page frames, from 1 to `FRAMES` of them. All are free. `HostMemory` if the
    /// host has too little memory.
    fn fill(&mut self, frames: u32) -> Result<(), HostMemory>
        requires empty { content self.old ≡ nothing }
        requires frames { (1 ≤ frames) × (frames ≤ FRAMES) }
        ensures ok { OnOk result (content self.new ≡ record (content self.old) { frames = frames }) }
        ensures err { OnErr result (content self.new ≡ content self.old) }
        ensures kept { OnErr result (spare self.old ≤ spare self.new) }
        ensures answer { answers self.old (Fill frames) (is_ok result) self.new };

    /// Makes a VMO of `count` zero pages under the next koid, and answers the koid. `HostMemory` if the host has too
    /// little memory.
    fn create(&mut self, count: PageNo) -> Result<Koid, HostMemory>
        requires count { count ≤ VMO_PAGES }
        requires next { (content self.old).next < KOIDS }
        ensures koid { IfOk result (λ v. v.0 ≡ (content self.old).next) }
        ensures ok { OnOk result (content self.new ≡ created (content self.old) count) }
        ensures err { OnErr result (content self.new ≡ content self.old) }
        ensures kept { OnErr result (spare self.old ≤ spare self.new) }
        ensures answer { answers self.old (Create count) (is_ok result) self.new };

    /// Makes a snapshot of a VMO under the next koid, and answers the koid. The snapshot has `count` pages. The first
    /// `seen` of them are the pages of `of` from `first` on: they show the same frames, so no frame is taken. The
    /// others are zero. Pages for which there was room may still be owned, those of the snapshot too. `HostMemory` if
    /// the host has too little memory.
    fn snapshot(
        &mut self,
        of: Koid,
        first: PageNo,
        seen: PageNo,
        count: PageNo,
    ) -> Result<Koid, HostMemory>
        requires vmo { IsSome ((content self.old).count of.0) }
        requires count { count ≤ VMO_PAGES }
        requires seen { seen ≤ count }
        requires range { first + seen ≤ pages_of (content self.old) of.0 }
        requires next { (content self.old).next < KOIDS }
        ensures koid { IfOk result (λ v. v.0 ≡ (content self.old).next) }
        ensures ok { OnOk result (content self.new ≡ snapshotted (content self.old) of.0 first seen count) }
        ensures err { OnErr result (content self.new ≡ content self.old) }
        ensures kept { spare self.old ≤ spare self.new }
        ensures answer { answers self.old (Snapshot of.0 first seen count) (is_ok result) self.new };

    /// Makes room for owning `n` pages, or for making them zero. `HostMemory` if the host has too little memory.
    fn reserve(&mut self, n: u64) -> Result<(), HostMemory>
        ensures room { OnOk result (n ≤ spare self.new) }
        ensures same { content self.new ≡ content self.old }
        ensures kept { spare self.old ≤ spare self.new }
        ensures answer { answers self.old (Reserve n) (is_ok result) self.new };

    /// Returns what a page below the count is.
    fn look(&self, v: Koid, page: PageNo) -> Look
        requires page { page < pages_of (content self.now) v.0 }
        ensures { result ≡ look_at (content self.now) v.0 ((content self.now).page v.0 page) };

    /// Returns the frame of a page below the count. `None` if the page is zero. It says what `look` does, but not whether
    /// another VMO shows the frame, for which a store may have to search.
    fn frame(&self, v: Koid, page: PageNo) -> Option<Tag>
        requires page { page < pages_of (content self.now) v.0 }
        ensures { result ≡ tag_held ((content self.now).page v.0 page) };

    /// Makes a page below the count sole, so that it may be written (copy on write), and answers its frame. A page that
    /// is sole keeps its frame. Any other needs room (`spare`) and a free frame, and then shows the same bytes in that
    /// frame.
    fn own(&mut self, v: Koid, page: PageNo) -> Tag
        requires page { page < pages_of (content self.old) v.0 }
        requires room { (sole (content self.old) v.0 page ≡ true)
            ⊎ ((1 ≤ spare self.old) × (used (content self.old) < (content self.old).frames)) }
        ensures owns { Owns (content self.old) (content self.new) v.0 page result.0 }
        ensures spare { spare self.old ≤ spare self.new + 1 };

    /// Makes a page below the count zero, as it is in a new VMO. Its frame is free afterwards, unless another VMO shows
    /// it. The call needs room (`spare`), since a store may have to note that the page is zero.
    fn zero(&mut self, v: Koid, page: PageNo)
        requires page { page < pages_of (content self.old) v.0 }
        requires room { 1 ≤ spare self.old }
        ensures zero { content self.new ≡ zeroed (content self.old) v.0 page (page + 1) }
        ensures spare { spare self.old ≤ spare self.new + 1 };

    /// Makes the pages of a VMO zero from `first` to below `end`, which `zero` does with one. The call needs room
    /// (`spare`) for each of them that is held, and takes no more. A store may go from held page to held page by one walk.
    fn zero_pages(&mut self, v: Koid, first: PageNo, end: PageNo)
        requires vmo { IsSome ((content self.old).count v.0) }
        requires range { (first ≤ end) × (end ≤ pages_of (content self.old) v.0) }
        requires room { held_from (content self.old) v.0 first (end - first) ≤ spare self.old }
        ensures zero { content self.new ≡ zeroed (content self.old) v.0 first end }
        ensures spare { spare self.old ≤ spare self.new + held_from (content self.old) v.0 first (end - first) };

    /// Returns how many pages a VMO has.
    fn count(&self, v: Koid) -> PageNo
        requires { IsSome ((content self.now).count v.0) }
        ensures { (content self.now).count v.0 ≡ Some result };

    /// Changes the page count of a VMO to `count`. Pages past the new end are dropped, and their frames are free then,
    /// unless another VMO shows them. New pages are zero.
    fn set_count(&mut self, v: Koid, count: PageNo)
        requires vmo { IsSome ((content self.old).count v.0) }
        requires count { count ≤ VMO_PAGES }
        ensures { content self.new ≡ resized (content self.old) v.0 count };

    /// Drops a VMO with its pages. The frames that no other VMO shows are free then.
    fn drop_vmo(&mut self, v: Koid)
        requires { IsSome ((content self.old).count v.0) }
        ensures { content self.new ≡ without (content self.old) v.0 };

    /// Reads bytes of a frame that some page shows, from `at` bytes into the page on.
    fn read(&self, tag: Tag, at: u64, out: &mut [u8])
        requires shown { IsShown (content self.now) tag.0 }
        requires range { at + length out.old ≤ PAGE }
        ensures { AreBytesOf (content self.now) tag.0 at out.new };

    /// Writes bytes to a frame that exactly one page shows, from `at` bytes into the page on.
    fn write(&mut self, tag: Tag, at: u64, bytes: &[u8])
        requires shown { IsShownOnce (content self.old) tag.0 }
        requires range { at + length bytes.now ≤ PAGE }
        ensures bytes { Overwrites (content self.old) (content self.new) tag.0 at bytes.now }
        ensures spare { spare self.new ≡ spare self.old };

    /// Returns the first page that is held, from page `from` of a VMO on. `None` if and only if none is.
    fn next_held(&self, v: Koid, from: PageNo) -> Option<PageNo>
        requires { IsSome ((content self.now).count v.0) }
        ensures some { IfSome result (λ page. (from ≤ page) × IsSome ((content self.now).page v.0 page)
            × ((p : ℕ) → from ≤ p → p < page → (content self.now).page v.0 p ≡ None)) }
        ensures none { IfNone result ((p : ℕ) → from ≤ p → (content self.now).page v.0 p ≡ None) };

    /// Returns the first page that is held, from page `from` of a VMO to below `end`. `None` if and only if none is. A store may end
    /// its search there, and so pages at or behind `end` cost nothing.
    fn next_held_below(&self, v: Koid, from: PageNo, end: PageNo) -> Option<PageNo>
        requires { IsSome ((content self.now).count v.0) }
        ensures { IsFirstOrNone (is_held (content self.now) v.0) from end result }
    {
        match self.next_held(v, from) {
            Some(page) if page < end => Some(page),
            _ => None,
        }
    }

    /// Returns the least koid of the VMOs that show a frame, of which there is one at least. That VMO is charged for
    /// the frame.
    fn least_viewer(&self, tag: Tag) -> Koid
        requires { IsShown (content self.now) tag.0 }
        ensures { IsLeastViewer (content self.now) tag.0 result.0 };

    /// Returns the koid of a VMO that shows a frame, of which there is one at least, if such a koid is below `v`. `None`
    /// if and only if none is. It need not be the least, so a store may end its search at the first.
    fn lesser_viewer(&self, tag: Tag, v: Koid) -> Option<Koid>
        requires { IsShown (content self.now) tag.0 }
        ensures some { IfSome result (λ w. (w.0 < v.0) × (views (content self.now) tag.0 w.0 ≡ true)) }
        ensures none { IfNone result ((w : ℕ) → w < v.0 → views (content self.now) tag.0 w ≡ false) };

    /// Returns how many VMOs show the frame of a page that is held.
    fn viewers(&self, v: Koid, page: PageNo) -> u64
        requires page { page < pages_of (content self.now) v.0 }
        requires held { IsSome ((content self.now).page v.0 page) }
        ensures { IfSome ((content self.now).page v.0 page) (λ held. result ≡ viewers (content self.now) held.tag) };

    /// Returns how many page frames the machine has.
    fn frames(&self) -> u32
        ensures { result ≡ (content self.now).frames };

    /// Returns how many page frames no page shows.
    fn free(&self) -> u32
        ensures { result + used (content self.now) ≡ (content self.now).frames };

    /// Returns how many VMOs there are.
    fn vmos(&self) -> u64
        ensures { result ≡ vmos_of (content self.now) };

    /// Returns the koid that the next VMO gets. It is 1 or more in every store, whatever the store's type. `create` and
    /// `snapshot` may be called while it is below `KOIDS`.
    fn next_koid(&self) -> Koid
        ensures koid { result.0 ≡ (content self.now).next }
        ensures first { 1 ≤ (content self.now).next };
}
