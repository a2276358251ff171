//! A store that refuses on demand.

ghost use Rattle.std.specs.Prelude.{◌≡◌, ℕ, ◌+◌, ◌-◌, ◌<◌, ◌≤◌, ◌⊎◌, ◌↔◌, true, length, is_ok, IsSome, IsTrue, IfOk, OnOk, OnErr, IsErr, Contains};
ghost use Rattle.vm_base.specs.declared.limits.TheConstants.{FRAMES, KOIDS, PAGE, VMO_PAGES};
ghost use Rattle.vm_model.specs.Contents.Content.{nothing, used, sole, pages_of, created};
ghost use Rattle.vm_model.specs.Contents.Owning.{Owns};
ghost use Rattle.vm_model.specs.Contents.Sharing.{snapshotted, without};
ghost use Rattle.vm_model.specs.Contents.Zeroing.{zeroed, resized};
ghost use Rattle.page_store.specs.Pages.{IsShownOnce, Overwrites};
ghost use Rattle.page_store.specs.Held.{held_from};
ghost use Rattle.page_store.specs.Requests.{Fill, Create, Snapshot, Reserve};
ghost use Rattle.page_store.specs.Refusing.{Refusals, next_call, counted};

use crate::page_store::{Look, PageStore};
use std::alloc::Global;
use std::marker::Model;
use vm_base::{HostMemory, Koid, PageNo, Tag};

/// The calls that are refused, numbered from 1, and how many there were. The count stays at 2^64 - 1.
#[derive(Drop)]
struct Plan {
    refuse: Vec<u64>,
    calls: u64,
}

impl Model for Plan {
    ghost use Rattle.page_store.specs.Refusing.{Refusals};

    ghost Value = { Refusals };

    ghost view = { λ p. record { refuse = p.refuse.items; calls = p.calls } };
}

impl Plan {
    // No call yet, and these are to be refused.
    fn new(alloc: Global, refuse: &[u64]) -> Result<Plan, HostMemory>
        ensures { IfOk result (λ p. p ≡ record { refuse = refuse.now; calls = 0 }) }
    {
        let refuse = Vec::from_slice(alloc, refuse).map_err(|_| HostMemory)?;
        Ok(Plan { refuse, calls: 0 })
    }

    // Counts a call, and answers whether it is refused.
    fn count_call(&mut self) -> bool
        ensures refused { IsTrue result ↔ Contains self.old.refuse (next_call self.old.calls) }
        ensures counted { self.new ≡ counted self.old }
    {
        self.calls = self.calls.saturating_add(1);
        self.refuse.as_slice().contains(&self.calls)
    }
}

/// A store over another one, that refuses calls which were chosen when it was made. It counts the calls of `fill`,
/// `create`, `snapshot` and `reserve` together, from 1, up to 2^64 - 1. It answers a chosen call with `HostMemory`, and
/// does not touch the inner store. It hands any other call to the inner store. The content and `spare` are the inner
/// store's.
///
/// Contracts see the inner store, which calls are refused, and how many calls there were.
#[derive(Drop)]
pub struct RefusingStore<P> {
    inner: P,
    plan: Plan,
}

impl<P> Model for RefusingStore<P> {
    ghost use Rattle.page_store.specs.Refusing.{Refusals};

    ghost Value = { P × Refusals };

    ghost view = { λ s. (s.inner, s.plan) };
}

impl<P: PageStore> RefusingStore<P> {
    /// Makes a store over an inner one that has nothing. Its calls numbered in `refuse`, from 1, are refused.
    /// `HostMemory` if the host has too little memory for the list of them: the inner store is then dropped.
    pub fn new(alloc: Global, inner: P, refuse: &[u64]) -> Result<RefusingStore<P>, HostMemory>
        requires { P.content inner ≡ nothing }
        ensures inner { IfOk result (λ s. s.0 ≡ inner) }
        ensures refusals { IfOk result (λ s. s.1 ≡ record { refuse = refuse.now; calls = 0 }) }
    {
        let plan = Plan::new(alloc, refuse)?;
        Ok(RefusingStore { inner, plan })
    }

    /// Returns how many calls of `fill`, `create`, `snapshot` and `reserve` there were, the refused ones too, up to
    /// 2^64 - 1.
    pub fn calls(&self) -> u64
        ensures { result ≡ self.now.1.calls }
    {
        self.plan.calls
    }

    /// Returns the inner store.
    pub fn inner(&self) -> &P
        ensures { result.now ≡ self.now.0 }
    {
        &self.inner
    }
}

impl<P: PageStore> PageStore for RefusingStore<P> {
    ghost content = { λ s. P.content s.0 };

    ghost spare = { λ s. P.spare s.0 };

    ghost answers = { λ s request ok after.
        ¬ (Contains s.1.refuse (next_call s.1.calls)) → P.answers s.0 request ok after.0 };

    fn fill(&mut self, frames: u32) -> Result<(), HostMemory>
        requires empty { P.content self.old.0 ≡ nothing }
        requires frames { (1 ≤ frames) × (frames ≤ FRAMES) }
        ensures ok { OnOk result (P.content self.new.0 ≡ record (P.content self.old.0) { frames = frames }) }
        ensures err { OnErr result (P.content self.new.0 ≡ P.content self.old.0) }
        ensures kept { OnErr result (P.spare self.old.0 ≤ P.spare self.new.0) }
        ensures refused { Contains self.old.1.refuse (next_call self.old.1.calls) → IsErr result × (self.new.0 ≡ self.old.0) }
        ensures others { ¬ (Contains self.old.1.refuse (next_call self.old.1.calls)) → P.answers self.old.0 (Fill frames) (is_ok result) self.new.0 }
        ensures calls { self.new.1 ≡ counted self.old.1 }
    {
        if self.plan.count_call() {
            return Err(HostMemory);
        }
        self.inner.fill(frames)
    }

    fn create(&mut self, count: PageNo) -> Result<Koid, HostMemory>
        requires count { count ≤ VMO_PAGES }
        requires next { (P.content self.old.0).next < KOIDS }
        ensures koid { IfOk result (λ v. v.0 ≡ (P.content self.old.0).next) }
        ensures ok { OnOk result (P.content self.new.0 ≡ created (P.content self.old.0) count) }
        ensures err { OnErr result (P.content self.new.0 ≡ P.content self.old.0) }
        ensures kept { OnErr result (P.spare self.old.0 ≤ P.spare self.new.0) }
        ensures refused { Contains self.old.1.refuse (next_call self.old.1.calls) → IsErr result × (self.new.0 ≡ self.old.0) }
        ensures others { ¬ (Contains self.old.1.refuse (next_call self.old.1.calls)) → P.answers self.old.0 (Create count) (is_ok result) self.new.0 }
        ensures calls { self.new.1 ≡ counted self.old.1 }
    {
        if self.plan.count_call() {
            return Err(HostMemory);
        }
        self.inner.create(count)
    }

    fn snapshot(
        &mut self,
        of: Koid,
        first: PageNo,
        seen: PageNo,
        count: PageNo,
    ) -> Result<Koid, HostMemory>
        requires vmo { IsSome ((P.content self.old.0).count of.0) }
        requires count { count ≤ VMO_PAGES }
        requires seen { seen ≤ count }
        requires range { first + seen ≤ pages_of (P.content self.old.0) of.0 }
        requires next { (P.content self.old.0).next < KOIDS }
        ensures koid { IfOk result (λ v. v.0 ≡ (P.content self.old.0).next) }
        ensures ok { OnOk result (P.content self.new.0 ≡ snapshotted (P.content self.old.0) of.0 first seen count) }
        ensures err { OnErr result (P.content self.new.0 ≡ P.content self.old.0) }
        ensures kept { P.spare self.old.0 ≤ P.spare self.new.0 }
        ensures refused { Contains self.old.1.refuse (next_call self.old.1.calls) → IsErr result × (self.new.0 ≡ self.old.0) }
        ensures others { ¬ (Contains self.old.1.refuse (next_call self.old.1.calls)) → P.answers self.old.0 (Snapshot of.0 first seen count) (is_ok result) self.new.0 }
        ensures calls { self.new.1 ≡ counted self.old.1 }
    {
        if self.plan.count_call() {
            return Err(HostMemory);
        }
        self.inner.snapshot(of, first, seen, count)
    }

    fn reserve(&mut self, n: u64) -> Result<(), HostMemory>
        ensures room { OnOk result (n ≤ P.spare self.new.0) }
        ensures same { P.content self.new.0 ≡ P.content self.old.0 }
        ensures kept { P.spare self.old.0 ≤ P.spare self.new.0 }
        ensures refused { Contains self.old.1.refuse (next_call self.old.1.calls) → IsErr result × (self.new.0 ≡ self.old.0) }
        ensures others { ¬ (Contains self.old.1.refuse (next_call self.old.1.calls)) → P.answers self.old.0 (Reserve n) (is_ok result) self.new.0 }
        ensures calls { self.new.1 ≡ counted self.old.1 }
    {
        if self.plan.count_call() {
            return Err(HostMemory);
        }
        self.inner.reserve(n)
    }

    fn look(&self, v: Koid, page: PageNo) -> Look {
        self.inner.look(v, page)
    }

    fn frame(&self, v: Koid, page: PageNo) -> Option<Tag> {
        self.inner.frame(v, page)
    }

    fn own(&mut self, v: Koid, page: PageNo) -> Tag
        requires page { page < pages_of (P.content self.old.0) v.0 }
        requires room { (sole (P.content self.old.0) v.0 page ≡ true)
            ⊎ ((1 ≤ P.spare self.old.0) × (used (P.content self.old.0) < (P.content self.old.0).frames)) }
        ensures owns { Owns (P.content self.old.0) (P.content self.new.0) v.0 page result.0 }
        ensures spare { P.spare self.old.0 ≤ P.spare self.new.0 + 1 }
        ensures calls { self.new.1 ≡ self.old.1 }
    {
        self.inner.own(v, page)
    }

    fn zero(&mut self, v: Koid, page: PageNo)
        requires page { page < pages_of (P.content self.old.0) v.0 }
        requires room { 1 ≤ P.spare self.old.0 }
        ensures zero { P.content self.new.0 ≡ zeroed (P.content self.old.0) v.0 page (page + 1) }
        ensures spare { P.spare self.old.0 ≤ P.spare self.new.0 + 1 }
        ensures calls { self.new.1 ≡ self.old.1 }
    {
        self.inner.zero(v, page);
    }

    fn zero_pages(&mut self, v: Koid, first: PageNo, end: PageNo)
        requires vmo { IsSome ((P.content self.old.0).count v.0) }
        requires range { (first ≤ end) × (end ≤ pages_of (P.content self.old.0) v.0) }
        requires room { held_from (P.content self.old.0) v.0 first (end - first) ≤ P.spare self.old.0 }
        ensures zero { P.content self.new.0 ≡ zeroed (P.content self.old.0) v.0 first end }
        ensures spare { P.spare self.old.0 ≤ P.spare self.new.0 + held_from (P.content self.old.0) v.0 first (end - first) }
        ensures calls { self.new.1 ≡ self.old.1 }
    {
        self.inner.zero_pages(v, first, end);
    }

    fn count(&self, v: Koid) -> PageNo {
        self.inner.count(v)
    }

    fn set_count(&mut self, v: Koid, count: PageNo)
        requires vmo { IsSome ((P.content self.old.0).count v.0) }
        requires count { count ≤ VMO_PAGES }
        ensures content { P.content self.new.0 ≡ resized (P.content self.old.0) v.0 count }
        ensures calls { self.new.1 ≡ self.old.1 }
    {
        self.inner.set_count(v, count);
    }

    fn drop_vmo(&mut self, v: Koid)
        requires { IsSome ((P.content self.old.0).count v.0) }
        ensures content { P.content self.new.0 ≡ without (P.content self.old.0) v.0 }
        ensures calls { self.new.1 ≡ self.old.1 }
    {
        self.inner.drop_vmo(v);
    }

    fn read(&self, tag: Tag, at: u64, out: &mut [u8]) {
        self.inner.read(tag, at, out);
    }

    fn write(&mut self, tag: Tag, at: u64, bytes: &[u8])
        requires shown { IsShownOnce (P.content self.old.0) tag.0 }
        requires range { at + length bytes.now ≤ PAGE }
        ensures bytes { Overwrites (P.content self.old.0) (P.content self.new.0) tag.0 at bytes.now }
        ensures spare { P.spare self.new.0 ≡ P.spare self.old.0 }
        ensures calls { self.new.1 ≡ self.old.1 }
    {
        self.inner.write(tag, at, bytes);
    }

    fn next_held(&self, v: Koid, from: PageNo) -> Option<PageNo> {
        self.inner.next_held(v, from)
    }

    fn next_held_below(&self, v: Koid, from: PageNo, end: PageNo) -> Option<PageNo> {
        self.inner.next_held_below(v, from, end)
    }

    fn least_viewer(&self, tag: Tag) -> Koid {
        self.inner.least_viewer(tag)
    }

    fn lesser_viewer(&self, tag: Tag, v: Koid) -> Option<Koid> {
        self.inner.lesser_viewer(tag, v)
    }

    fn viewers(&self, v: Koid, page: PageNo) -> u64 {
        self.inner.viewers(v, page)
    }

    fn frames(&self) -> u32 {
        self.inner.frames()
    }

    fn free(&self) -> u32 {
        self.inner.free()
    }

    fn vmos(&self) -> u64 {
        self.inner.vmos()
    }

    fn next_koid(&self) -> Koid {
        self.inner.next_koid()
    }
}
