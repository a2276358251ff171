//! The pool of page frames.

ghost use Rattle.std.specs.Prelude.{◌≡◌, ℕ, ◌+◌, ◌<◌, ◌≤◌, ◌≢◌, ◌==◌, if◌then◌else◌, length, take, drop, None, IsSome, IfSome, IfNone, OnOk, OnErr, [], replicate};
ghost use Rattle.vm_base.specs.Entries.{with_key, without_key};
ghost use Rattle.vm_base.specs.Pages.{zeros, replaced};
ghost use Rattle.frame_pool.specs.Pool.{Pool, taken_frames, frame_bytes, taken_count, links_of, Takes};

use std::alloc::Global;
use std::marker::Model;
use vm_base::{FRAMES, HostMemory, PAGE, PAGE_BYTES, PageNo, Tag};

/// The backlink of a frame for which none was set.
const NO_LINK: Backlink = Backlink { list: 0, page: 0 };

/// The row that has a frame, as a list and a page: the backlink of the kernel's `vm_page`.
#[derive(Clone, Copy, Debug, PartialEq, Eq)]
pub struct Backlink {
    /// The number of the list of pages.
    pub list: u64,
    /// The page of the list.
    pub page: PageNo,
}

/// The page frames of the machine: each is free, or taken with its bytes. A frame has `PAGE_BYTES` bytes and a tag, a
/// number below the number of frames. No call but `fill` asks the host for memory.
#[derive(Drop)]
pub struct FramePool {
    /// The number of page frames of the machine.
    frames: u32,
    /// The bytes of the frames that were taken at some time, by tag.
    buffer: Vec<[u8; PAGE_BYTES]>,
    /// For each of these, true if it is blank: a blank frame shows zeros, whatever its bytes are. So a frame that is
    /// taken again is only marked, and its bytes are touched no sooner than it is written.
    blank: Vec<bool>,
    /// The backlink of each frame, by tag.
    links: Vec<Backlink>,
    /// The frames of the buffer that were given back, the last one last.
    idle: Vec<Tag>,
}

impl Model for FramePool {
    ghost use Rattle.frame_pool.specs.Pool.{Pool};

    ghost Value = { Pool };

    ghost use Rattle.frame_pool.specs.inside.PoolFields.{pool_of, ArePool};

    ghost view = { pool_of };

    ghost invariant = { ArePool };
}

impl FramePool {
    /// Makes a pool with no frames.
    pub fn new(alloc: Global) -> FramePool
        ensures frames { result.frames ≡ 0 }
        ensures taken { (t : ℕ) → taken_frames result t ≡ None }
    {
        FramePool {
            frames: 0,
            buffer: Vec::new(alloc),
            blank: Vec::new(alloc),
            links: Vec::new(alloc),
            idle: Vec::new(alloc),
        }
    }

    /// Gives a pool without page frames its frames, from 1 to `FRAMES` of them. All are free. `HostMemory`, with
    /// nothing changed, if the host has too little memory.
    pub fn fill(&mut self, frames: u32) -> Result<(), HostMemory>
        requires empty { self.old.frames ≡ 0 }
        requires frames { (1 ≤ frames) × (frames ≤ FRAMES) }
        ensures frames { OnOk result (self.new.frames ≡ frames) }
        ensures taken { OnOk result ((t : ℕ) → taken_frames self.new t ≡ None) }
        ensures err { OnErr result (self.new ≡ self.old) }
    {
        let count = frames as usize;
        // Only room: the bytes of a frame are first written as the frame is taken.
        let Ok(()) = self.buffer.reserve_exact(count) else {
            return Err(HostMemory);
        };
        let Ok(()) = self.blank.reserve_exact(count) else {
            return Err(HostMemory);
        };
        let Ok(()) = self.links.reserve_exact(count) else {
            return Err(HostMemory);
        };
        let Ok(()) = self.idle.reserve_exact(count) else {
            return Err(HostMemory);
        };
        let _ = self.links.resize(count, NO_LINK);
        self.frames = frames;
        Ok(())
    }

    /// Takes a free frame, which shows zeros then. `None` if and only if no frame is free.
    pub fn take(&mut self) -> Option<Tag>
        ensures frames { self.new.frames ≡ self.old.frames }
        ensures links { links_of self.new ≡ links_of self.old }
        ensures some { IfSome result (λ tag. Takes self.old self.new tag.0 zeros) }
        ensures none { IfNone result ((taken_count self.old ≡ self.old.frames) × (self.new ≡ self.old)) }
    {
        let Some(idle) = self.idle.pop() else {
            return self.take_fresh();
        };
        self.blank[idle.0 as usize] = true;
        Some(idle)
    }

    /// Takes a frame that was never taken, if no frame was given back. Apart, so that `take` stays short.
    #[inline(never)]
    fn take_fresh(&mut self) -> Option<Tag>
        requires { self.old.idle ≡ [] }
        ensures frames { self.new.frames ≡ self.old.frames }
        ensures links { links_of self.new ≡ links_of self.old }
        ensures some { IfSome result (λ tag. Takes self.old self.new tag.0 zeros) }
        ensures none { IfNone result ((taken_count self.old ≡ self.old.frames) × (self.new ≡ self.old)) }
    {
        let next = self.buffer.len() as u32;
        if next == self.frames {
            return None;
        }
        self.buffer.push_reserved(blank_frame());
        self.blank.push_reserved(false);
        Some(Tag(next))
    }

    /// Takes a free frame, and copies the bytes of a taken frame to it. `None` if and only if no frame is free.
    pub fn take_copy(&mut self, from: Tag) -> Option<Tag>
        requires { IsSome (taken_frames self.old from.0) }
        ensures frames { self.new.frames ≡ self.old.frames }
        ensures links { links_of self.new ≡ links_of self.old }
        ensures some { IfSome result (λ tag. Takes self.old self.new tag.0 (frame_bytes self.old from.0)) }
        ensures none { IfNone result ((taken_count self.old ≡ self.old.frames) × (self.new ≡ self.old)) }
    {
        if self.idle.is_empty() {
            return self.take_fresh_copy(from);
        }
        let to = self.take()?;
        self.copy(from, to);
        Some(to)
    }

    /// Takes a frame that was never taken, if no frame was given back, and copies the bytes of a taken frame to it.
    #[inline(never)]
    fn take_fresh_copy(&mut self, from: Tag) -> Option<Tag>
        requires idle { self.old.idle ≡ [] }
        requires taken { IsSome (taken_frames self.old from.0) }
        ensures frames { self.new.frames ≡ self.old.frames }
        ensures links { links_of self.new ≡ links_of self.old }
        ensures some { IfSome result (λ tag. Takes self.old self.new tag.0 (frame_bytes self.old from.0)) }
        ensures none { IfNone result ((taken_count self.old ≡ self.old.frames) × (self.new ≡ self.old)) }
    {
        if self.blank[from.0 as usize] {
            return self.take_fresh();
        }
        let next = self.buffer.len() as u32;
        if next == self.frames {
            return None;
        }
        let bytes = self.buffer[from.0 as usize];
        self.buffer.push_reserved(bytes);
        self.blank.push_reserved(false);
        Some(Tag(next))
    }

    /// Gives a taken frame back. The frame is free then, and its bytes are lost.
    pub fn give_back(&mut self, tag: Tag)
        requires { IsSome (taken_frames self.old tag.0) }
        ensures frames { self.new.frames ≡ self.old.frames }
        ensures links { links_of self.new ≡ links_of self.old }
        ensures taken { taken_frames self.new ≡ without_key (taken_frames self.old) tag.0 }
    {
        self.idle.push_reserved(tag);
    }

    /// Reads bytes of a taken frame, from `at` bytes into it on.
    pub fn read(&self, tag: Tag, at: u64, out: &mut [u8])
        requires taken { IsSome (taken_frames self.now tag.0) }
        requires range { at + length out.old ≤ PAGE }
        ensures { out.new ≡ take (length out.old) (drop at (frame_bytes self.now tag.0)) }
    {
        let frame = tag.0 as usize;
        if self.blank[frame] {
            return clear_all(out);
        }
        let from = at as usize;
        let end = from + out.len();
        out.copy_from_slice(&self.buffer[frame][from..end]);
    }

    /// Writes bytes to a taken frame, from `at` bytes into it on.
    pub fn write(&mut self, tag: Tag, at: u64, bytes: &[u8])
        requires taken { IsSome (taken_frames self.old tag.0) }
        requires range { at + length bytes.now ≤ PAGE }
        ensures frames { self.new.frames ≡ self.old.frames }
        ensures links { links_of self.new ≡ links_of self.old }
        ensures taken { taken_frames self.new
            ≡ with_key (taken_frames self.old) tag.0 (replaced (frame_bytes self.old tag.0) at bytes.now) }
    {
        let frame = tag.0 as usize;
        if self.blank[frame] {
            return self.write_blank(tag, at, bytes);
        }
        overwrite(&mut self.buffer[frame], at as usize, bytes);
    }

    /// Writes bytes to a taken frame as if it showed zeros, and it is not blank then. Apart, so that `write` stays short.
    #[inline(never)]
    fn write_blank(&mut self, tag: Tag, at: u64, bytes: &[u8])
        requires taken { IsSome (taken_frames self.old tag.0) }
        requires range { at + length bytes.now ≤ PAGE }
        ensures frames { self.new.frames ≡ self.old.frames }
        ensures links { links_of self.new ≡ links_of self.old }
        ensures taken { taken_frames self.new ≡ with_key (taken_frames self.old) tag.0 (replaced zeros at bytes.now) }
    {
        overwrite_zeros(&mut self.buffer[tag.0 as usize], at as usize, bytes);
        self.blank[tag.0 as usize] = false;
    }

    /// Copies all bytes of one taken frame to another.
    pub fn copy(&mut self, from: Tag, to: Tag)
        requires from { IsSome (taken_frames self.old from.0) }
        requires to { IsSome (taken_frames self.old to.0) }
        requires apart { from.0 ≢ to.0 }
        ensures frames { self.new.frames ≡ self.old.frames }
        ensures links { links_of self.new ≡ links_of self.old }
        ensures taken { taken_frames self.new
            ≡ with_key (taken_frames self.old) to.0 (frame_bytes self.old from.0) }
    {
        if self.blank[from.0 as usize] {
            return self.clear(to);
        }
        let bytes = self.buffer[from.0 as usize];
        self.buffer[to.0 as usize] = bytes;
        self.blank[to.0 as usize] = false;
    }

    /// Makes all bytes of a taken frame zeros.
    pub fn clear(&mut self, tag: Tag)
        requires { IsSome (taken_frames self.old tag.0) }
        ensures frames { self.new.frames ≡ self.old.frames }
        ensures links { links_of self.new ≡ links_of self.old }
        ensures taken { taken_frames self.new ≡ with_key (taken_frames self.old) tag.0 zeros }
    {
        self.blank[tag.0 as usize] = true;
    }

    /// Sets the backlink of a taken frame: the row that has the frame.
    pub fn set_backlink(&mut self, tag: Tag, link: Backlink)
        requires { IsSome (taken_frames self.old tag.0) }
        ensures frames { self.new.frames ≡ self.old.frames }
        ensures taken { taken_frames self.new ≡ taken_frames self.old }
        ensures links { links_of self.new ≡ λ t. if t == tag.0 then link else links_of self.old t }
    {
        self.links[tag.0 as usize] = link;
    }

    /// Returns the backlink of a taken frame, as it was set last.
    pub fn backlink(&self, tag: Tag) -> Backlink
        requires { IsSome (taken_frames self.now tag.0) }
        ensures { result ≡ links_of self.now tag.0 }
    {
        self.links[tag.0 as usize]
    }

    /// Returns how many frames are free.
    pub fn free(&self) -> u32
        ensures { result + taken_count self.now ≡ self.now.frames }
    {
        self.frames - self.buffer.len() as u32 + self.idle.len() as u32
    }

    /// Returns how many frames the machine has, taken or free. Every tag that is taken is below this number.
    pub fn frames(&self) -> u32
        ensures value { result ≡ self.now.frames }
        ensures below { (tag : ℕ) → IsSome (taken_frames self.now tag) → tag < result }
        ensures bound { result ≤ FRAMES }
    {
        self.frames
    }
}

/// Returns the bytes of a page of zeros.
fn blank_frame() -> [u8; PAGE_BYTES]
    ensures { result ≡ zeros }
{
    [0; PAGE_BYTES]
}

/// Puts bytes into a frame, from `at` bytes into it on.
fn overwrite(frame: &mut [u8; PAGE_BYTES], at: usize, bytes: &[u8])
    requires { at + length bytes.now ≤ PAGE }
    ensures { frame.new ≡ replaced frame.old at bytes.now }
{
    frame[at..at + bytes.len()].copy_from_slice(bytes);
}

/// Puts bytes into a frame, from `at` bytes into it on, and zeros into the rest of it.
fn overwrite_zeros(frame: &mut [u8; PAGE_BYTES], at: usize, bytes: &[u8])
    requires { at + length bytes.now ≤ PAGE }
    ensures { frame.new ≡ replaced zeros at bytes.now }
{
    if bytes.len() == PAGE_BYTES {
        return frame.copy_from_slice(bytes);
    }
    *frame = blank_frame();
    overwrite(frame, at, bytes);
}

/// Makes all bytes zeros.
#[inline(never)]
fn clear_all(out: &mut [u8])
    ensures { out.new ≡ replicate (length out.old) 0 }
{
    out.fill(0);
}
