//! The buffer of a line reader.

ghost use Rattle.std.specs.Prelude.{◌≡◌, ◌+◌, ◌<◌, ◌≤◌, [], ◌∷◌, ◌++◌, length, take, drop, slice_index, IfOk, OnErr, MatchOption, MatchBool, vec_len};
ghost use Rattle.std.specs.List.{copy_within};
ghost use Rattle.std.specs.Io.KnownBytes.{Keeps, ReadConsumes};
ghost use Rattle.script_io.specs.Faults.{HasCause};
ghost use Rattle.script_io.specs.Reader.{Window, HasNoFeed, Grows};

use crate::source::Source;
use memchr::memchr;
use std::alloc::Global;
use std::marker::Model;
use vm_base::{Failed, HostMemory};

/// The most bytes that a reader holds of its source at once, and so the most that one pull gives it. It is more than a
/// line may have, so that there is always room to pull, and several times as many, so that one pull brings many lines.
const BUFFER_BYTES: usize = 65536;

const LINE_FEED: u8 = b'\n';

/// Bytes that were pulled. First come those that were searched for a line feed, and behind them those that were not.
/// The line that was found last stands in the buffer too.
///
/// A byte that was searched is not searched again, however many pulls its line takes. The pull that gives a byte copies
/// it. A byte is copied once more only if its line did not end in that pull and something stood before it: the byte
/// then moves to the front, to make room behind. A line is lent where it stands.
#[derive(Debug, Drop)]
pub(crate) struct LineBuffer {
    bytes: Vec<u8>,
    line_start: usize,
    line_end: usize,
    // Where the searched bytes begin. They end at `fresh_start`.
    seen_start: usize,
    fresh_start: usize,
    fresh_end: usize,
}

impl Model for LineBuffer {
    ghost use Rattle.std.specs.Prelude.{◌≡◌, ◌≤◌, vec_len, slice_range};
    ghost use Rattle.script_io.specs.Reader.{Window};
    ghost use Rattle.script_io.specs.declared.line_buffer.TheConstants.{BUFFER_BYTES};

    ghost Value = { Window };

    ghost view = { λ b. record {
      line = slice_range b.bytes.items b.line_start b.line_end;
      seen = slice_range b.bytes.items b.seen_start b.fresh_start;
      fresh = slice_range b.bytes.items b.fresh_start b.fresh_end;
    } };

    ghost invariant = { λ b. (vec_len b.bytes ≡ BUFFER_BYTES)
        × (b.line_start ≤ b.line_end) × (b.line_end ≤ BUFFER_BYTES)
        × (b.seen_start ≤ b.fresh_start) × (b.fresh_start ≤ b.fresh_end) × (b.fresh_end ≤ BUFFER_BYTES) };
}

impl LineBuffer {
    /// Makes an empty buffer.
    pub(crate) fn new(alloc: Global) -> Result<LineBuffer, HostMemory>
        ensures { IfOk result (λ b. b ≡ record { line = []; seen = []; fresh = [] }) }
    {
        let bytes = zero_bytes(alloc)?;
        Ok(LineBuffer {
            bytes,
            line_start: 0,
            line_end: 0,
            seen_start: 0,
            fresh_start: 0,
            fresh_end: 0,
        })
    }

    /// Returns the line that was found last.
    pub(crate) fn line(&self) -> &[u8]
        ensures { result.now ≡ self.now.line }
    {
        &self.bytes[self.line_start..self.line_end]
    }

    /// Returns how many bytes the line that was found last has.
    pub(crate) fn line_len(&self) -> usize
        ensures { result ≡ length self.now.line }
    {
        self.line_end - self.line_start
    }

    /// Returns how many bytes were searched.
    pub(crate) fn seen_len(&self) -> usize
        ensures { result ≡ length self.now.seen }
    {
        self.fresh_start - self.seen_start
    }

    /// Lends no line.
    pub(crate) fn forget_line(&mut self)
        ensures { self.new ≡ record self.old { line = [] } }
    {
        self.line_end = self.line_start;
    }

    /// Drops the bytes that were searched.
    pub(crate) fn drop_seen(&mut self)
        ensures { self.new ≡ record self.old { seen = [] } }
    {
        self.seen_start = self.fresh_start;
    }

    /// Makes the bytes that were searched the line.
    pub(crate) fn take_seen(&mut self)
        ensures { self.new ≡ record self.old { line = self.old.seen; seen = [] } }
    {
        self.line_start = self.seen_start;
        self.line_end = self.fresh_start;
        self.seen_start = self.fresh_start;
    }

    /// Searches the bytes that were not searched for a line feed. If there is one, what stands before it is the line,
    /// and is used up with the line feed.
    #[inline(always)]
    pub(crate) fn find_line(&mut self) -> bool
        ensures found { MatchBool result
            ((self.new.seen ≡ []) × (line : _) × HasNoFeed line
            × (self.new.line ≡ self.old.seen ++ line) × (self.old.fresh ≡ line ++ LINE_FEED ∷ self.new.fresh))
            (HasNoFeed self.old.fresh
            × (self.new ≡ record self.old { seen = self.old.seen ++ self.old.fresh; fresh = [] })) }
    {
        match feed_place(&self.bytes[self.fresh_start..self.fresh_end]) {
            Some(place) => {
                let feed = self.fresh_start + place;
                self.line_start = self.seen_start;
                self.line_end = feed;
                self.seen_start = feed + 1;
                self.fresh_start = feed + 1;
                true
            }
            None => {
                self.fresh_start = self.fresh_end;
                false
            }
        }
    }

    /// Pulls bytes once, behind those that are held: at most `most`, and no more than there is room for. No line is
    /// lent afterwards.
    pub(crate) fn pull<S: Source>(&mut self, source: &mut S, most: u64) -> Result<usize, Failed>
        requires room { length self.old.seen + length self.old.fresh < BUFFER_BYTES }
        requires some { 0 < most }
        ensures line { self.new.line ≡ [] }
        ensures seen { self.new.seen ≡ self.old.seen }
        ensures count { IfOk result (λ n. n ≤ most) }
        ensures grows { IfOk result (λ n.
            Grows self.old.fresh self.new.fresh (S.remaining source.old) (S.remaining source.new) n) }
        ensures err { OnErr result ((self.new.fresh ≡ self.old.fresh)
            × Keeps (S.remaining source.old) (S.remaining source.new)) }
        ensures cause { HasCause (S.faults source.old) (S.faults source.new) result }
    {
        self.line_start = 0;
        self.line_end = 0;
        move_to_front(&mut self.bytes, self.seen_start, self.fresh_end);
        self.fresh_start -= self.seen_start;
        self.fresh_end -= self.seen_start;
        self.seen_start = 0;
        let n = pull_behind(source, self.bytes.as_mut_slice(), self.fresh_end, most)?;
        self.fresh_end += n;
        Ok(n)
    }
}

/// Moves the bytes from `start` to `end` to the front, if they do not stand there.
fn move_to_front(bytes: &mut Vec<u8>, start: usize, end: usize)
    requires ordered { start ≤ end }
    requires within { end ≤ vec_len bytes.old }
    ensures moved { bytes.new.items ≡ copy_within bytes.old.items start end 0 }
    ensures len { vec_len bytes.new ≡ vec_len bytes.old }
{
    if start > 0 {
        bytes.copy_within(start..end, 0);
    }
}

/// Pulls bytes once, into a buffer behind its first `from`: at most `most`, and no more than there is
/// room for.
fn pull_behind<S: Source>(
    source: &mut S,
    bytes: &mut [u8],
    from: usize,
    most: u64,
) -> Result<usize, Failed>
    requires room { from < length bytes.old }
    requires some { 0 < most }
    ensures front { take from bytes.new ≡ take from bytes.old }
    ensures count { IfOk result (λ n. n ≤ most) }
    ensures room { IfOk result (λ n. from + n ≤ length bytes.old) }
    ensures bytes { ReadConsumes (S.remaining source.old) (S.remaining source.new) result (drop from bytes.new) }
    ensures cause { HasCause (S.faults source.old) (S.faults source.new) result }
{
    let (_, behind) = bytes.split_at_mut(from);
    let room = behind.len().min(most as usize);
    source.pull(&mut behind[..room])
}

/// Returns the memory of a buffer. What its bytes are does not matter.
fn zero_bytes(alloc: Global) -> Result<Vec<u8>, HostMemory>
    ensures { IfOk result (λ v. length v.items ≡ BUFFER_BYTES) }
{
    vec![in alloc; 0u8; BUFFER_BYTES].map_err(|_| HostMemory)
}

/// Returns the place of the first line feed.
#[inline(always)]
fn feed_place(bytes: &[u8]) -> Option<usize>
    ensures { MatchOption result (HasNoFeed bytes.now) (λ n. (n < length bytes.now)
        × HasNoFeed (take n bytes.now) × (slice_index bytes.now n ≡ LINE_FEED)) }
{
    memchr(LINE_FEED, bytes)
}
