//! Reading a source line by line.

ghost use Rattle.std.specs.Prelude.{◌≡◌, ◌≢◌, ◌+◌, ◌<◌, ◌≤◌, ◌^◌, ℕ, List, Option, [], ◌++◌, length, true, false, IfOk, IfNone, OnErr, Some, ◌==◌, ◌⊎◌};
ghost use Rattle.std.specs.Io.KnownBytes.{Keeps};
ghost use Rattle.script_io.specs.Faults.{HasCause, HasFailed};
ghost use Rattle.script_io.specs.Reader.{HasNoFeed, Grows};
ghost use Rattle.script_io.specs.Fetching.{IsPending, Fetches, Looked, Measured};

use crate::line_buffer::LineBuffer;
use crate::source::Source;
use std::alloc::Global;
use std::marker::Model;
use vm_base::{Failed, HostMemory, LINE_BYTES};

/// The result of a line reader's fetch.
#[derive(Clone, Copy, Debug, PartialEq, Eq)]
pub enum Fetch {
    /// The next line, which the reader lends.
    Line,
    /// The next line has more than `LINE_BYTES` bytes. It was passed over.
    TooLong,
    /// The source has said that it is at its end, and every line was fetched.
    End,
    /// Reading failed. The bytes that were taken are kept, and the next call goes on with them.
    Fault,
    /// One byte more than the limit was taken, and every line whose line feed lies within the limit was
    /// fetched.
    Limit,
}

/// Reads the lines of one source, one after another, through one buffer. A line ends with a line
/// feed, and at the end of the source a last piece that is not empty is a line too.
#[derive(Debug, Drop)]
pub struct Lines {
    buffer: LineBuffer,
    limit: u64,
    taken: u64,
    dropped: u64,
    ended: bool,
}

impl Model for Lines {
    ghost use Rattle.std.specs.Prelude.{◌++◌};
    ghost use Rattle.script_io.specs.Reader.{Reader, IsReading};
    ghost use Rattle.vm_base.specs.declared.limits.TheConstants.{LINE_BYTES};

    ghost Value = { Reader };

    ghost view = { λ s. record {
      limit = s.limit;
      taken = s.taken;
      dropped = s.dropped;
      held = s.buffer.seen ++ s.buffer.fresh;
      line = s.buffer.line;
      ended = s.ended;
    } };

    ghost invariant = { λ s. IsReading LINE_BYTES s.limit s.taken s.dropped s.buffer };
}

impl Lines {
    /// Makes a reader that takes at most `limit + 1` bytes of its source. `HostMemory` if the host has too little
    /// memory for the buffer.
    pub fn new(alloc: Global, limit: u64) -> Result<Lines, HostMemory>
        requires { limit < 2 ^ 63 }
        ensures { IfOk result (λ r. r ≡ record {
          limit = limit;
          taken = 0;
          dropped = 0;
          held = [];
          line = [];
          ended = false;
        }) }
    {
        let buffer = LineBuffer::new(alloc)?;
        Ok(Lines {
            buffer,
            limit,
            taken: 0,
            dropped: 0,
            ended: false,
        })
    }

    /// Returns the line that the last call of `next` fetched, without its line feed. It has no bytes if that call
    /// fetched none.
    pub fn line(&self) -> &[u8]
        ensures bytes { result.now ≡ self.now.line }
        ensures len { length result.now ≤ LINE_BYTES }
    {
        self.buffer.line()
    }

    /// Fetches the next line. The reader pulls bytes only if those that it pulled before have no line feed left, and
    /// none once the source has said that it is at its end. If a pull fails, the answer is `Fault`, and the next call
    /// pulls again. The function is inlined: a program has a loop over lines for each of its words, and no line should pay
    /// for a call.
    #[inline(always)]
    pub fn next<S: Source>(&mut self, source: &mut S) -> Fetch
        ensures fetches { (pending : List ℕ)
            → IsPending self.old (S.remaining source.old) pending
            → Fetches self.old self.new (S.remaining source.old) (S.remaining source.new) pending result }
        ensures limit { self.new.limit ≡ self.old.limit }
        ensures ended { self.old.ended ≡ true
            → (source.new ≡ source.old) × (self.new.taken ≡ self.old.taken) × (result ≢ Fetch.Fault) }
        ensures later { S.faults source.old ≤ S.faults source.new }
        ensures fault { result ≡ Fetch.Fault → HasFailed (S.faults source.old) (S.faults source.new) }
    {
        self.buffer.forget_line();
        loop {
            if let Some(fetch) = self.look() {
                return fetch;
            }
            let Ok(_) = self.pull(source) else {
                return Fetch::Fault;
            };
        }
    }

    /// Fetches a line from the bytes that are held. `None` if they have no line feed and more may come: the reader then
    /// keeps them as the front of a line, or drops them if that line is too long.
    #[inline(always)]
    fn look(&mut self) -> Option<Fetch>
        requires { self.old.line ≡ [] }
        ensures looked { (remaining : Option (List ℕ)) (pending : List ℕ)
            → IsPending self.old remaining pending → Looked self.new remaining pending result }
        ensures no_fault { result ≢ Some Fetch.Fault }
        ensures none { IfNone result ((self.new.ended ≡ false) × (self.new.taken ≤ self.new.limit)
            × (self.new.line ≡ []) × HasNoFeed self.new.held × (length self.new.held ≤ LINE_BYTES)) }
        ensures limit { self.new.limit ≡ self.old.limit }
        ensures taken { self.new.taken ≡ self.old.taken }
        ensures ended { self.new.ended ≡ self.old.ended }
    {
        if self.taken > self.limit {
            return Some(Fetch::Limit);
        }
        if self.buffer.find_line() {
            return Some(measure(&mut self.buffer, &mut self.dropped));
        }
        if self.ended {
            if self.dropped == 0 && self.buffer.seen_len() == 0 {
                return Some(Fetch::End);
            }
            self.buffer.take_seen();
            return Some(measure(&mut self.buffer, &mut self.dropped));
        }
        drop_long(&mut self.buffer, &mut self.dropped);
        None
    }

    /// Pulls bytes: at most as many as are left to the limit, or one if the limit is reached. An answer of 0 means the
    /// end.
    fn pull<S: Source>(&mut self, source: &mut S) -> Result<usize, Failed>
        requires ended { self.old.ended ≡ false }
        requires within { self.old.taken ≤ self.old.limit }
        requires no_feed { HasNoFeed self.old.held }
        requires short { length self.old.held ≤ LINE_BYTES }
        ensures grows { IfOk result (λ n.
            Grows self.old.held self.new.held (S.remaining source.old) (S.remaining source.new) n) }
        ensures ok { IfOk result (λ n. self.new ≡ record self.old {
          taken = self.old.taken + n;
          held = self.new.held;
          line = [];
          ended = n == 0;
        }) }
        ensures most { self.new.taken ≤ self.new.limit + 1 }
        ensures err { OnErr result ((self.new ≡ record self.old { line = [] })
            × Keeps (S.remaining source.old) (S.remaining source.new)) }
        ensures cause { HasCause (S.faults source.old) (S.faults source.new) result }
    {
        let most = (self.limit - self.taken).max(1);
        let n = self.buffer.pull(source, most)?;
        self.taken += n as u64;
        self.ended = n == 0;
        Ok(n)
    }
}

/// Tells whether the line in the buffer is lent or too long. `dropped` bytes of its front were dropped before. A line
/// that is too long is lent no more.
#[inline(always)]
fn measure(buffer: &mut LineBuffer, dropped: &mut u64) -> Fetch
    requires fits { dropped.old + length buffer.old.line < 2 ^ 64 }
    requires long { 0 < dropped.old → LINE_BYTES < dropped.old }
    ensures measured { Measured dropped.old buffer.old.line buffer.new.line result }
    ensures dropped { dropped.new ≡ 0 }
    ensures buffer { buffer.new ≡ record buffer.old { line = buffer.new.line } }
{
    let len = *dropped + buffer.line_len() as u64;
    *dropped = 0;
    if len <= LINE_BYTES as u64 {
        return Fetch::Line;
    }
    buffer.forget_line();
    Fetch::TooLong
}

/// Drops the bytes that were searched and counts them, if they are of a line that is too long.
fn drop_long(buffer: &mut LineBuffer, dropped: &mut u64)
    requires fits { dropped.old + length buffer.old.seen < 2 ^ 64 }
    requires long { 0 < dropped.old → LINE_BYTES < dropped.old }
    ensures dropped { dropped.new + length buffer.new.seen ≡ dropped.old + length buffer.old.seen }
    ensures short { length buffer.new.seen ≤ LINE_BYTES }
    ensures long { 0 < dropped.new → LINE_BYTES < dropped.new }
    ensures buffer { (buffer.new ≡ buffer.old)
        ⊎ (buffer.new ≡ record buffer.old { seen = [] }) }
{
    let len = buffer.seen_len();
    if *dropped > 0 || len > LINE_BYTES {
        *dropped += len as u64;
        buffer.drop_seen();
    }
}
