//! Text that waits to be pushed.

ghost use Rattle.std.specs.Prelude.{◌≡◌, ◌+◌, ◌≤◌, [], ◌++◌, length, OnOk, OnErr};
ghost use Rattle.std.specs.Io.KnownBytes.{Appends};
ghost use Rattle.script_io.specs.Faults.{HasCause, IsCutOff};
ghost use Rattle.shared_vm.specs.inside.Pending.{PassesOn};

use script_io::{Sink, push_all};
use std::marker::Model;
use vm_base::{Failed, TEXT_ROOM};
use word_text::put;

/// The most bytes that wait.
pub(crate) const PENDING_BYTES: usize = 4 * TEXT_ROOM;

/// Text that waits to be pushed, so that a sink takes many lines at once. Contracts see its bytes.
#[derive(Drop)]
pub(crate) struct PendingText {
    bytes: [u8; PENDING_BYTES],
    len: usize,
}

impl Model for PendingText {
    ghost use Rattle.std.specs.Prelude.{ℕ, List, ◌≤◌, take};
    ghost use Rattle.shared_vm.specs.declared.pending.TheConstants.{PENDING_BYTES};

    ghost Value = { List ℕ };

    ghost view = { λ p. take p.len p.bytes };

    ghost invariant = { λ p. p.len ≤ PENDING_BYTES };
}

impl PendingText {
    /// Returns a text of no bytes.
    pub(crate) fn new() -> PendingText
        ensures { result ≡ [] }
    {
        PendingText {
            bytes: [0; PENDING_BYTES],
            len: 0,
        }
    }

    /// Adds bytes, at most `PENDING_BYTES`. Those that wait are pushed first if there is too little room. `Failed` if the sink
    /// failed. It then took a front part of the bytes that waited, and not all of them.
    pub(crate) fn add<K: Sink>(&mut self, sink: &mut K, bytes: &[u8]) -> Result<(), Failed>
        requires { length bytes.now ≤ PENDING_BYTES }
        ensures ok { OnOk result (PassesOn (K.contents sink.old) self.old bytes.now (K.contents sink.new) self.new) }
        ensures err { OnErr result (IsCutOff (K.contents sink.old) (K.contents sink.new) (self.old ++ bytes.now)) }
        ensures cause { HasCause (K.faults sink.old) (K.faults sink.new) result }
    {
        self.make_room(sink, bytes.len())?;
        self.append(bytes);
        Ok(())
    }

    /// Pushes the bytes that wait. `Failed` if the sink failed. It then took a front part of them, and not all.
    pub(crate) fn flush<K: Sink>(&mut self, sink: &mut K) -> Result<(), Failed>
        ensures ok { OnOk result (Appends (K.contents sink.old) (K.contents sink.new) self.old) }
        ensures none { OnOk result (self.new ≡ []) }
        ensures err { OnErr result (IsCutOff (K.contents sink.old) (K.contents sink.new) self.old) }
        ensures cause { HasCause (K.faults sink.old) (K.faults sink.new) result }
    {
        push_all(sink, &self.bytes[..self.len])?;
        self.len = 0;
        Ok(())
    }

    /// Pushes the bytes that wait, if there is no room for so many more.
    fn make_room<K: Sink>(&mut self, sink: &mut K, count: usize) -> Result<(), Failed>
        requires { count ≤ PENDING_BYTES }
        ensures ok { OnOk result (PassesOn (K.contents sink.old) self.old [] (K.contents sink.new) self.new) }
        ensures room { OnOk result (length self.new + count ≤ PENDING_BYTES) }
        ensures err { OnErr result (IsCutOff (K.contents sink.old) (K.contents sink.new) self.old) }
        ensures cause { HasCause (K.faults sink.old) (K.faults sink.new) result }
    {
        if count <= PENDING_BYTES - self.len {
            return Ok(());
        }
        self.flush(sink)
    }

    /// Adds bytes for which there is room.
    fn append(&mut self, bytes: &[u8])
        requires { length self.old + length bytes.now ≤ PENDING_BYTES }
        ensures { self.new ≡ self.old ++ bytes.now }
    {
        self.len = put(bytes, &mut self.bytes, self.len);
    }
}
