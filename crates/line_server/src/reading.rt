//! Reading a source line by line.

ghost use Rattle.std.specs.Prelude.{◌≡◌, ◌+◌, ◌^◌, ◌<◌, ◌≤◌, ℕ, List, Option, Some, Ok, IfNone, MatchOption, MatchResult, OnOk, length};
ghost use Rattle.vm_base.specs.declared.limits.TheConstants.{LINE_BYTES};
ghost use Rattle.script_io.specs.Faults.{HasFailed};
ghost use Rattle.line_server.specs.Reading.{LineTurns, ReadsAs};
ghost use Rattle.line_server.specs.Serving.{IsBeingRead, IsReady, FetchesOnce, bytes_left, fresh, halt};

use script_io::{Fetch, Lines, Source, Status};

/// A turn says what is done with a line of a source. Its type has no data: a machine, a store and a sink are lent to it for each line.
pub trait Turn<M, P, K, E> {
    /// The type of states.
    ghost State: { Type 0 };

    /// To which states lines lead.
    ghost turns: { LineTurns State };

    /// The state that machine, store and sink stand for.
    ghost state: { M → P → K → State };

    /// The machine and the store are such that a line may come.
    ghost Holds: { M → P → Type 0 };

    /// A number that a line raises by one at most.
    ghost count: { M → P → ℕ };

    /// The most that this number may be before a line.
    ghost most: { ℕ };

    /// Does what is to be done with a line of at most `LINE_BYTES` bytes, without its line feed. An error if reading ends with it.
    fn take(machine: &mut M, store: &mut P, sink: &mut K, line: &[u8]) -> Result<(), E>
        requires short { length line.now ≤ LINE_BYTES }
        requires holds { Holds machine.old store.old }
        requires few { count machine.old store.old ≤ most }
        ensures taken { MatchResult result
            (λ _. turns.Takes line.now (state machine.old store.old sink.old) (state machine.new store.new sink.new))
            (λ _. turns.Halts line.now (state machine.old store.old sink.old) (state machine.new store.new sink.new)) }
        ensures next { OnOk result (Holds machine.new store.new × (count machine.new store.new ≤ count machine.old store.old + 1)) };

    /// Does what is to be done with a line of more than `LINE_BYTES` bytes. An error if reading ends with it.
    fn pass(machine: &mut M, store: &mut P, sink: &mut K) -> Result<(), E>
        requires holds { Holds machine.old store.old }
        requires few { count machine.old store.old ≤ most }
        ensures taken { (line : List ℕ) → LINE_BYTES < length line → MatchResult result
            (λ _. turns.Takes line (state machine.old store.old sink.old) (state machine.new store.new sink.new))
            (λ _. turns.Halts line (state machine.old store.old sink.old) (state machine.new store.new sink.new)) }
        ensures next { OnOk result (Holds machine.new store.new × (count machine.new store.new ≤ count machine.old store.old + 1)) };
}

/// Returns how reading ends behind a line: with the error that it gave, if it gave one.
#[inline(always)]
fn halt<E>(taken: Result<(), E>) -> Option<Result<Status, E>>
    ensures { result ≡ halt taken }
{
    match taken {
        Ok(()) => None,
        Err(error) => Some(Err(error)),
    }
}

/// Fetches the next line, and does what is to be done with it. How reading ends, if it ends with it. A call uses up one line at most.
fn read_next<T: Turn<M, P, K, E>, M, P, K, E, S: Source>(
    lines: &mut Lines,
    machine: &mut M,
    store: &mut P,
    source: &mut S,
    sink: &mut K,
) -> Option<Result<Status, E>>
    requires holds { T.Holds machine.old store.old }
    requires ready { IsReady lines.old (S.remaining source.old) (T.count machine.old store.old) }
    requires limit { lines.old.limit ≤ T.most }
    ensures way { (limit : ℕ) (source_old : Option (List ℕ)) (start : T.State)
        → IsBeingRead T.turns limit lines.old source_old (S.remaining source.old) start (T.state machine.old store.old sink.old)
        → MatchOption result
        (IsBeingRead T.turns limit lines.new source_old (S.remaining source.new) start (T.state machine.new store.new sink.new))
        (λ end. ReadsAs T.turns end limit source_old (S.remaining source.new) start (T.state machine.new store.new sink.new)) }
    ensures once { FetchesOnce lines.old lines.new (S.remaining source.old) (S.remaining source.new) }
    ensures holds { IfNone result (T.Holds machine.new store.new) }
    ensures ready { IfNone result (IsReady lines.new (S.remaining source.new) (T.count machine.new store.new)) }
    ensures few { result ≡ Some (Ok Status.Done) → T.count machine.new store.new ≤ lines.old.limit + 1 }
    ensures limit { lines.new.limit ≡ lines.old.limit }
    ensures falls { IfNone result (bytes_left lines.new < bytes_left lines.old) }
    ensures later { S.faults source.old ≤ S.faults source.new }
    ensures cause { result ≡ Some (Ok Status.ReadFault) → HasFailed (S.faults source.old) (S.faults source.new) }
{
    match lines.next(source) {
        Fetch::Line => halt(T::take(machine, store, sink, lines.line())),
        Fetch::TooLong => halt(T::pass(machine, store, sink)),
        Fetch::End => Some(Ok(Status::Done)),
        Fetch::Fault => Some(Ok(Status::ReadFault)),
        Fetch::Limit => Some(Ok(Status::ScriptLimit)),
    }
}

/// Reads a source to its end, line by line. Each turn of the loop fetches one line and does what is to be done with it, and takes bytes of
/// the source only if no whole line is left. `Done` at the end of the source, `ReadFault` if the source fails, and `ScriptLimit` if it gives
/// more bytes than the limit. An error that a line gives.
pub fn read_lines<T: Turn<M, P, K, E>, M, P, K, E, S: Source>(
    lines: &mut Lines,
    machine: &mut M,
    store: &mut P,
    source: &mut S,
    sink: &mut K,
) -> Result<Status, E>
    requires fresh { lines.old ≡ fresh lines.old.limit }
    requires limit { lines.old.limit ≤ T.most }
    requires holds { T.Holds machine.old store.old }
    requires few { T.count machine.old store.old ≤ 1 }
    ensures reads { ReadsAs T.turns result lines.old.limit (S.remaining source.old) (S.remaining source.new)
        (T.state machine.old store.old sink.old) (T.state machine.new store.new sink.new) }
    ensures few { result ≡ Ok Status.Done → T.count machine.new store.new ≤ lines.old.limit + 1 }
    ensures cause { result ≡ Ok Status.ReadFault → HasFailed (S.faults source.old) (S.faults source.new) }
{
    loop {
        let next = read_next::<T, M, P, K, E, S>(lines, machine, store, source, sink);
        if let Some(end) = next {
            return end;
        }
    }
}
