//! Comparing reply lines with what the checker's machine may answer.

ghost use Rattle.std.specs.Prelude.{◌≡◌, ◌≢◌, ◌<◌, ◌≤◌, ◌++◌, ◌∷◌, [], ℕ, List, Option, true, false, codes, length, if◌then◌else◌, IsTrue, MatchResult};
ghost use Rattle.std.specs.List.{AllByRecursion};
ghost use Rattle.vm_base.specs.declared.limits.TheConstants.{KOIDS, TEXT_ROOM, DATA_BYTES};
ghost use Rattle.vm_model.specs.declared.command.Command.TheVariants as Command;
ghost use Rattle.vm_model.specs.declared.reply.Reply.TheVariants as Reply;
ghost use Rattle.vm_model.specs.Language.Reading.{reading, Order, Blank};
ghost use Rattle.vm_model.specs.Language.Text.{reply_lines};
ghost use Rattle.vm_model.specs.Machine.Given.{GivesName};
ghost use Rattle.vm_model.specs.Machine.Machine.{IsGoodMachine};
ghost use Rattle.moving_model.specs.Moving.{TellsNoFrames};
ghost use Rattle.moving_model.specs.Transcript.{Told};
ghost use Rattle.checker_machine.specs.Machine.{checker_machine_of};
ghost use Rattle.transcript.specs.Seen.{number_seen, Frees, HasFrames, IsCleared};
ghost use Rattle.transcript.specs.Hearing.{OwnStands, IsHeard, Hears, AreHeard, IsSame};

use crate::lines::{address_in, is_line};
use crate::numbers::Numbers;
use crate::rooms::Rooms;
use arrayvec::ArrayVec;
use checker_machine::CheckerMachine;
use reply_text::{answer_line_count, read_pins};
use script_text::read_call;
use vm_base::{HostMemory, PIN_PAGES, PinName, Tag};
use vm_model::{Answer, Call, Runs};

/// The checker's machine, and the numbers that were seen of the frames of its pinned pages.
#[derive(Drop)]
pub(crate) struct Own {
    pub(crate) machine: CheckerMachine,
    pub(crate) numbers: Numbers,
}

/// The relation of a reply line to the line of the script that waits for it.
#[derive(Drop)]
pub(crate) enum Heard {
    /// Its whole reply.
    Ends,
    /// The first line of these runs. There is one at least.
    Begins(Runs),
    /// A line that never comes.
    Never,
}

/// Returns the frames of the pages of a pin, in ascending order of the pages.
fn frames_of(machine: &CheckerMachine, pin: PinName) -> ArrayVec<u32, PIN_PAGES>
    ensures { IsGoodMachine (checker_machine_of machine.now) → HasFrames (checker_machine_of machine.now) pin.0 result.items }
{
    let mut frames: ArrayVec<u32, PIN_PAGES> = ArrayVec::new();
    for at in 0..PIN_PAGES as u64 {
        let Some(frame) = machine.pinned_frame(pin, at) else {
            return frames;
        };
        frames.push(frame.0);
    }
    frames
}

/// Forgets the numbers of those of these frames that no pinned page has.
fn forget(machine: &CheckerMachine, numbers: &mut Numbers, freed: &[u32])
    ensures cleared { IsCleared (checker_machine_of machine.now) (number_seen numbers.old) (number_seen numbers.new) freed.now }
    ensures len { length numbers.new ≡ length numbers.old }
{
    let Some((frame, freed)) = freed.split_first() else {
        return;
    };
    forget_one(machine, numbers, *frame);
    forget(machine, numbers, freed)
}

/// Forgets the number of a frame if no pinned page has it.
fn forget_one(machine: &CheckerMachine, numbers: &mut Numbers, frame: u32)
    ensures cleared { IsCleared (checker_machine_of machine.now) (number_seen numbers.old) (number_seen numbers.new) (frame ∷ []) }
    ensures len { length numbers.new ≡ length numbers.old }
{
    if !machine.is_pinned_frame(Tag(frame)) {
        numbers.forget(frame as u64);
    }
}

/// Compares a line with an answer that tells no frames.
fn hear_answer(answer: Answer<'_>, line: &[u8], room: &mut [u8]) -> Heard
    requires { TEXT_ROOM ≤ length room.old }
    ensures { Hears answer.entry (line.now ++ codes "\n") result }
{
    if !is_line(&answer, 0, line, room) {
        return Heard::Never;
    }
    if answer_line_count(&answer) == 1 {
        return Heard::Ends;
    }
    match answer {
        Answer::Runs(runs) => Heard::Begins(runs),
        _ => Heard::Ends,
    }
}

/// Reports whether a line has numbers that these frames of a pin may have. If so, they are seen. The function is not
/// inlined, since the numbers of a line have 2 KB, and few lines have any.
#[inline(never)]
fn hear_frames(numbers: &mut Numbers, frames: &[u64], line: &[u8]) -> bool
    requires { AllByRecursion (λ frame. frame < length numbers.old) frames.now }
    ensures heard { AreHeard (length numbers.old) (number_seen numbers.old) (number_seen numbers.new) frames.now (line.now ++ codes "\n") result }
    ensures len { length numbers.new ≡ length numbers.old }
{
    match read_pins(line) {
        Some(told) => see_told(numbers, frames, told.as_slice()),
        None => false,
    }
}

/// Does the same with the numbers that a line has.
fn see_told(numbers: &mut Numbers, frames: &[u64], told: &[u64]) -> bool
    requires { AllByRecursion (λ frame. frame < length numbers.old) frames.now }
    ensures heard { (line : List ℕ) → reply_lines (Reply.Pins told.now) ≡ line ∷ []
        → AreHeard (length numbers.old) (number_seen numbers.old) (number_seen numbers.new) frames.now line result }
    ensures len { length numbers.new ≡ length numbers.old }
{
    numbers.see_all(frames, told)
}

/// Compares a reply line with a call, if it isn't `HOST_MEMORY`. `HostMemory`, with nothing changed, if the host has too
/// little memory.
fn hear_call(
    own: &mut Own,
    call: &Call<'_>,
    line: &[u8],
    rooms: &mut Rooms,
) -> Result<Heard, HostMemory>
    requires stands { (frames : ℕ) × (before : List Told) × OwnStands frames own.old before × ((checker_machine_of own.old.machine).state.content.next < KOIDS) }
    requires gives { GivesName call.now }
    requires other { line.now ≢ codes "HOST_MEMORY" }
    ensures heard { (frames : ℕ) (before : List Told) (pending : List ℕ) → OwnStands frames own.old before → reading pending ≡ Order call.now
        → MatchResult result (λ heard. IsHeard frames own.old own.new pending before (line.now ++ codes "\n") heard) (λ lack. IsSame own.old own.new) }
{
    match call {
        Call::VmoUnpin { pin } => hear_unpin(own, call, *pin, line, rooms),
        _ => hear_reply(own, call, &[], line, rooms),
    }
}

/// Does the same for a call that takes a pin away. The function is not inlined, since the frames of the pin have 1 KB, and
/// no other call needs them.
#[inline(never)]
fn hear_unpin(
    own: &mut Own,
    call: &Call<'_>,
    pin: PinName,
    line: &[u8],
    rooms: &mut Rooms,
) -> Result<Heard, HostMemory>
    requires stands { (frames : ℕ) × (before : List Told) × OwnStands frames own.old before × ((checker_machine_of own.old.machine).state.content.next < KOIDS) }
    requires unpins { call.now ≡ Command.VmoUnpin pin }
    requires gives { GivesName call.now }
    requires other { line.now ≢ codes "HOST_MEMORY" }
    ensures heard { (frames : ℕ) (before : List Told) (pending : List ℕ) → OwnStands frames own.old before → reading pending ≡ Order call.now
        → MatchResult result (λ heard. IsHeard frames own.old own.new pending before (line.now ++ codes "\n") heard) (λ lack. IsSame own.old own.new) }
{
    let freed = frames_of(&own.machine, pin);
    hear_reply(own, call, freed.as_slice(), line, rooms)
}

/// Does the same for a call that takes no pin away but one of whose pages these are the frames.
fn hear_reply(
    own: &mut Own,
    call: &Call<'_>,
    freed: &[u32],
    line: &[u8],
    rooms: &mut Rooms,
) -> Result<Heard, HostMemory>
    requires stands { (frames : ℕ) × (before : List Told) × OwnStands frames own.old before × ((checker_machine_of own.old.machine).state.content.next < KOIDS) }
    requires gives { GivesName call.now }
    requires freed { IsGoodMachine (checker_machine_of own.old.machine) → Frees (checker_machine_of own.old.machine) call.now freed.now }
    requires other { line.now ≢ codes "HOST_MEMORY" }
    ensures heard { (frames : ℕ) (before : List Told) (pending : List ℕ) → OwnStands frames own.old before → reading pending ≡ Order call.now
        → MatchResult result (λ heard. IsHeard frames own.old own.new pending before (line.now ++ codes "\n") heard) (λ lack. IsSame own.old own.new) }
{
    let told = address_in(line);
    let Some(answer) = own
        .machine
        .answer(call, told, &mut rooms.read, &mut rooms.pinned)?
    else {
        return Ok(Heard::Never);
    };
    match answer {
        Answer::Pins(frames) => Ok(ends_if(hear_frames(&mut own.numbers, frames.as_slice(), line))),
        other => {
            forget(&own.machine, &mut own.numbers, freed);
            Ok(hear_answer(other, line, &mut rooms.reply))
        }
    }
}

/// Returns the end of a reply, or a line that never comes.
fn ends_if(is: bool) -> Heard
    ensures { result ≡ (if is then Heard.Ends else Heard.Never) }
{
    if is { Heard::Ends } else { Heard::Never }
}

/// Compares a reply line with a call.
fn hear_order(
    own: &mut Own,
    call: &Call<'_>,
    line: &[u8],
    rooms: &mut Rooms,
) -> Result<Heard, HostMemory>
    requires gives { GivesName call.now }
    requires stands { (frames : ℕ) × (before : List Told) × OwnStands frames own.old before × ((checker_machine_of own.old.machine).state.content.next < KOIDS) }
    ensures { (frames : ℕ) (before : List Told) (pending : List ℕ) → OwnStands frames own.old before → reading pending ≡ Order call.now
        → MatchResult result (λ heard. IsHeard frames own.old own.new pending before (line.now ++ codes "\n") heard) (λ lack. IsSame own.old own.new) }
{
    if line == b"HOST_MEMORY".as_slice() {
        return Ok(ends_if(own.machine.may_want_memory(call)));
    }
    hear_call(own, call, line, rooms)
}

/// Compares a reply line with a line of the script that is not blank. `HostMemory`, with nothing changed, if the host has too
/// little memory.
pub(crate) fn hear(
    own: &mut Own,
    pending: &[u8],
    line: &[u8],
    written: &mut [u8],
    rooms: &mut Rooms,
) -> Result<Heard, HostMemory>
    requires stands { (frames : ℕ) × (before : List Told) × OwnStands frames own.old before × ((checker_machine_of own.old.machine).state.content.next < KOIDS) }
    requires asks { reading pending.now ≢ Blank }
    requires room { DATA_BYTES ≤ length written.old }
    ensures heard { (frames : ℕ) (before : List Told) → OwnStands frames own.old before
        → MatchResult result (λ heard. IsHeard frames own.old own.new pending.now before (line.now ++ codes "\n") heard) (λ lack. IsSame own.old own.new) }
{
    match read_call(pending, written) {
        Ok(Some(call)) => hear_order(own, &call, line, rooms),
        Ok(None) => Ok(Heard::Never),
        Err(_) => Ok(ends_if(line == b"SYNTAX".as_slice())),
    }
}
