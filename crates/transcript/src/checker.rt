//! A checker of transcripts, which reads one line after another.

ghost use Rattle.std.specs.Prelude.{◌≡◌, ◌↔◌, ◌^◌, ◌<◌, ◌≤◌, ◌++◌, ◌∷◌, [], ℕ, List, true, codes, length, IsTrue, MatchResult};
ghost use Rattle.vm_base.specs.declared.limits.TheConstants.{FRAMES, LINE_BYTES};
ghost use Rattle.checker_machine.specs.Machine.{checker_machine_of};
ghost use Rattle.moving_model.specs.Transcript.{Told, Asked, Answered, AreWhole};
ghost use Rattle.transcript.specs.Checking.{IsDue};
ghost use Rattle.transcript.specs.Seen.{number_seen};
ghost use Rattle.transcript.specs.Hearing.{IsHeard};
ghost use Rattle.transcript.specs.declared.answering.Own.{Own};
ghost use Rattle.transcript.specs.Verdicts.{IsAt, HasRead, IsJudged, IsVerdict};

use crate::answering::{Heard, Own, hear};
use crate::lines::{is_blank, is_line, reply_in, script_in};
use crate::numbers::Numbers;
use crate::rooms::Rooms;
use crate::verdict::Verdict;
use arrayvec::ArrayVec;
use checker_machine::CheckerMachine;
use reply_text::answer_line_count;
use std::alloc::Global;
use vm_base::{DATA_BYTES, HostMemory, LINE_BYTES};
use vm_model::Answer;

/// The line that a checker waits for.
#[derive(Clone, Copy)]
pub(crate) enum Phase {
    /// A line of the script.
    Idle,
    /// The reply to a line of the script.
    Due,
    /// The next line of a reply of which a part was given.
    Listing,
}

/// A checker of transcripts. It keeps a machine of its own, whose frames have numbers of its own, and the numbers that were
/// given of the frames of pinned pages.
///
/// Its memory grows with what this machine holds at one time: names, mappings, pages that are ready for an access, and a row for
/// each held page of each VMO. It grows with each region that is made, since one that is destroyed keeps its name. Nothing else
/// stays of a line. A snapshot copies the rows of its range at once: some 0.2 s and 9 MB for one of 256 MiB that is held.
#[derive(Drop)]
pub struct Checker {
    alloc: Global,
    frames: u32,
    filled: bool,
    own: Own,
    phase: Phase,
    /// The line of the script that waits for its reply.
    pending: ArrayVec<u8, LINE_BYTES>,
    /// The answer of which `count` lines were given.
    listed: Answer<'static>,
    count: u64,
    written: [u8; DATA_BYTES],
    rooms: Rooms,
}

impl Checker {
    /// Makes a checker of transcripts on a machine with `frames` page frames, from 1 to 65,536, that has read no line. It
    /// takes its memory at the first line.
    pub fn new(alloc: Global, frames: u32) -> Checker
        requires { 1 ≤ frames × frames ≤ FRAMES }
        ensures { HasRead frames result [] }
    {
        Checker {
            alloc,
            frames,
            filled: false,
            own: Own {
                machine: CheckerMachine::new(alloc),
                numbers: Numbers::none(alloc),
            },
            phase: Phase::Idle,
            pending: ArrayVec::new(),
            listed: Answer::Done,
            count: 0,
            written: [0; DATA_BYTES],
            rooms: Rooms::new(),
        }
    }

    /// Reads the next line of a transcript, without its line feed. `Fine` exactly if a transcript may begin with the lines so far
    /// and this one, `Malformed` exactly if the line begins neither with `> ` nor with `< `, and `Illegal` else. Only behind lines
    /// that were fine may it be called again. `HostMemory` if the host has too little memory; the line was not read then, and may be
    /// read again.
    pub fn feed(&mut self, line: &[u8]) -> Result<Verdict, HostMemory>
        requires read { (frames : ℕ) × (lines : List (List ℕ)) × HasRead frames self.old lines × (length lines < 2 ^ 63) }
        requires short { length line.now ≤ LINE_BYTES }
        ensures verdict { (frames : ℕ) (lines : List (List ℕ)) → HasRead frames self.old lines → MatchResult result
            (λ verdict. IsVerdict frames lines line.now verdict × (verdict ≡ Verdict.Fine → HasRead frames self.new (lines ++ line.now ∷ [])))
            (λ lack. HasRead frames self.new lines) }
    {
        self.begin()?;
        if let Some(script) = script_in(line) {
            return Ok(self.ask(script));
        }
        match reply_in(line) {
            Some(reply) => self.hear(reply),
            None => Ok(Verdict::Malformed),
        }
    }

    /// Reports whether the lines that were read are a whole transcript: each line of the script has its reply.
    pub fn complete(&self) -> bool
        ensures { (frames : ℕ) (lines : List (List ℕ)) → HasRead frames self.now lines → (IsTrue result ↔ AreWhole frames lines) }
    {
        match self.phase {
            Phase::Idle => true,
            Phase::Due => false,
            Phase::Listing => false,
        }
    }

    /// Takes the frames before the first line. `HostMemory`, with nothing changed, if the host has too little memory.
    fn begin(&mut self) -> Result<(), HostMemory>
        requires { (frames : ℕ) × (tells : List Told) × IsAt frames self.old tells }
        ensures { (frames : ℕ) (tells : List Told) → IsAt frames self.old tells
            → MatchResult result (λ _. IsAt frames self.new tells × (self.new.filled ≡ true)) (λ lack. IsAt frames self.new tells) }
    {
        if self.filled {
            return Ok(());
        }
        let numbers = Numbers::new(self.alloc, self.frames)?;
        self.own.machine.fill(self.frames)?;
        self.own.numbers = numbers;
        self.filled = true;
        Ok(())
    }

    /// Reads a line of the script.
    fn ask(&mut self, script: &[u8]) -> Verdict
        requires filled { self.old.filled ≡ true }
        requires short { length script.now ≤ LINE_BYTES }
        ensures { (frames : ℕ) (tells : List Told) → IsAt frames self.old tells → IsJudged frames self.new tells (Asked script.now) result }
    {
        match self.phase {
            Phase::Idle => {
                self.wait_for(script);
                Verdict::Fine
            }
            Phase::Due => Verdict::Illegal,
            Phase::Listing => Verdict::Illegal,
        }
    }

    /// Waits for the reply to a line of the script, if it is not blank.
    fn wait_for(&mut self, script: &[u8])
        requires filled { self.old.filled ≡ true }
        requires idle { self.old.phase ≡ Phase.Idle }
        requires short { length script.now ≤ LINE_BYTES }
        ensures { (frames : ℕ) (tells : List Told) → IsAt frames self.old tells → IsAt frames self.new (tells ++ Asked script.now ∷ []) }
    {
        if is_blank(script) {
            return;
        }
        copy(&mut self.pending, script);
        self.phase = Phase::Due;
    }

    /// Reads a line of a reply.
    fn hear(&mut self, reply: &[u8]) -> Result<Verdict, HostMemory>
        requires filled { self.old.filled ≡ true }
        requires at { (frames : ℕ) × (tells : List Told) × IsAt frames self.old tells × (length tells < 2 ^ 63) }
        ensures { (frames : ℕ) (tells : List Told) → IsAt frames self.old tells → MatchResult result
            (λ verdict. IsJudged frames self.new tells (Answered (reply.now ++ codes "\n")) verdict) (λ lack. IsAt frames self.new tells) }
    {
        match self.phase {
            Phase::Idle => Ok(Verdict::Illegal),
            Phase::Due => self.hear_due(reply),
            Phase::Listing => Ok(self.hear_listed(reply)),
        }
    }

    /// Reads a line of a reply of which none was given.
    fn hear_due(&mut self, reply: &[u8]) -> Result<Verdict, HostMemory>
        requires filled { self.old.filled ≡ true }
        requires due { self.old.phase ≡ Phase.Due }
        requires at { (frames : ℕ) × (tells : List Told) × IsAt frames self.old tells × (length tells < 2 ^ 63) }
        ensures { (frames : ℕ) (tells : List Told) → IsAt frames self.old tells → MatchResult result
            (λ verdict. IsJudged frames self.new tells (Answered (reply.now ++ codes "\n")) verdict) (λ lack. IsAt frames self.new tells) }
    {
        let heard = hear(
            &mut self.own,
            self.pending.as_slice(),
            reply,
            &mut self.written,
            &mut self.rooms,
        )?;
        Ok(self.settle(heard))
    }

    /// Goes on behind a first line of a reply.
    fn settle(&mut self, heard: Heard) -> Verdict
        ensures { (frames : ℕ) (tells : List Told) (line : List ℕ) (old : Own) → 1 ≤ frames → frames ≤ FRAMES → self.old.frames ≡ frames → self.old.filled ≡ true
            → (due : IsDue frames (checker_machine_of old.machine) (number_seen old.numbers) self.old.pending.items tells)
            → IsHeard frames old self.old.own self.old.pending.items due.before line heard → IsJudged frames self.new tells (Answered line) result }
    {
        match heard {
            Heard::Ends => {
                self.phase = Phase::Idle;
                Verdict::Fine
            }
            Heard::Begins(runs) => {
                self.listed = Answer::Runs(runs);
                self.count = 1;
                self.phase = Phase::Listing;
                Verdict::Fine
            }
            Heard::Never => Verdict::Illegal,
        }
    }

    /// Reads the next line of a reply of which a part was given.
    fn hear_listed(&mut self, reply: &[u8]) -> Verdict
        requires filled { self.old.filled ≡ true }
        requires listing { self.old.phase ≡ Phase.Listing }
        requires at { (frames : ℕ) × (tells : List Told) × IsAt frames self.old tells }
        ensures { (frames : ℕ) (tells : List Told) → IsAt frames self.old tells → IsJudged frames self.new tells (Answered (reply.now ++ codes "\n")) result }
    {
        let lines = answer_line_count(&self.listed);
        if !is_line(&self.listed, self.count, reply, &mut self.rooms.reply) {
            return Verdict::Illegal;
        }
        self.count += 1;
        if self.count == lines {
            self.phase = Phase::Idle;
        }
        Verdict::Fine
    }
}

/// Makes a text another one.
fn copy(to: &mut ArrayVec<u8, LINE_BYTES>, from: &[u8])
    requires { length from.now ≤ LINE_BYTES }
    ensures { to.new.items ≡ from.now }
{
    to.clear();
    to.try_extend_from_slice(from).unwrap();
}
