//! What is reported of a transcript.

ghost use Rattle.std.specs.Prelude.{◌≡◌, ◌+◌, ◌<◌, ◌≤◌, ◌^◌, ◌++◌, ◌∷◌, [], ℕ, List, codes, decimal, length, take, MatchResult};
ghost use Rattle.vm_base.specs.declared.limits.TheConstants.{FRAMES, LINE_BYTES};
ghost use Rattle.moving_model.specs.Transcript.{told};
ghost use Rattle.transcript.specs.Reports.{IsChecked, IsReport, is_asked, report_text};

use crate::checker::Checker;
use crate::lines::script_in;
use crate::verdict::Verdict;
use std::alloc::Global;
use vm_base::HostMemory;
use word_text::{put, put_number};

/// The room that a report is written to, in bytes.
pub(crate) const REPORT_BYTES: usize = 64;

/// The report on a transcript.
#[derive(Clone, Copy)]
pub(crate) enum Report {
    /// It is legal, and has so many lines of a script.
    Legal(u64),
    /// This line, from 1, is the first that never comes. It is the line behind the last if a reply line is missing there.
    Illegal(u64),
    /// This line, from 1, is the first that has not the form of one.
    Malformed(u64),
}

/// A transcript that is being checked: the report of its first bad line, if there was one, and how many lines and lines of
/// the script there were.
#[derive(Drop)]
pub(crate) struct Check {
    checker: Checker,
    bad: Option<Report>,
    lines: u64,
    asked: u64,
}

impl Check {
    /// Makes a check of no lines yet.
    pub(crate) fn new(alloc: Global, frames: u32) -> Check
        requires { 1 ≤ frames × frames ≤ FRAMES }
        ensures checked { IsChecked frames result [] }
        ensures lines { result.lines ≡ 0 }
    {
        Check {
            checker: Checker::new(alloc, frames),
            bad: None,
            lines: 0,
            asked: 0,
        }
    }

    /// Reads one line more. `HostMemory` if the host has too little memory.
    pub(crate) fn read(&mut self, line: &[u8]) -> Result<(), HostMemory>
        requires short { length line.now ≤ LINE_BYTES }
        requires checked { (frames : ℕ) × (lines : List (List ℕ)) × IsChecked frames self.old lines × (length lines < 2 ^ 63) }
        ensures checked { (frames : ℕ) (lines : List (List ℕ)) → IsChecked frames self.old lines
            → MatchResult result (λ _. IsChecked frames self.new (lines ++ line.now ∷ [])) (λ lack. Unit {0}) }
        ensures lines { MatchResult result (λ _. self.new.lines ≡ self.old.lines + 1) (λ lack. Unit {0}) }
    {
        match self.bad {
            Some(_) => {
                self.lines += 1;
                Ok(())
            }
            None => self.feed(line),
        }
    }

    /// Feeds the checker with a line.
    fn feed(&mut self, line: &[u8]) -> Result<(), HostMemory>
        requires none { self.old.bad ≡ None }
        requires short { length line.now ≤ LINE_BYTES }
        requires checked { (frames : ℕ) × (lines : List (List ℕ)) × IsChecked frames self.old lines × (length lines < 2 ^ 63) }
        ensures checked { (frames : ℕ) (lines : List (List ℕ)) → IsChecked frames self.old lines
            → MatchResult result (λ _. IsChecked frames self.new (lines ++ line.now ∷ [])) (λ lack. Unit {0}) }
        ensures lines { MatchResult result (λ _. self.new.lines ≡ self.old.lines + 1) (λ lack. Unit {0}) }
    {
        match self.checker.feed(line)? {
            Verdict::Fine => {
                self.lines += 1;
                self.asked += asks(line);
            }
            Verdict::Illegal => {
                self.lines += 1;
                self.bad = Some(Report::Illegal(self.lines));
            }
            Verdict::Malformed => {
                self.lines += 1;
                self.bad = Some(Report::Malformed(self.lines));
            }
        }
        Ok(())
    }

    /// Reads one line more that is too long for one of a transcript.
    pub(crate) fn pass(&mut self)
        requires { self.old.lines < 2 ^ 63 }
        ensures checked { (frames : ℕ) (lines : List (List ℕ)) (line : List ℕ) → IsChecked frames self.old lines → LINE_BYTES < length line
            → IsChecked frames self.new (lines ++ line ∷ []) }
        ensures lines { self.new.lines ≡ self.old.lines + 1 }
    {
        match self.bad {
            Some(_) => self.lines += 1,
            None => {
                self.lines += 1;
                self.bad = Some(Report::Malformed(self.lines));
            }
        }
    }

    /// Returns the report of the lines that were read.
    pub(crate) fn report(&self) -> Report
        requires { self.now.lines < 2 ^ 63 }
        ensures { (frames : ℕ) (lines : List (List ℕ)) → IsChecked frames self.now lines → IsReport frames lines result }
    {
        if let Some(report) = self.bad {
            return report;
        }
        if self.checker.complete() {
            Report::Legal(self.asked)
        } else {
            Report::Illegal(self.lines + 1)
        }
    }
}

/// Returns how many lines of the script a line is: 1 or 0.
fn asks(line: &[u8]) -> u64
    requires { length line.now ≤ LINE_BYTES }
    ensures count { result ≡ is_asked (told line.now) }
    ensures few { result ≤ 1 }
{
    match script_in(line) {
        Some(_) => 1,
        None => 0,
    }
}

/// Writes a report to the front of `out`, and answers its length in bytes.
pub(crate) fn write_report(report: Report, out: &mut [u8]) -> usize
    requires { REPORT_BYTES ≤ length out.old }
    ensures text { take result out.new ≡ report_text report }
    ensures len { result ≤ length out.new }
{
    match report {
        Report::Legal(count) => write_line(b"LEGAL", count, out),
        Report::Illegal(line) => write_line(b"ILLEGAL", line, out),
        Report::Malformed(line) => write_line(b"MALFORMED", line, out),
    }
}

/// Writes a word of at most 20 bytes and a number, with a space between them and a line feed behind.
fn write_line(word: &[u8], number: u64, out: &mut [u8]) -> usize
    requires word { length word.now ≤ 20 }
    requires room { REPORT_BYTES ≤ length out.old }
    ensures text { take result out.new ≡ word.now ++ codes " " ++ decimal number ++ codes "\n" }
    ensures len { result ≤ length out.new }
{
    let at = put(word, out, 0);
    let at = put_number(number, out, at);
    put(b"\n", out, at)
}
