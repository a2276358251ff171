//! A transcript in whose replies each digit is changed to each other digit, one at a time.

use super::reading::words_of;
use super::runs::{Way, compare, run_both};
use super::text_fault::Fault;
use std::alloc::Global;
use std::test::Fail;

/// Forty lines of a script with their replies, on 16 page frames.
const TRANSCRIPT: &str = "\
> vmo_create v1 16384
< OK
> vmo_write v1 4094 010203
< OK
> vmo_read v1 4093 5
< OK 0001020300
> vmo_create_child v2 v1 snapshot 0 12288 resizable
< OK
> vmo_info v1
< OK koid=1 size=16384 held=2 private=0 shared=2 charged=2 children=1
> vmo_info v2
< OK koid=2 size=12288 held=2 private=0 shared=2 charged=0 children=0
> vmo_write v2 4096 44
< OK
> vmo_info v2
< OK koid=2 size=12288 held=2 private=1 shared=1 charged=1 children=0
> vmo_read v1 4096 2
< OK 0300
> vmo_read v2 4096 2
< OK 4400
> stat
< OK frames=16 used=3 free=13 vmos=2
> vmo_create_child v3 v1 slice 4096 8192
< OK
> vmo_size v3
< OK 8192
> vmo_size v2
< OK 12288
> vmo_set_size v2 20480
< OK
> vmo_size v2
< OK 20480
> vmo_pin p1 v1 0 8192
< OK 0 1
> vmo_pin p2 v1 4096 8192
< OK 1 2
> vmo_unpin p1
< OK
> vmo_info v1
< OK koid=1 size=16384 held=3 private=3 shared=0 charged=3 children=2
> root_create r1
< OK
> vmar_allocate r2 r1 0 16384 can_read can_write
< OK 0x200000
> vmar_map r2 0 v1 0 8192 rw
< OK 0x200000
> vmar_map r1 0 v2 4096 4096 r
< OK 0x204000
> vmar_map r2 16384 v3 4096 4096 rw upper_limit
< OK 0x202000
> maps r1
< OK 2
< + 0x200000 12288 rw vmo=1 offset=0 region=r2
< + 0x204000 4096 r vmo=2 offset=4096 region=r1
> mem_read r1 0x200ffe 4
< OK faults=2 01020300
> mem_write r1 0x201000 5566
< OK faults=1
> mem_read r1 0x201000 3
< OK faults=0 556600
> mem_read r1 0x204000 2
< OK faults=1 4400
> vmo_create_child v4 v1 snapshot 0 8192
< OK
> mem_write r1 0x200000 77
< OK faults=1
> vmo_read v4 0 1
< OK 00
> vmo_zero v4 0 4096
< OK
> vmo_info v4
< OK koid=3 size=8192 held=1 private=1 shared=0 charged=1 children=0
> vmo_close v4
< OK
> vmar_unmap r2 0x200000 4096
< OK
> maps r2
< OK 1
< + 0x201000 8192 rw vmo=1 offset=4096 region=r2
> stat
< OK frames=16 used=5 free=11 vmos=2
> vmo_read v3 0 4
< OK 55660000
";

/// The changed replies that are not illegal at their own line, each with its line and what the check says of the transcript: another
/// place or other frames may be chosen, and what comes later may not fit to them.
const OTHER_CHOICES: &str = "\
34 < OK 2 1: ILLEGAL 36
34 < OK 3 1: LEGAL 40
34 < OK 4 1: LEGAL 40
34 < OK 5 1: LEGAL 40
34 < OK 6 1: LEGAL 40
34 < OK 7 1: LEGAL 40
34 < OK 8 1: LEGAL 40
34 < OK 9 1: LEGAL 40
34 < OK 0 2: ILLEGAL 36
34 < OK 0 3: ILLEGAL 36
34 < OK 0 4: ILLEGAL 36
34 < OK 0 5: ILLEGAL 36
34 < OK 0 6: ILLEGAL 36
34 < OK 0 7: ILLEGAL 36
34 < OK 0 8: ILLEGAL 36
34 < OK 0 9: ILLEGAL 36
36 < OK 1 3: LEGAL 40
36 < OK 1 4: LEGAL 40
36 < OK 1 5: LEGAL 40
36 < OK 1 6: LEGAL 40
36 < OK 1 7: LEGAL 40
36 < OK 1 8: LEGAL 40
36 < OK 1 9: LEGAL 40
44 < OK 0x300000: ILLEGAL 46
44 < OK 0x400000: ILLEGAL 46
44 < OK 0x500000: ILLEGAL 46
44 < OK 0x600000: ILLEGAL 46
44 < OK 0x700000: ILLEGAL 46
44 < OK 0x800000: ILLEGAL 46
44 < OK 0x900000: ILLEGAL 46
44 < OK 0x210000: ILLEGAL 46
44 < OK 0x220000: ILLEGAL 46
44 < OK 0x230000: ILLEGAL 46
44 < OK 0x240000: ILLEGAL 46
44 < OK 0x250000: ILLEGAL 46
44 < OK 0x260000: ILLEGAL 46
44 < OK 0x270000: ILLEGAL 46
44 < OK 0x280000: ILLEGAL 46
44 < OK 0x290000: ILLEGAL 46
44 < OK 0x201000: ILLEGAL 46
44 < OK 0x202000: ILLEGAL 46
44 < OK 0x203000: ILLEGAL 46
44 < OK 0x204000: ILLEGAL 46
44 < OK 0x205000: ILLEGAL 46
44 < OK 0x206000: ILLEGAL 46
44 < OK 0x207000: ILLEGAL 46
44 < OK 0x208000: ILLEGAL 46
44 < OK 0x209000: ILLEGAL 46
46 < OK 0x201000: ILLEGAL 50
46 < OK 0x202000: ILLEGAL 50
48 < OK 0x304000: ILLEGAL 54
48 < OK 0x404000: ILLEGAL 54
48 < OK 0x504000: ILLEGAL 54
48 < OK 0x604000: ILLEGAL 54
48 < OK 0x704000: ILLEGAL 54
48 < OK 0x804000: ILLEGAL 54
48 < OK 0x904000: ILLEGAL 54
48 < OK 0x214000: ILLEGAL 54
48 < OK 0x224000: ILLEGAL 54
48 < OK 0x234000: ILLEGAL 54
48 < OK 0x244000: ILLEGAL 54
48 < OK 0x254000: ILLEGAL 54
48 < OK 0x264000: ILLEGAL 54
48 < OK 0x274000: ILLEGAL 54
48 < OK 0x284000: ILLEGAL 54
48 < OK 0x294000: ILLEGAL 54
48 < OK 0x205000: ILLEGAL 54
48 < OK 0x206000: ILLEGAL 54
48 < OK 0x207000: ILLEGAL 54
48 < OK 0x208000: ILLEGAL 54
48 < OK 0x209000: ILLEGAL 54
50 < OK 0x203000: ILLEGAL 52
";

/// A line of the transcript: how many characters stand before it, its number from 1, and its text.
#[derive(Clone, Copy)]
struct Line<'a> {
    start: usize,
    number: usize,
    text: &'a str,
}

/// Returns a text with another character at a place.
fn changed(alloc: Global, text: &str, place: usize, digit: char) -> Result<String, Fault> {
    let mut changed = String::new(alloc);
    for (at, it) in text.chars().enumerate() {
        changed.push(if at == place { digit } else { it })?;
    }
    Ok(changed)
}

/// Returns what the check says of a transcript.
fn said(alloc: Global, words: &[String], transcript: &str) -> Result<String, Fault> {
    let (end, _) = run_both(alloc, Way::Sure(words), transcript.as_bytes())?;
    Ok(end.written)
}

/// Returns whether the check says that the line of this number is illegal.
fn is_illegal_at(said: &str, number: usize) -> bool {
    match said.strip_prefix("ILLEGAL ") {
        Some(told) => told.trim_end().parse::<usize>() == Ok(number),
        None => false,
    }
}

/// Checks the transcript with one digit changed. Adds the changed line and what is said if that is not that this line is illegal.
fn add_change(
    alloc: Global,
    words: &[String],
    line: Line<'_>,
    place: usize,
    digit: char,
    told: &mut String,
) -> Result<(), Fault> {
    let transcript = changed(alloc, TRANSCRIPT, line.start.saturating_add(place), digit)?;
    let said = said(alloc, words, transcript.as_str())?;
    drop(transcript);
    if is_illegal_at(said.as_str(), line.number) {
        Ok(())
    } else {
        add_choice(alloc, line, place, digit, said.as_str(), told)
    }
}

/// Adds a changed line and what is said of it.
fn add_choice(
    alloc: Global,
    line: Line<'_>,
    place: usize,
    digit: char,
    said: &str,
    told: &mut String,
) -> Result<(), Fault> {
    let number = line.number;
    let text = changed(alloc, line.text, place, digit)?;
    let choice = format!(in alloc; "{number} {text}: {said}")?;
    Ok(told.push_str(choice.as_str())?)
}

/// Checks the transcript with each change of a digit of a line. Answers how many there are.
fn add_changes(
    alloc: Global,
    words: &[String],
    line: Line<'_>,
    told: &mut String,
) -> Result<u64, Fault> {
    let mut count: u64 = 0;
    for (place, it) in line.text.chars().enumerate() {
        if it.is_ascii_digit() {
            for digit in "0123456789".chars() {
                if digit != it {
                    add_change(alloc, words, line, place, digit, told)?;
                    count = count.saturating_add(1);
                }
            }
        }
    }
    Ok(count)
}

/// Checks the transcript with each change of a digit of its replies. Adds those that are not illegal at their line, and answers how
/// many changes there are.
fn add_all(alloc: Global, words: &[String], told: &mut String) -> Result<u64, Fault> {
    let mut start: usize = 0;
    let mut count: u64 = 0;
    for (at, text) in TRANSCRIPT.lines().enumerate() {
        let number = at.saturating_add(1);
        let line = Line {
            start,
            number,
            text,
        };
        if text.starts_with("< ") {
            count = count.saturating_add(add_changes(alloc, words, line, told)?);
        }
        start = start.saturating_add(text.len()).saturating_add(1);
    }
    Ok(count)
}

/// Each changed digit is illegal at its line, but for those that are told.
#[test]
fn each_changed_digit_is_judged(rt: HostRuntime) -> Result<(), Fail> {
    let mut told = String::new(rt.alloc());
    let words = words_of(rt.alloc(), "check --frames 16")?;
    let count = add_all(rt.alloc(), words.as_slice(), &mut told)?;
    drop(words);
    compare(rt.alloc(), OTHER_CHOICES, told.as_str())?;
    assert_eq!(rt; count, 1926);
    Ok(())
}
