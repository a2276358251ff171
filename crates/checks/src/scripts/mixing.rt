//! Lines that are made by forms. A text has a form in each line, and which of them comes next is drawn at random. A word of a
//! form may leave a number open, and stands for a line feed if it is `;`. Of the line with number L, from 0:
//!
//!     A?N     A, and behind it a number below N, drawn at random
//!     A@N     the number A, and as many whole pages more as a number below N says
//!     A!N     A, and behind it L / N
//!     A+N     A, and behind it L + N
//!     A-N     A, and behind it N - L, or 0

use super::text_fault::Fault;
use std::alloc::Global;

/// Returns the next number of a linear congruential generator.
fn next_number(x: u64) -> u64 {
    x.wrapping_mul(6364136223846793005)
        .wrapping_add(1442695040888963407)
}

/// Returns the number that a word tells in decimal.
fn number(word: &str) -> Result<u64, Fault> {
    word.parse::<u64>().ok().ok_or(Fault::NoForm)
}

/// Draws a number below the one that a word tells.
fn drawn(state: &mut u64, below: &str) -> Result<u64, Fault> {
    *state = next_number(*state);
    (*state >> 33)
        .checked_rem(number(below)?)
        .ok_or(Fault::NoForm)
}

/// Returns the number that a word of a form leaves open, behind what stands before it.
fn filled(alloc: Global, word: &str, line: u64, state: &mut u64) -> Result<String, Fault> {
    if let Some((front, below)) = word.split_once('?') {
        let drawn = drawn(state, below)?;
        Ok(format!(in alloc; "{front}{drawn}")?)
    } else if let Some((first, below)) = word.split_once('@') {
        let pages = drawn(state, below)?;
        let place = number(first)?.wrapping_add(pages.wrapping_mul(4096));
        Ok(format!(in alloc; "{place}")?)
    } else if let Some((front, lines)) = word.split_once('!') {
        let part = line.checked_div(number(lines)?).ok_or(Fault::NoForm)?;
        Ok(format!(in alloc; "{front}{part}")?)
    } else if let Some((front, first)) = word.split_once('+') {
        let sum = line.wrapping_add(number(first)?);
        Ok(format!(in alloc; "{front}{sum}")?)
    } else if let Some((front, last)) = word.split_once('-') {
        let rest = number(last)?.saturating_sub(line);
        Ok(format!(in alloc; "{front}{rest}")?)
    } else if word == ";" {
        Ok(String::from_str(alloc, "\n")?)
    } else {
        Ok(String::from_str(alloc, word)?)
    }
}

/// Adds the line of a form to others.
fn add_line(
    alloc: Global,
    lines: &mut String,
    form: &str,
    line: u64,
    state: &mut u64,
) -> Result<(), Fault> {
    for word in form.split(' ') {
        let filled = filled(alloc, word, line, state)?;
        lines.push_str(filled.as_str())?;
        lines.push(' ')?;
    }
    lines.pop();
    lines.push('\n')?;
    Ok(())
}

/// Returns one of the forms of a text, drawn at random.
fn drawn_form<'a>(forms: &'a str, state: &mut u64) -> Result<&'a str, Fault> {
    *state = next_number(*state);
    let count = forms.lines().count() as u64;
    let row = (*state >> 33).checked_rem(count).ok_or(Fault::NoForm)?;
    forms.lines().nth(row as usize).ok_or(Fault::NoForm)
}

/// Returns so many lines, each of one of the forms of a text.
pub(crate) fn lines_of(alloc: Global, forms: &str, count: u64) -> Result<String, Fault> {
    let mut lines = String::new(alloc);
    let mut state = 1;
    for line in 0..count {
        let form = drawn_form(forms, &mut state)?;
        add_line(alloc, &mut lines, form, line, &mut state)?;
    }
    Ok(lines)
}
