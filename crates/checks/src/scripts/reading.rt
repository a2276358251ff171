//! How a text is read.

use super::text_fault::Fault;
use std::alloc::Global;

/// Returns the words of a command line, parted by single blanks.
pub(crate) fn words_of(alloc: Global, line: &str) -> Result<Vec<String>, Fault> {
    let mut words = Vec::new(alloc);
    for word in line.split(' ') {
        words.push(String::from_str(alloc, word)?)?;
    }
    Ok(words)
}

/// A script of a text.
#[derive(Drop)]
pub(crate) struct Script {
    pub(crate) words: Vec<String>,
    pub(crate) lines: String,
    pub(crate) replies: String,
    /// The counts of the clone tree. It is empty if the text does not tell them.
    pub(crate) counts: String,
}

/// Adds a line to some lines.
fn add_line(lines: &mut String, line: &str) -> Result<(), Fault> {
    lines.push_str(line)?;
    lines.push('\n')?;
    Ok(())
}

/// Adds a line to some lines, with its last character again and again up to so many bytes.
fn add_long_line(lines: &mut String, line: &str, len: usize) -> Result<(), Fault> {
    let Some(last) = line.chars().last() else {
        return Err(Fault::NoForm);
    };
    lines.push_str(line)?;
    for _ in line.len()..len {
        lines.push(last)?;
    }
    lines.push('\n')?;
    Ok(())
}

/// Adds a line to the lines of a script. `asked` is what stands behind the `>`.
fn add_asked(lines: &mut String, asked: &str) -> Result<(), Fault> {
    match asked.split_once(' ') {
        Some(("", line)) => add_line(lines, line),
        Some((len, line)) => match len.parse::<usize>() {
            Ok(len) => add_long_line(lines, line, len),
            Err(_) => Err(Fault::NoForm),
        },
        None if asked.is_empty() => add_line(lines, ""),
        None => Err(Fault::NoForm),
    }
}

/// Returns whether a line of a text can be one of the machine's replies.
fn is_reply(line: &str) -> bool {
    matches!(line.as_bytes(), [b'A'..=b'Z' | b'+', ..])
}

/// Adds a line of a text to its script.
fn add_to(script: &mut Script, line: &str) -> Result<(), Fault> {
    if let Some(asked) = line.strip_prefix('>') {
        add_asked(&mut script.lines, asked)
    } else if let Some(counts) = line.strip_prefix("tree ") {
        Ok(script.counts.push_str(counts)?)
    } else if let Some((asked, reply)) = line.split_once(" => ") {
        add_line(&mut script.lines, asked)?;
        add_line(&mut script.replies, reply)
    } else if is_reply(line) {
        add_line(&mut script.replies, line)
    } else if line.is_empty() || line.starts_with('#') {
        Ok(())
    } else {
        Err(Fault::NoForm)
    }
}

/// Reads one script of a text, without the `== ` before its words.
pub(crate) fn read_script(alloc: Global, text: &str) -> Result<Script, Fault> {
    let Some((words, lines)) = text.split_once('\n') else {
        return Err(Fault::NoForm);
    };
    let mut script = Script {
        words: words_of(alloc, words)?,
        lines: String::new(alloc),
        replies: String::new(alloc),
        counts: String::new(alloc),
    };
    for line in lines.split('\n') {
        add_to(&mut script, line)?;
    }
    Ok(script)
}

/// Reads the one script of a text.
pub(crate) fn read_text(alloc: Global, text: &str) -> Result<Script, Fault> {
    match text.strip_prefix("== ") {
        Some(script) => read_script(alloc, script),
        None => Err(Fault::NoScript),
    }
}
