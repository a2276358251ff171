//! What one line of a script says.

ghost use Rattle.std.specs.Prelude.{◌≡◌, ◌≤◌, ◌∷◌, length, if◌then◌else◌};
ghost use Rattle.vm_model.specs.Language.Reading.{command, order_or_outside, reading, reading_of_words, words, Blank};
ghost use Rattle.script_text.specs.Lines.{is_silent, order_in, reading_of, reading_of_call};

use crate::command_words::call;
use crate::frequent::{
    behind_word, has_no_word, mem_read_of, mem_write_of, vmo_read_of, vmo_write_of,
};
use crate::words::{behind_blanks, next_short_word};
use arrayvec::ArrayVec;
use vm_base::{DATA_BYTES, LINE_BYTES};
use vm_model::{Call, Command};

/// The most arguments that a command has.
const MOST_ARGUMENTS: usize = 10;

/// The line is outside the grammar.
#[derive(Clone, Copy, Debug, PartialEq, Eq)]
pub struct SyntaxFault;

/// The meaning of a line.
#[derive(Drop)]
pub enum Line {
    /// Nothing: it has no word, or it is a comment, whose first word begins with `#`.
    Blank,
    /// A command.
    Order(Command),
}

/// Reads one line of a script, without its line feed. `SyntaxFault` if it has more than `LINE_BYTES` bytes, or if it is
/// neither blank nor a comment nor a command.
pub fn read_line(line: &[u8]) -> Result<Line, SyntaxFault>
    ensures { reading_of result ≡ reading line.now }
{
    let mut room = [0; DATA_BYTES];
    match read_call(line, &mut room)? {
        Some(call) => Ok(Line::Order(call.to_owned())),
        None => Ok(Line::Blank),
    }
}

/// Reads one line as `read_line` does. The answer is `None` if the line says nothing, and otherwise its command. Byte
/// data is decoded to the front of `room`, which has at least `DATA_BYTES` bytes, and the command borrows it from
/// there.
#[inline(always)]
#[tactic(auto, unfolding(vm_model::specs::Language::Reading::reading))]
pub fn read_call<'a>(line: &[u8], room: &'a mut [u8]) -> Result<Option<Call<'a>>, SyntaxFault>
    requires { DATA_BYTES ≤ length room.old }
    ensures { reading_of_call result ≡ reading line.now }
{
    if line.len() > LINE_BYTES {
        return Err(SyntaxFault);
    }
    let line = from_first_word(line);
    if is_silent(line) {
        return Ok(None);
    }
    match order(line, room) {
        Some(call) => Ok(Some(call)),
        None => Err(SyntaxFault),
    }
}

/// Returns a line from its first word on, which says the same.
fn from_first_word(line: &[u8]) -> &[u8]
    ensures { reading_of_words (words line.now)
        ≡ (if is_silent result.now then Blank else order_or_outside (order_in (words result.now))) }
{
    behind_blanks(line)
}

/// Reports whether a line that begins with no blank says nothing: it has no byte, or it is a comment.
fn is_silent(line: &[u8]) -> bool
    ensures { result ≡ is_silent line.now }
{
    matches!(line, [] | [b'#', ..])
}

/// Returns the command of a line. `None` if it has none. Most lines begin with one of four words. No `else` hands an answer on: it
/// would be copied once for each of them.
#[inline(always)]
fn order<'a>(line: &[u8], room: &'a mut [u8]) -> Option<Call<'a>>
    requires { DATA_BYTES ≤ length room.old }
    ensures { result ≡ order_in (words line.now) }
{
    if let Some(arguments) = behind_word(b"vmo_read", line) {
        return vmo_read_of(arguments);
    }
    if let Some(arguments) = behind_word(b"vmo_write", line) {
        return vmo_write_of(arguments, room);
    }
    if let Some(arguments) = behind_word(b"mem_read", line) {
        return mem_read_of(arguments);
    }
    if let Some(arguments) = behind_word(b"mem_write", line) {
        return mem_write_of(arguments, room);
    }
    order_of_words(line, room)
}

/// Does what `order` does, for any command. A line of three words at most is read word by word, with no list of them. The
/// function is not inlined: a function writes all of its locals, and a comment should not pay for those of all commands.
#[inline(never)]
fn order_of_words<'a>(line: &[u8], room: &'a mut [u8]) -> Option<Call<'a>>
    requires { DATA_BYTES ≤ length room.old }
    ensures { result ≡ order_in (words line.now) }
{
    let (word, rest) = next_short_word(line)?;
    let Some((first, rest)) = next_short_word(rest) else {
        return call(word, &[], room);
    };
    let Some((second, rest)) = next_short_word(rest) else {
        return call(word, &[first], room);
    };
    if has_no_word(rest) {
        return call(word, &[first, second], room);
    }
    order_of_more(word, first, second, rest, room)
}

/// Returns the command of a line that begins with these three words. It cuts the rest of the line into its words once. The
/// function is not inlined: a function writes all of its locals, and a short line should not pay for the list of words.
#[inline(never)]
fn order_of_more<'a>(
    word: &[u8],
    first: &[u8],
    second: &[u8],
    rest: &[u8],
    room: &'a mut [u8],
) -> Option<Call<'a>>
    requires { DATA_BYTES ≤ length room.old }
    ensures { result ≡ command word.now (first.now ∷ second.now ∷ words rest.now) }
{
    let mut arguments: ArrayVec<&[u8], MOST_ARGUMENTS> = ArrayVec::new();
    arguments.push(first);
    arguments.push(second);
    let mut left = rest;
    while let Some((argument, behind)) = next_short_word(left) {
        if arguments.is_full() {
            return None;
        }
        arguments.push(argument);
        left = behind;
    }
    call(word, arguments.as_slice(), room)
}
