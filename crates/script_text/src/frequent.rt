//! The lines of which most scripts consist: those of the four commands that read or write bytes, of a VMO or through
//! mappings. They are read word by word, with no list of their words.

ghost use Rattle.std.specs.Prelude.{◌≡◌, ◌≤◌, ◌==◌, ◌++◌, length, option_map, true, IfSome};
ghost use Rattle.vm_model.specs.Language.Reading.{words, begins_blank, mem_write, ranged, region, vmo, vmo_write};
ghost use Rattle.vm_model.specs.declared.command.Command.TheVariants.{MemRead, VmoRead};
ghost use Rattle.script_text.specs.inside.Shapes.{only_data, ends_blank, three_words};

use crate::field_groups::{range_of_region, range_of_vmo, region_and_number, vmo_and_number};
use crate::fields::byte_data_into;
use crate::words::{begins_with, behind_blanks, is_blank, next_short_word};
use vm_base::DATA_BYTES;
use vm_model::{Call, LentBytes};

/// Returns what stands behind a word, if a line begins with this word.
#[inline(always)]
#[tactic(auto, using(crate::proofs::FrequentLaws::begins_with))]
pub fn behind_word<'a>(word: &[u8], line: &'a [u8]) -> Option<&'a [u8]>
    ensures line { IfSome result (λ behind. line.now ≡ word.now ++ behind.now) }
    ensures cut { IfSome result (λ behind. begins_blank behind.now ≡ true) }
{
    if !begins_with(line, word) {
        return None;
    }
    let (_, behind) = line.split_at(word.len());
    if is_cut(behind) { Some(behind) } else { None }
}

/// Reports whether a word may end before these bytes: the first one is a blank, or there are none.
#[inline(always)]
fn is_cut(behind: &[u8]) -> bool
    ensures { result ≡ begins_blank behind.now }
{
    match behind {
        [byte, ..] => is_blank(*byte),
        [] => true,
    }
}

/// Reports whether a line has no word.
#[inline(always)]
#[tactic(auto, using(crate::proofs::FrequentLaws::no_word))]
pub(crate) fn has_no_word(line: &[u8]) -> bool
    ensures { result ≡ (length (words line.now) == 0) }
{
    behind_blanks(line).is_empty()
}

/// Returns the words of a line that has three. `None` if it has fewer or more.
#[inline(always)]
fn three_words(line: &[u8]) -> Option<(&[u8], &[u8], &[u8])>
    ensures { option_map (λ p. (p.0.now, p.1.now, p.2.now)) result ≡ three_words (words line.now) }
{
    let (first, rest) = next_short_word(line)?;
    let (second, rest) = next_short_word(rest)?;
    let (third, rest) = next_short_word(rest)?;
    if !has_no_word(rest) {
        return None;
    }
    Some((first, second, third))
}

/// Returns the command `vmo_read` of these arguments. The function is not inlined, since the machine has registers
/// enough for it alone.
#[inline(never)]
#[tactic(auto, using(crate::proofs::FrequentLaws::vmo_range_of_three))]
pub fn vmo_read_of<'a>(arguments: &[u8]) -> Option<Call<'a>>
    ensures { result ≡ ranged vmo VmoRead (words arguments.now) }
{
    let (name, offset, len) = three_words(arguments)?;
    let (name, offset, len) = range_of_vmo(name, offset, len)?;
    Some(Call::VmoRead { name, offset, len })
}

/// Returns the command `mem_read` of these arguments. The function is not inlined, as that of `vmo_read`.
#[inline(never)]
#[tactic(auto, using(crate::proofs::FrequentLaws::region_range_of_three))]
pub fn mem_read_of<'a>(arguments: &[u8]) -> Option<Call<'a>>
    ensures { result ≡ ranged region MemRead (words arguments.now) }
{
    let (region, addr, len) = three_words(arguments)?;
    let (region, addr, len) = range_of_region(region, addr, len)?;
    Some(Call::MemRead { region, addr, len })
}

/// Returns the command `vmo_write` of these arguments, whose data is lent from `room`.
pub fn vmo_write_of<'a>(arguments: &[u8], room: &'a mut [u8]) -> Option<Call<'a>>
    requires { DATA_BYTES ≤ length room.old }
    ensures { result ≡ vmo_write (words arguments.now) }
{
    let (name, rest) = next_short_word(arguments)?;
    let (offset, rest) = next_short_word(rest)?;
    let (name, offset) = vmo_and_number(name, offset)?;
    let bytes = only_data(rest, room)?;
    Some(Call::VmoWrite {
        name,
        offset,
        bytes,
    })
}

/// Returns the command `mem_write` of these arguments, whose data is lent from `room`.
pub fn mem_write_of<'a>(arguments: &[u8], room: &'a mut [u8]) -> Option<Call<'a>>
    requires { DATA_BYTES ≤ length room.old }
    ensures { result ≡ mem_write (words arguments.now) }
{
    let (region, rest) = next_short_word(arguments)?;
    let (addr, rest) = next_short_word(rest)?;
    let (region, addr) = region_and_number(region, addr)?;
    let bytes = only_data(rest, room)?;
    Some(Call::MemWrite {
        region,
        addr,
        bytes,
    })
}

/// Returns the byte data that is the one word of a line. If the line does not end with a blank, no search for the end
/// of the data is needed: data with a blank in it is refused.
#[inline(always)]
fn only_data<'a>(line: &[u8], room: &'a mut [u8]) -> Option<LentBytes<'a>>
    requires { DATA_BYTES ≤ length room.old }
    ensures { result ≡ only_data (words line.now) }
{
    let text = behind_blanks(line);
    if ends_blank(text) {
        let (word, rest) = next_short_word(text)?;
        if !has_no_word(rest) {
            return None;
        }
        return byte_data_into(word, room);
    }
    byte_data_into(text, room)
}

/// Reports whether the last byte of a line is a blank.
#[inline(always)]
fn ends_blank(line: &[u8]) -> bool
    ensures { result ≡ ends_blank line.now }
{
    match line {
        [.., byte] => is_blank(*byte),
        [] => false,
    }
}
