//! What the lines of a transcript say, and what the reply lines among them do.

ghost use Rattle.std.specs.Prelude.{◌≡◌, ◌≢◌, ◌≤◌, ◌<◌, ◌^◌, ◌++◌, ◌∷◌, [], ℕ, List, Option, Some, None, codes, length, take, IfSome, MatchOption, IsTrue, ◌↔◌, slice_get};
ghost use Rattle.vm_base.specs.declared.limits.TheConstants.{LINE_BYTES, TEXT_ROOM};
ghost use Rattle.vm_model.specs.declared.reply.Reply.TheVariants as Reply;
ghost use Rattle.vm_model.specs.Language.Reading.{reading, is_comment, Blank};
ghost use Rattle.vm_model.specs.Language.Text.{reply_lines};
ghost use Rattle.moving_model.specs.Transcript.{told, Asked, Answered};
ghost use Rattle.moving_model.specs.Following.{first_line};

use reply_text::{read_address, write_answer_line};
use script_text::next_word;
use vm_model::Answer;

/// Returns the line of a script that a line of a transcript has, behind `> `.
#[tactic(auto, unfolding(moving_model::specs::Transcript::told))]
pub(crate) fn script_in(line: &[u8]) -> Option<&[u8]>
    requires { length line.now ≤ LINE_BYTES }
    ensures told { MatchOption result ((script : List ℕ) → told line.now ≢ Some (Asked script))
        (λ script. told line.now ≡ Some (Asked script.now)) }
    ensures short { IfSome result (λ script. length script.now ≤ length line.now) }
{
    line.strip_prefix(b"> ")
}

/// Returns the reply line that a line of a transcript has, behind `< `.
#[tactic(auto, unfolding(moving_model::specs::Transcript::told))]
pub(crate) fn reply_in(line: &[u8]) -> Option<&[u8]>
    requires { length line.now ≤ LINE_BYTES }
    ensures { MatchOption result ((reply : List ℕ) → told line.now ≢ Some (Answered reply))
        (λ reply. told line.now ≡ Some (Answered (reply.now ++ codes "\n"))) }
{
    line.strip_prefix(b"< ")
}

/// Reports whether a line of a script says nothing. Its first word says so, and no more of it is read.
pub(crate) fn is_blank(line: &[u8]) -> bool
    requires { length line.now ≤ LINE_BYTES }
    ensures { IsTrue result ↔ (reading line.now ≡ Blank) }
{
    match next_word(line) {
        Some((word, _)) => is_comment(word),
        None => true,
    }
}

/// Reports whether a word is the first of a comment.
fn is_comment(word: &[u8]) -> bool
    ensures { result ≡ is_comment word.now }
{
    matches!(word, [b'#', ..])
}

/// Reports whether line `index` of an answer, counted from 0, is this one.
pub(crate) fn is_line(answer: &Answer<'_>, index: u64, line: &[u8], room: &mut [u8]) -> bool
    requires index { index < length (reply_lines answer.now) }
    requires room { TEXT_ROOM ≤ length room.old }
    ensures { IsTrue result ↔ (slice_get (reply_lines answer.now) index ≡ Some (line.now ++ codes "\n")) }
{
    let len = write_answer_line(answer, index, room);
    ends_line(&room[..len], line)
}

/// Reports whether a text is this line and a line feed.
fn ends_line(text: &[u8], line: &[u8]) -> bool
    ensures { IsTrue result ↔ (text.now ≡ line.now ++ codes "\n") }
{
    match text.split_last() {
        Some((last, front)) => *last == b'\n' && front == line,
        None => false,
    }
}

/// Returns the address that a reply line has, or 0 if it has none.
pub(crate) fn address_in(line: &[u8]) -> u64
    ensures { (address : ℕ) → address < 2 ^ 64 → first_line (Reply.Address address) ≡ line.now ++ codes "\n" → result ≡ address }
{
    match read_address(line) {
        Some(address) => {
            prove!(address <= u64::MAX);
            address
        }
        None => 0,
    }
}
