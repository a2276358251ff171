//! Words and lines of scripts.

ghost use Rattle.std.specs.Prelude.{◌≡◌, ◌≤◌, ◌+◌, ◌-◌, ◌*◌, ◌^◌, ◌∷◌, [], Some, None, length, take, codes};
ghost use Rattle.vm_base.specs.declared.limits.TheConstants.{DATA_BYTES, LINE_BYTES, TEXT_ROOM};
ghost use Rattle.vm_model.specs.Language.Reading.{Blank, Order, Outside, words, reading_of_words};
ghost use Rattle.vm_model.specs.declared.command.Command.TheVariants.{VmoZero, VmoSize, VmoRead, VmoWrite};
ghost use Rattle.script_text.specs.Lines.{reading_of_call};

use script_text::{SyntaxFault, byte_data_into, number, read_call, vmo, write_command};
use vm_base::VmoName;
use vm_model::{Call, ChildKind, Command, LentBytes};

/// States that a number of 2^64 is refused.
#[tactic(auto, unfolding(vm_model::specs::Language::Reading::number, vm_model::specs::Language::Reading::digits_from))]
pub fn two_to_the_64_is_no_number() -> Option<u64>
    ensures { result ≡ None }
{
    number(b"18446744073709551616")
}

/// States that the number before 2^64 is read.
#[tactic(auto, unfolding(vm_model::specs::Language::Reading::number, vm_model::specs::Language::Reading::digits_from))]
pub fn the_greatest_number_is_read() -> Option<u64>
    ensures { result ≡ Some (2 ^ 64 - 1) }
{
    number(b"18446744073709551615")
}

/// States that a number of a name has no leading zero.
#[tactic(auto, unfolding(vm_model::specs::Language::Reading::vmo, vm_model::specs::Language::Reading::digits_from))]
pub fn a_leading_zero_is_no_name() -> Option<VmoName>
    ensures { result ≡ None }
{
    vmo(b"v01")
}

/// States that byte data is what the digits of this word say, and as long.
#[tactic(auto, unfolding(hex::specs::Hex::decode_pairs, vm_model::specs::Language::Reading::byte_data))]
pub fn bytes_are_read_from_the_word<'a>(room: &'a mut [u8]) -> Option<LentBytes<'a>>
    requires { DATA_BYTES ≤ length room.old }
    ensures { result ≡ Some (10 ∷ 255 ∷ []) }
{
    byte_data_into(b"0aff", room)
}

/// States that a word of two digits more than fit is no data.
#[tactic(auto, unfolding(vm_model::specs::Language::Reading::byte_data))]
pub fn a_word_of_a_byte_more_is_no_data<'a>(
    word: &[u8],
    room: &'a mut [u8],
) -> Option<LentBytes<'a>>
    requires word { length word.now ≡ 2 * DATA_BYTES + 2 }
    requires room { DATA_BYTES ≤ length room.old }
    ensures { result ≡ None }
{
    byte_data_into(word, room)
}

/// States that the offset of a range comes before its length.
#[tactic(auto, unfolding(vm_model::specs::Language::Reading::command, vm_model::specs::Language::Reading::reading, vm_model::specs::Language::Reading::words, vm_model::specs::Language::Reading::number, vm_model::specs::Language::Reading::digits_from, vm_model::specs::Language::Reading::vmo))]
pub fn offset_comes_before_length<'a>(room: &'a mut [u8]) -> Result<Option<Call<'a>>, SyntaxFault>
    requires { DATA_BYTES ≤ length room.old }
    ensures { reading_of_call result ≡ Order (VmoZero (record { 0 = 1 }) 4096 8192) }
{
    read_call(b"vmo_zero v1 4096 8192", room)
}

/// States that a tab parts words as a space does.
#[tactic(auto, unfolding(vm_model::specs::Language::Reading::command, vm_model::specs::Language::Reading::reading, vm_model::specs::Language::Reading::words, vm_model::specs::Language::Reading::number, vm_model::specs::Language::Reading::digits_from, vm_model::specs::Language::Reading::vmo))]
pub fn a_tab_parts_words<'a>(room: &'a mut [u8]) -> Result<Option<Call<'a>>, SyntaxFault>
    requires { DATA_BYTES ≤ length room.old }
    ensures { reading_of_call result ≡ Order (VmoSize (record { 0 = 1 })) }
{
    read_call(b"vmo_size\tv1", room)
}

/// States that a flag stands once.
#[tactic(auto, unfolding(vm_model::specs::Language::Reading::command, vm_model::specs::Language::Reading::reading, vm_model::specs::Language::Reading::words, vm_model::specs::Language::Reading::number, vm_model::specs::Language::Reading::digits_from, vm_model::specs::Language::Reading::vmo))]
pub fn a_flag_stands_once<'a>(room: &'a mut [u8]) -> Result<Option<Call<'a>>, SyntaxFault>
    requires { DATA_BYTES ≤ length room.old }
    ensures { reading_of_call result ≡ Outside }
{
    read_call(b"vmo_create v1 0 resizable resizable", room)
}

/// States that data at the end of a line may be followed by a tab.
#[tactic(auto, unfolding(hex::specs::Hex::decode_pairs, vm_model::specs::Language::Reading::command, vm_model::specs::Language::Reading::reading, vm_model::specs::Language::Reading::words, vm_model::specs::Language::Reading::number, vm_model::specs::Language::Reading::digits_from, vm_model::specs::Language::Reading::vmo, vm_model::specs::Language::Reading::byte_data))]
pub fn data_may_end_before_a_tab<'a>(room: &'a mut [u8]) -> Result<Option<Call<'a>>, SyntaxFault>
    requires { DATA_BYTES ≤ length room.old }
    ensures { reading_of_call result ≡ Order (VmoWrite (record { 0 = 1 }) 0 (10 ∷ [])) }
{
    read_call(b"vmo_write v1 0 0a\t", room)
}

/// States that a word that begins as a command's word does is no command.
#[tactic(auto, unfolding(vm_model::specs::Language::Reading::command, vm_model::specs::Language::Reading::reading, vm_model::specs::Language::Reading::words))]
pub fn a_longer_word_is_no_command<'a>(room: &'a mut [u8]) -> Result<Option<Call<'a>>, SyntaxFault>
    requires { DATA_BYTES ≤ length room.old }
    ensures { reading_of_call result ≡ Outside }
{
    read_call(b"vmo_reads v1 4096 16", room)
}

/// States that a read has its offset before its length, too.
#[tactic(auto, unfolding(vm_model::specs::Language::Reading::command, vm_model::specs::Language::Reading::reading, vm_model::specs::Language::Reading::words, vm_model::specs::Language::Reading::number, vm_model::specs::Language::Reading::digits_from, vm_model::specs::Language::Reading::vmo))]
pub fn offset_of_a_read_comes_before_its_length<'a>(
    room: &'a mut [u8],
) -> Result<Option<Call<'a>>, SyntaxFault>
    requires { DATA_BYTES ≤ length room.old }
    ensures { reading_of_call result ≡ Order (VmoRead (record { 0 = 1 }) 4096 16) }
{
    read_call(b"vmo_read v1 4096 16", room)
}

/// States that a comment has its mark and what follows.
#[tactic(auto, unfolding(vm_model::specs::Language::Reading::reading, vm_model::specs::Language::Reading::words))]
pub fn a_comment_has_more_than_its_mark<'a>(
    room: &'a mut [u8],
) -> Result<Option<Call<'a>>, SyntaxFault>
    requires { DATA_BYTES ≤ length room.old }
    ensures { reading_of_call result ≡ Blank }
{
    read_call(b"#note", room)
}

/// States that a line may have as many bytes as a line can have.
#[tactic(auto, unfolding(vm_model::specs::Language::Reading::reading))]
pub fn a_line_of_the_greatest_length_is_read<'a>(
    line: &[u8],
    room: &'a mut [u8],
) -> Result<Option<Call<'a>>, SyntaxFault>
    requires line { length line.now ≡ LINE_BYTES }
    requires room { DATA_BYTES ≤ length room.old }
    ensures { reading_of_call result ≡ reading_of_words (words line.now) }
{
    read_call(line, room)
}

/// States that each flag is written by its own word.
#[tactic(auto, unfolding(vm_model::specs::Language::Spelling::command_words, vm_model::specs::Language::Spelling::has_spelling, vm_model::specs::Language::Spelling::spelling))]
pub fn a_flag_is_written_by_its_word(out: &mut [u8]) -> usize
    requires { TEXT_ROOM ≤ length out.old }
    ensures { take result out.new ≡ codes "vmo_create_child v2 v1 slice 0 4096 no_write\n" }
{
    let child = Command::VmoChild {
        name: VmoName(2),
        parent: VmoName(1),
        kind: ChildKind::Slice,
        offset: 0,
        size: 4096,
        resizable: false,
        no_write: true,
    };
    write_command(&child, out)
}

/// States that a read is written with its offset before its length.
#[tactic(auto, unfolding(vm_model::specs::Language::Spelling::command_words, vm_model::specs::Language::Spelling::has_spelling, vm_model::specs::Language::Spelling::spelling))]
pub fn a_read_is_written_with_its_offset_first(out: &mut [u8]) -> usize
    requires { TEXT_ROOM ≤ length out.old }
    ensures { take result out.new ≡ codes "vmo_read v1 4096 16\n" }
{
    let read = Command::VmoRead {
        name: VmoName(1),
        offset: 4096,
        len: 16,
    };
    write_command(&read, out)
}
