//! What a line of a script says, by the canonical spelling of its command.
//!
//! A line of a text is `LINE => ANSWER`: the answer is the canonical line of the command, `blank` or `SYNTAX`. A blank line,
//! and one that begins with `//`, is for the reader. A line of another form fails, and so does a text without an answer.

ghost use Rattle.std.specs.Prelude.{◌≡◌, true, IsTrue};
ghost use Rattle.vm_model.specs.Language.Spelling.{has_spelling};

use super::{Fault, text_of};
use script_text::{Line, read_line, write_command};
use std::alloc::Global;
use std::test::Fail;
use vm_base::TEXT_ROOM;
use vm_model::Command;

/// Returns whether some line spells a command.
#[tactic(auto, unfolding(vm_model::specs::Language::Spelling::has_spelling))]
fn has_spelling(command: &Command) -> bool
    ensures { IsTrue result → has_spelling command.now ≡ true }
{
    match command {
        Command::VmarAllocate { flags, caps, .. } => flags.0 == flags.0 & 5 && caps.0 < 8,
        Command::VmarMap { perm, flags, .. } => perm.0 < 8 && flags.0 < 16,
        Command::VmarProtect { perm, .. } => perm.0 < 8,
        _ => true,
    }
}

/// Fails if the canonical line of a command is not this one, which is given without its line feed.
fn compare_spelling(command: &Command, wanted: &str) -> Result<(), Fault> {
    if !has_spelling(command) {
        return Err(Fault::NoForm);
    }
    let mut out = [0; TEXT_ROOM];
    let len = write_command(command, &mut out);
    if text_of(&out[..len])?.strip_suffix('\n') == Some(wanted) {
        Ok(())
    } else {
        Err(Fault::OtherAnswer)
    }
}

/// Fails if a line is not read as it is wanted.
fn compare_reading(line: &str, wanted: &str) -> Result<(), Fault> {
    let is_wanted = match read_line(line.as_bytes()) {
        Ok(Line::Order(command)) => return compare_spelling(&command, wanted),
        Ok(Line::Blank) => wanted == "blank",
        Err(_) => wanted == "SYNTAX",
    };
    if is_wanted {
        Ok(())
    } else {
        Err(Fault::OtherAnswer)
    }
}

/// Checks one line of a text, and returns whether it has an answer.
fn check_line(line: &str) -> Result<bool, Fault> {
    if line.is_empty() || line.starts_with("//") {
        return Ok(false);
    }
    let Some((line, wanted)) = line.split_once(" => ") else {
        return Err(Fault::NoForm);
    };
    compare_reading(line, wanted)?;
    Ok(true)
}

/// Returns the number of the first line of a text, from 1, that fails, or 0 if no line has an answer.
fn wrong_line(text: &str) -> Option<u64> {
    let mut any = false;
    let mut number: u64 = 0;
    for line in text.split('\n') {
        number = number.saturating_add(1);
        match check_line(line) {
            Ok(has_answer) => any = has_answer || any,
            Err(_) => return Some(number),
        }
    }
    if any { None } else { Some(0) }
}

/// Checks each line of a text.
fn check(alloc: Global, text: &str) -> Result<(), Fail> {
    match wrong_line(text) {
        None => Ok(()),
        Some(number) => Err(Fail::from(format!(in alloc; "line {number}")?)),
    }
}

/// Texts that fail, parted by `|`, so that no text passes by its form alone.
#[test]
fn other_texts_fail(rt: HostRuntime) {
    for text in "stat|stat => Stat|stat => stat |stat => blank|Stat => Stat|// stat => stat".split(
        '|',
    ) {
        assert!(rt; wrong_line(text).is_some(), "of {text}");
    }
}

#[test]
fn numbers_permissions_and_data_are_read(rt: HostRuntime) -> Result<(), Fail> {
    check(
        rt.alloc(),
        "\
vmo_set_size v1 007 => vmo_set_size v1 7
vmo_set_size v1 18446744073709551615 => vmo_set_size v1 18446744073709551615
vmo_set_size v1 18446744073709551616 => SYNTAX
vmo_set_size v1 99999999999999999999x => SYNTAX
vmo_set_size v1 0x0 => vmo_set_size v1 0
vmo_set_size v1 0xaF => vmo_set_size v1 175
vmo_set_size v1 0xFFFFFFFFFFFFFFFF => vmo_set_size v1 18446744073709551615
vmo_set_size v1 0x00000000000000000f => vmo_set_size v1 15
vmo_set_size v1 0x10000000000000000 => SYNTAX
vmo_set_size v1 0x => SYNTAX
vmo_set_size v1 0X1 => SYNTAX
vmo_set_size v1 0xg => SYNTAX
vmo_set_size v1 1a => SYNTAX
vmo_set_size v1 -1 => SYNTAX
vmo_set_size v1 +1 => SYNTAX
vmo_set_size v1 1_000 => SYNTAX
vmo_set_size v1 ÿ => SYNTAX

vmar_protect r1 0 1 none => vmar_protect r1 0 1 none
vmar_protect r1 0 1 r => vmar_protect r1 0 1 r
vmar_protect r1 0 1 w => vmar_protect r1 0 1 w
vmar_protect r1 0 1 rw => vmar_protect r1 0 1 rw
vmar_protect r1 0 1 x => vmar_protect r1 0 1 x
vmar_protect r1 0 1 rx => vmar_protect r1 0 1 rx
vmar_protect r1 0 1 wx => vmar_protect r1 0 1 wx
vmar_protect r1 0 1 rwx => vmar_protect r1 0 1 rwx
vmar_protect r1 0 1 xr => SYNTAX
vmar_protect r1 0 1 rr => SYNTAX
vmar_protect r1 0 1 R => SYNTAX
vmar_protect r1 0 1 - => SYNTAX

vmo_write v1 0 6B4c20 => vmo_write v1 0 6b4c20
vmo_write v1 0 616 => SYNTAX
vmo_write v1 0 0x61 => SYNTAX
",
    )
}

/// Each command, with its arguments in their order. Flags are spelled in one order, numbers in decimal, data in lower case.
#[test]
fn commands_are_read_and_spelled(rt: HostRuntime) -> Result<(), Fail> {
    check(
        rt.alloc(),
        "\
 \tvmo_create\t v1  0x2000 \r => vmo_create v1 8192
vmo_create v0 1 resizable => vmo_create v0 1 resizable
vmo_create_child v2 v1 snapshot 0 9 => vmo_create_child v2 v1 snapshot 0 9
vmo_create_child v2 v1 slice 1 9 no_write => vmo_create_child v2 v1 slice 1 9 no_write
vmo_create_child v7 v0 reference 4096 0xffffffffffffffff no_write resizable => vmo_create_child v7 v0 reference 4096 18446744073709551615 resizable no_write
vmo_close v1 => vmo_close v1
vmo_size v4294967295 => vmo_size v4294967295
vmo_set_size v1 0 => vmo_set_size v1 0
vmo_read v1 4093 5 => vmo_read v1 4093 5
vmo_write v4294967295 3 0aFF => vmo_write v4294967295 3 0aff
vmo_write v1 0 - => vmo_write v1 0 -
vmo_fill v1 2 9 0xff => vmo_fill v1 2 9 255
vmo_commit v1 2 1 => vmo_commit v1 2 1
vmo_decommit v1 2 1 => vmo_decommit v1 2 1
vmo_zero v1 2 1 => vmo_zero v1 2 1
vmo_pin p3 v1 2 4 => vmo_pin p3 v1 2 4
vmo_unpin p4294967295 => vmo_unpin p4294967295
vmo_info v1 => vmo_info v1
root_create r4294967295 => root_create r4294967295
vmar_allocate r2 r1 0 4 can_read specific => vmar_allocate r2 r1 0 4 specific can_read
vmar_allocate r2 r1 3 4 can_execute upper_limit can_write => vmar_allocate r2 r1 3 4 upper_limit can_write can_execute
vmar_allocate r2 r1 0 8192 can_read can_write can_execute upper_limit specific => vmar_allocate r2 r1 0 8192 specific upper_limit can_read can_write can_execute
vmar_map r1 3 v2 4 5 rx => vmar_map r1 3 v2 4 5 rx
vmar_map r1 3 v2 4 5 none allow_faults specific_overwrite => vmar_map r1 3 v2 4 5 none specific_overwrite allow_faults
vmar_map r1 3 v2 4 5 wx upper_limit specific => vmar_map r1 3 v2 4 5 wx specific upper_limit
vmar_map r2 0 v1 4096 8192 rwx allow_faults upper_limit specific_overwrite specific => vmar_map r2 0 v1 4096 8192 rwx specific specific_overwrite upper_limit allow_faults
vmar_unmap r1 2 3 => vmar_unmap r1 2 3
vmar_protect r1 2 3 w => vmar_protect r1 2 3 w
vmar_destroy r1 => vmar_destroy r1
maps r1 => maps r1
mem_read r1 2 3 => mem_read r1 2 3
mem_write r1 0x200000 - => mem_write r1 2097152 -
mem_write r1 2 ABcd => mem_write r1 2 abcd
stat => stat
 => blank
 \t\r => blank
\t#ÿ\0 of many more words than a command has: 1 2 3 4 5 6 7 8 9 => blank
",
    )
}

#[test]
fn other_lines_are_refused(rt: HostRuntime) -> Result<(), Fail> {
    check(
        rt.alloc(),
        "\
vmo_create v1 => SYNTAX
vmo_create 1 v1 => SYNTAX
vmo_create v1 1 # made => SYNTAX
vmo_create v1 1 resizable resizable => SYNTAX
vmo_create v1 1 no_write => SYNTAX
vmo_create v1 resizable 1 => SYNTAX
vmo_create_child v2 v1 Slice 0 1 => SYNTAX
vmo_create_child v2 v1 slice 0 1 no_write no_write => SYNTAX
vmo_read v1 0 => SYNTAX
vmo_read v1 0 1 2 => SYNTAX
vmo_write v1 0 abc => SYNTAX
vmo_write v1 0 a => SYNTAX
vmo_write v1 0 -- => SYNTAX
vmo_write v1 0 0x => SYNTAX
vmo_write v1 0 0g => SYNTAX
vmo_fill v1 0 1 256 => SYNTAX
vmo_pin v1 p1 0 1 => SYNTAX
vmar_allocate r2 r1 0 1 specific_overwrite => SYNTAX
vmar_map r1 0 v1 0 1 xr => SYNTAX
vmar_map r1 0 v1 0 1 x can_read => SYNTAX
vmar_map r1 0 v1 0 1 x SPECIFIC => SYNTAX
maps v1 => SYNTAX
stat r1 => SYNTAX
Stat => SYNTAX
vmo_create# v1 1 => SYNTAX
vmo_create,v1,1 => SYNTAX
vmo_create\u{b}v1 1 => SYNTAX
vmo 1 => SYNTAX
ÿ => SYNTAX

// Names.
vmo_size v4294967296 => SYNTAX
vmo_size v18446744073709551616 => SYNTAX
vmo_size v01 => SYNTAX
vmo_size v => SYNTAX
vmo_size V1 => SYNTAX
vmo_size r1 => SYNTAX
vmo_size v0x1 => SYNTAX
vmo_size 7 => SYNTAX
vmar_destroy p1 => SYNTAX
vmo_unpin r1 => SYNTAX
",
    )
}
