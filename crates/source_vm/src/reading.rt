//! What one line of a script of page sources says.

ghost use Rattle.std.specs.Prelude.{◌≡◌, ◌≤◌, map, length};
ghost use Rattle.vm_base.specs.declared.limits.TheConstants.{DATA_BYTES};
ghost use Rattle.source_vm.specs.Reading.{child_of_kind, name_in, range_in, source_reading_of, source_reading_of_call, source_child, source_command, source_create};
ghost use Rattle.source_vm.specs.Reading.{source_reading, source_stat, source_write, source_order_in};
ghost use Rattle.source_vm.specs.Reading.{of_name, of_range};
ghost use Rattle.source_model.specs.declared.command.SourceCommand.TheVariants.{Close, Read, Supply, Evict};
ghost use Rattle.vm_model.specs.Language.Reading.{is_comment, words};

use arrayvec::ArrayVec;
use script_text::{SyntaxFault, byte_data_into, next_word, number, vmo};
use source_model::{SourceCall, SourceCommand};
use vm_base::{DATA_BYTES, LINE_BYTES, VmoName};

/// The most words that a command has, its own and five arguments.
const MOST_WORDS: usize = 6;

/// The content of a line.
#[derive(Drop)]
pub enum SourceLine {
    /// Nothing: it has no word, or it is a comment, whose first word begins with `#`.
    Blank,
    /// A command.
    Order(SourceCommand),
}

/// Reads one line of a script, without its line feed. `SyntaxFault` if it has more than `LINE_BYTES` bytes, or if it is neither blank
/// nor a comment nor a command.
pub fn read_source_line(line: &[u8]) -> Result<SourceLine, SyntaxFault>
    ensures { source_reading_of result ≡ source_reading line.now }
{
    let mut room = [0; DATA_BYTES];
    match read_source_call(line, &mut room)? {
        Some(call) => Ok(SourceLine::Order(call.to_owned())),
        None => Ok(SourceLine::Blank),
    }
}

/// Reads one line as `read_source_line` does: `None` if it is blank or a comment, else the command, whose byte data is decoded into
/// `room` and lent from there. `room` has at least `DATA_BYTES` bytes.
#[tactic(auto, unfolding(crate::specs::Reading::source_reading))]
pub fn read_source_call<'a>(
    line: &[u8],
    room: &'a mut [u8],
) -> Result<Option<SourceCall<'a>>, SyntaxFault>
    requires { DATA_BYTES ≤ length room.old }
    ensures { source_reading_of_call result ≡ source_reading line.now }
{
    if line.len() > LINE_BYTES {
        return Err(SyntaxFault);
    }
    let Some((word, _)) = next_word(line) else {
        return Ok(None);
    };
    if is_comment(word) {
        return Ok(None);
    }
    match order(line, room) {
        Some(call) => Ok(Some(call)),
        None => Err(SyntaxFault),
    }
}

/// Returns whether a word begins with `#`.
fn is_comment(word: &[u8]) -> bool
    ensures { result ≡ is_comment word.now }
{
    matches!(word, [b'#', ..])
}

/// Returns the command of a line, or `None` if it has none.
fn order<'a>(line: &[u8], room: &'a mut [u8]) -> Option<SourceCall<'a>>
    requires { DATA_BYTES ≤ length room.old }
    ensures { result ≡ source_order_in (words line.now) }
{
    let mut found: ArrayVec<&[u8], MOST_WORDS> = ArrayVec::new();
    let mut rest = line;
    while let Some((word, behind)) = next_word(rest) {
        if found.is_full() {
            return None;
        }
        found.push(word);
        rest = behind;
    }
    match found.as_slice() {
        [word, arguments @ ..] => call(word, arguments, room),
        [] => None,
    }
}

/// Returns the command of this word and these arguments, or `None` if there is none.
#[tactic(auto, unfolding(crate::specs::Reading::source_command))]
fn call<'a>(word: &[u8], arguments: &[&[u8]], room: &'a mut [u8]) -> Option<SourceCall<'a>>
    requires { DATA_BYTES ≤ length room.old }
    ensures { result ≡ source_command word.now (map (λ a. a.now) arguments.now) }
{
    if word == b"vmo_read".as_slice() {
        read(arguments)
    } else if word == b"vmo_write".as_slice() {
        write(arguments, room)
    } else if word == b"supply".as_slice() {
        supply(arguments)
    } else if word == b"evict".as_slice() {
        evict(arguments)
    } else if word == b"source_create".as_slice() {
        create(arguments)
    } else if word == b"vmo_create_child".as_slice() {
        child(arguments)
    } else if word == b"vmo_close".as_slice() {
        close(arguments)
    } else if word == b"stat".as_slice() {
        stat(arguments)
    } else {
        None
    }
}

/// Returns the one argument of a command of a VMO.
fn name_in(arguments: &[&[u8]]) -> Option<VmoName>
    ensures { result ≡ name_in (map (λ a. a.now) arguments.now) }
{
    let [name] = arguments else {
        return None;
    };
    vmo(name)
}

/// Returns the arguments of a command of a range of a VMO: its name, the offset and the length.
fn range_in(arguments: &[&[u8]]) -> Option<(VmoName, u64, u64)>
    ensures { result ≡ range_in (map (λ a. a.now) arguments.now) }
{
    let [name, offset, len] = arguments else {
        return None;
    };
    Some((vmo(name)?, number(offset)?, number(len)?))
}

/// Reads the arguments of `vmo_read VMO OFFSET LEN`.
fn read<'a>(arguments: &[&[u8]]) -> Option<SourceCall<'a>>
    ensures { result ≡ of_range Read (map (λ a. a.now) arguments.now) }
{
    let (name, offset, len) = range_in(arguments)?;
    Some(SourceCall::Read { name, offset, len })
}

/// Reads the arguments of `supply VMO OFFSET LEN`.
fn supply<'a>(arguments: &[&[u8]]) -> Option<SourceCall<'a>>
    ensures { result ≡ of_range Supply (map (λ a. a.now) arguments.now) }
{
    let (name, offset, len) = range_in(arguments)?;
    Some(SourceCall::Supply { name, offset, len })
}

/// Reads the arguments of `evict VMO OFFSET LEN`.
fn evict<'a>(arguments: &[&[u8]]) -> Option<SourceCall<'a>>
    ensures { result ≡ of_range Evict (map (λ a. a.now) arguments.now) }
{
    let (name, offset, len) = range_in(arguments)?;
    Some(SourceCall::Evict { name, offset, len })
}

/// Reads the arguments of `vmo_close VMO`.
fn close<'a>(arguments: &[&[u8]]) -> Option<SourceCall<'a>>
    ensures { result ≡ of_name Close (map (λ a. a.now) arguments.now) }
{
    let name = name_in(arguments)?;
    Some(SourceCall::Close { name })
}

/// Reads the arguments of `source_create VMO SIZE KIND SEED`.
fn create<'a>(arguments: &[&[u8]]) -> Option<SourceCall<'a>>
    ensures { result ≡ source_create (map (λ a. a.now) arguments.now) }
{
    let [name, size, kind, seed] = arguments else {
        return None;
    };
    let name = vmo(name)?;
    let size = number(size)?;
    let kind = number(kind)?;
    let seed = number(seed)?;
    Some(SourceCall::Create {
        name,
        size,
        kind,
        seed,
    })
}

/// Reads the arguments of `vmo_create_child VMO PARENT KIND OFFSET SIZE`, where `KIND` is `snapshot` or
/// `snapshot_at_least_on_write`.
fn child<'a>(arguments: &[&[u8]]) -> Option<SourceCall<'a>>
    ensures { result ≡ source_child (map (λ a. a.now) arguments.now) }
{
    let [name, parent, kind, offset, size] = arguments else {
        return None;
    };
    let name = vmo(name)?;
    let parent = vmo(parent)?;
    let offset = number(offset)?;
    let size = number(size)?;
    child_of_kind(kind, name, parent, offset, size)
}

/// Returns the command that makes a child of the kind of this word, or `None` if there is no such kind.
fn child_of_kind<'a>(
    kind: &[u8],
    name: VmoName,
    parent: VmoName,
    offset: u64,
    size: u64,
) -> Option<SourceCall<'a>>
    ensures { result ≡ child_of_kind kind.now name parent offset size }
{
    if kind == b"snapshot".as_slice() {
        Some(SourceCall::Child {
            name,
            parent,
            offset,
            size,
        })
    } else if kind == b"snapshot_at_least_on_write".as_slice() {
        Some(SourceCall::Loose {
            name,
            parent,
            offset,
            size,
        })
    } else {
        None
    }
}

/// Reads the arguments of `vmo_write VMO OFFSET DATA`.
fn write<'a>(arguments: &[&[u8]], room: &'a mut [u8]) -> Option<SourceCall<'a>>
    requires { DATA_BYTES ≤ length room.old }
    ensures { result ≡ source_write (map (λ a. a.now) arguments.now) }
{
    let [name, offset, bytes] = arguments else {
        return None;
    };
    let name = vmo(name)?;
    let offset = number(offset)?;
    let bytes = byte_data_into(bytes, room)?;
    Some(SourceCall::Write {
        name,
        offset,
        bytes,
    })
}

/// Reads the arguments of `stat`.
fn stat<'a>(arguments: &[&[u8]]) -> Option<SourceCall<'a>>
    ensures { result ≡ source_stat (map (λ a. a.now) arguments.now) }
{
    match arguments {
        [] => Some(SourceCall::Stat),
        _ => None,
    }
}
