//! What a call tells a caller outside of Rattle: a length, and a number for a status.

ghost use Rattle.std.specs.Prelude.{◌≡◌};
ghost use Rattle.held_vm.specs.Told.{line_told, script_told, refusal_told};

use crate::held::AnswerError;

/// The call did what it was asked.
pub const DONE: u8 = 0;

const _: () = prove!(DONE == 0);

/// The reply, or the text of the replies, is longer than the caller's bytes.
pub const OUT_OF_ROOM: u8 = 1;

const _: () = prove!(OUT_OF_ROOM == 1);

/// The host has too little memory.
pub const OUT_OF_MEMORY: u8 = 2;

const _: () = prove!(OUT_OF_MEMORY == 2);

/// The machine has given all koids.
pub const OUT_OF_KOIDS: u8 = 3;

const _: () = prove!(OUT_OF_KOIDS == 3);

/// The machine is closed.
pub const CLOSED: u8 = 4;

const _: () = prove!(CLOSED == 4);

/// A machine has from 1 to `FRAMES` page frames.
pub const FRAME_COUNT: u8 = 5;

const _: () = prove!(FRAME_COUNT == 5);

/// Why a machine was not opened.
pub enum OpenError {
    /// A machine has from 1 to `FRAMES` page frames.
    FrameCount,
    /// The host has too little memory.
    OutOfMemory,
}

/// Why the whole text of a script was not written.
pub enum ScriptError {
    /// A machine has from 1 to `FRAMES` page frames.
    FrameCount,
    /// The host has too little memory.
    OutOfMemory,
    /// The text is longer than the bytes of the caller.
    OutOfRoom,
}

/// The length of the text at the front of the caller's bytes, and a status: what a call tells of a line or a script.
#[repr(C)]
#[derive(Clone, Copy)]
pub struct Answered {
    pub len: usize,
    pub status: u8,
}

/// Tells what became of a line. A closed machine gave no answer.
pub fn tell_line(answer: Option<Result<usize, AnswerError>>) -> Answered
    ensures { result ≡ line_told answer }
{
    match answer {
        None => Answered {
            len: 0,
            status: CLOSED,
        },
        Some(Ok(len)) => Answered { len, status: DONE },
        Some(Err(AnswerError::OutOfRoom)) => Answered {
            len: 0,
            status: OUT_OF_ROOM,
        },
        Some(Err(AnswerError::OutOfKoids)) => Answered {
            len: 0,
            status: OUT_OF_KOIDS,
        },
    }
}

/// Tells what became of a script.
pub fn tell_script(answer: Result<usize, ScriptError>) -> Answered
    ensures { result ≡ script_told answer }
{
    match answer {
        Ok(len) => Answered { len, status: DONE },
        Err(ScriptError::OutOfRoom) => Answered {
            len: 0,
            status: OUT_OF_ROOM,
        },
        Err(ScriptError::OutOfMemory) => Answered {
            len: 0,
            status: OUT_OF_MEMORY,
        },
        Err(ScriptError::FrameCount) => Answered {
            len: 0,
            status: FRAME_COUNT,
        },
    }
}

/// Tells why a machine was not opened.
pub fn tell_refusal(refusal: OpenError) -> u8
    ensures { result ≡ refusal_told refusal }
{
    match refusal {
        OpenError::FrameCount => FRAME_COUNT,
        OpenError::OutOfMemory => OUT_OF_MEMORY,
    }
}
