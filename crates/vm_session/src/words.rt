//! The words of the command line.

ghost use Rattle.std.specs.Prelude.{◌≡◌, map, option_map, IfSome};
ghost use Rattle.std.specs.String.{string_bytes};
ghost use Rattle.line_server.specs.Words.{frames_in};
ghost use Rattle.vm_session.specs.Outcome.{task_asked, work_in};
ghost use Rattle.vm_session.specs.inside.Tasks.{HasBounds};

use line_server::{decimal_of_word, frames_in};
use vm_base::WORK_COUNT;

/// The task that the words ask for.
#[derive(Clone, Copy)]
pub(crate) enum Task {
    /// To run a script on a machine with `frames` page frames.
    Run {
        frames: u32,
    },
    /// To do `count` commands, generated from a number, on a machine with `frames` page frames.
    Work {
        number: u64,
        count: u64,
        frames: u32,
    },
}

/// Returns what the words ask for: `run`, or `work NUMBER COUNT`. The number has one to twenty digits and is below
/// 2^64. The count has one to seven digits and is at most `WORK_COUNT`. Behind either may stand `--frames N`, with one
/// to five digits, from 1 to `FRAMES`. `None` for any other words.
pub(crate) fn task_asked(words: &[String]) -> Option<Task>
    ensures task { result ≡ task_asked words.now }
    ensures bounds { IfSome result HasBounds }
{
    let [verb, behind @ ..] = words else {
        return None;
    };
    if verb.as_bytes() == b"run".as_slice() {
        return run_asked(behind);
    }
    if verb.as_bytes() == b"work".as_slice() {
        return work_asked(behind);
    }
    None
}

/// Returns what the words behind `run` ask for.
fn run_asked(words: &[String]) -> Option<Task>
    ensures task { result ≡ option_map (λ frames. Task.Run frames) (frames_in (map string_bytes words.now)) }
    ensures bounds { IfSome result HasBounds }
{
    let frames = frames_in(words)?;
    Some(Task::Run { frames })
}

/// Returns what the words behind `work` ask for.
fn work_asked(words: &[String]) -> Option<Task>
    ensures task { result ≡ work_in (map string_bytes words.now) }
    ensures bounds { IfSome result HasBounds }
{
    let [number, count, behind @ ..] = words else {
        return None;
    };
    let number = decimal_of_word(number.as_bytes(), 20, 0, u64::MAX)?;
    let count = decimal_of_word(count.as_bytes(), 7, 0, WORK_COUNT)?;
    let frames = frames_in(behind)?;
    Some(Task::Work {
        number,
        count,
        frames,
    })
}
