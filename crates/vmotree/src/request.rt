//! The words of the command line.

ghost use Rattle.std.specs.Prelude.{◌≡◌, ◌≤◌, IfSome};
ghost use Rattle.vm_base.specs.declared.limits.TheConstants.{FRAMES};
ghost use Rattle.vmotree.specs.Words.{first_request, with_flag, with_word, complete, request_in};

use line_server::decimal_of_word;
use tree_text::Form;
use vm_base::{DEFAULT_FRAMES, FRAMES};

/// The value that the next word gives.
#[derive(Clone, Copy)]
pub enum Wanted {
    /// None: the word is a flag.
    Flag,
    /// The number of page frames.
    Frames,
}

/// The request that the words make.
#[derive(Clone, Copy)]
pub struct Request {
    /// The number of page frames of the machine.
    pub frames: u32,
    /// The form of the text of the tree.
    pub form: Form,
    /// The replies are written before the tree.
    pub replies: bool,
    /// The meaning of the word behind those that were read.
    pub wanted: Wanted,
}

/// Returns what the words ask for. `--frames N`, `--text` or `--dot`, and `--replies` may stand in any order. The last of a kind
/// counts. `None` for any other words, and for replies beside a graph.
pub(crate) fn request_in(words: &[String]) -> Option<Request>
    ensures request { result ≡ request_in words.now }
    ensures range { IfSome result (λ r. 1 ≤ r.frames × r.frames ≤ FRAMES) }
{
    let mut request = Request {
        frames: DEFAULT_FRAMES,
        form: Form::Drawing,
        replies: false,
        wanted: Wanted::Flag,
    };
    let mut rest = words;
    while let [word, behind @ ..] = rest {
        request = with_word(request, word.as_bytes())?;
        rest = behind;
    }
    complete(request)
}

/// Returns a request, if no value is wanted any more, and no replies beside a graph.
fn complete(request: Request) -> Option<Request>
    ensures { result ≡ complete request }
{
    match (request.wanted, request.form, request.replies) {
        (Wanted::Frames, _, _) => None,
        (Wanted::Flag, Form::Graph, true) => None,
        (Wanted::Flag, Form::Graph, false) => Some(request),
        (Wanted::Flag, Form::Drawing, _) => Some(request),
    }
}

/// Returns the request with one word more.
fn with_word(request: Request, word: &[u8]) -> Option<Request>
    requires { 1 ≤ request.frames × request.frames ≤ FRAMES }
    ensures request { result ≡ with_word request request.wanted word.now }
    ensures range { IfSome result (λ r. 1 ≤ r.frames × r.frames ≤ FRAMES) }
{
    match request.wanted {
        Wanted::Flag => with_flag(request, word),
        Wanted::Frames => {
            let frames = decimal_of_word(word, 5, 1, FRAMES as u64)?;
            Some(Request {
                frames: frames as u32,
                wanted: Wanted::Flag,
                ..request
            })
        }
    }
}

/// Returns the request with a flag.
fn with_flag(request: Request, word: &[u8]) -> Option<Request>
    requires { 1 ≤ request.frames × request.frames ≤ FRAMES }
    ensures request { result ≡ with_flag request word.now }
    ensures range { IfSome result (λ r. 1 ≤ r.frames × r.frames ≤ FRAMES) }
{
    let mut next = request;
    if word == b"--text".as_slice() {
        next.form = Form::Drawing;
        return Some(next);
    }
    if word == b"--dot".as_slice() {
        next.form = Form::Graph;
        return Some(next);
    }
    if word == b"--replies".as_slice() {
        next.replies = true;
        return Some(next);
    }
    if word == b"--frames".as_slice() {
        next.wanted = Wanted::Frames;
        return Some(next);
    }
    None
}
