//! What an interpreter of lines promises.

ghost use Rattle.std.specs.Prelude.{◌≡◌, ℕ, List, ◌+◌, ◌<◌, ◌≤◌, length};
ghost use Rattle.script_io.specs.Faults.{HasCause};
ghost use Rattle.vm_base.specs.declared.limits.TheConstants.{LINE_BYTES};
ghost use Rattle.vm_model.specs.Contents.Content.{Content};
ghost use Rattle.line_server.specs.Answering.{Answering, syntax_text};
ghost use Rattle.line_server.specs.Outcome.{AnswersLine};

use page_store::PageStore;
use script_io::Sink;
use vm_base::{Failed, KOIDS};

/// An interpreter answers the lines of a script, one after another, and keeps its VMOs in a store of pages. Its clauses speak of
/// the state that the interpreter and the content of the store stand for together.
pub trait Interpreter<P: PageStore>: Drop {
    /// The type of states.
    ghost State: { Type 0 };

    /// Its first state, the content of a state, which states are good, and how lines may be answered.
    ghost rules: { Answering State };

    /// The state that the interpreter and the content of its store stand for.
    ghost state: { Self → Content → State };

    /// The interpreter and the content of its store stand together for a state.
    ghost Agrees: { Self → Content → Type 0 };

    /// Answers a line of at most `LINE_BYTES` bytes, without its line feed, and pushes the text of the answer. `Failed` if the
    /// sink failed, and then it took a front part of the text; the line was done all the same. At most one koid is given.
    fn answer_line<K: Sink>(
        &mut self,
        store: &mut P,
        sink: &mut K,
        line: &[u8],
    ) -> Result<(), Failed>
        requires agrees { Agrees self.old (P.content store.old) }
        requires next { (P.content store.old).next < KOIDS }
        ensures answer { AnswersLine rules line.now (state self.old (P.content store.old))
            (state self.new (P.content store.new)) (K.contents sink.old) (K.contents sink.new) result }
        ensures agrees { Agrees self.new (P.content store.new) }
        ensures good { rules.IsGood (state self.new (P.content store.new)) }
        ensures next { (P.content store.new).next ≤ (P.content store.old).next + 1 }
        ensures cause { HasCause (K.faults sink.old) (K.faults sink.new) result };

    /// The content of the state is that of the store.
    ghost holds: { (x : Self) (c : Content) → rules.content (state x c) ≡ c };

    /// A line of more than `LINE_BYTES` bytes is answered as one outside the grammar, and changes nothing.
    ghost long: { (s : State) (line : List ℕ) → LINE_BYTES < length line → rules.Gives line s syntax_text s };
}
