//! What holds of the definitions alone. Each law is the contract of a function that does nothing.

ghost use Rattle.std.specs.Prelude.{◌≡◌, ◌↔◌, ℕ, ◌+◌, ◌<◌, ◌≤◌, true, Option, Some, IsSome};
ghost use Rattle.vm_base.specs.Entries.{without_key};
ghost use Rattle.vm_base.specs.declared.names.VmoName.{VmoName};
ghost use Rattle.vm_model.specs.Contents.Content.{Content};
ghost use Rattle.vm_model.specs.Machine.Words.{Reply};
ghost use Rattle.source_model.specs.declared.backing.Backing.{Backing};
ghost use Rattle.source_model.specs.Words.{SourceCommand};
ghost use Rattle.source_model.specs.declared.command.SourceCommand.TheVariants.{Close, Read, Supply, Evict};
ghost use Rattle.source_model.specs.declared.link.Link.{Link};
ghost use Rattle.source_model.specs.Links.{shows_through, walked};
ghost use Rattle.source_model.specs.State.{SourceState, below_of, empty_sources, state_over};
ghost use Rattle.source_model.specs.Living.{LivesBy, IsLive, StaysAt};
ghost use Rattle.source_model.specs.Commands.{SourceStep};
ghost use Rattle.source_model.specs.Good.{IsGoodSources, IsTextOf};
ghost use Rattle.source_model.specs.Reaching.{WriteReaches};

/// States that a machine of page sources with page frames and nothing else is good.
pub fn the_empty_sources_are_good()
    ensures { (frames : ℕ) → IsGoodSources (empty_sources frames) }
{}

/// States that a step of the machine of page sources leads from a good state to a good state, and gives at most one
/// koid.
pub fn a_step_keeps_the_sources_good()
    ensures good { (old new : SourceState) (command : SourceCommand) (reply : Reply) →
        IsGoodSources old → SourceStep old command reply new → IsGoodSources new }
    ensures koids { (old new : SourceState) (command : SourceCommand) (reply : Reply) →
        IsGoodSources old → SourceStep old command reply new → new.content.next ≤ old.content.next + 1 }
{}

/// States that reads, supplies and evictions change no byte of any text.
pub fn paging_changes_no_text()
    ensures reads { (old new : SourceState) (name : VmoName) (offset len : ℕ) (reply : Reply) →
        SourceStep old (Read name offset len) reply new → new.text ≡ old.text }
    ensures supplies { (old new : SourceState) (name : VmoName) (offset len : ℕ) (reply : Reply) →
        SourceStep old (Supply name offset len) reply new → new.text ≡ old.text }
    ensures evictions { (old new : SourceState) (name : VmoName) (offset len : ℕ) (reply : Reply) →
        SourceStep old (Evict name offset len) reply new → new.text ≡ old.text }
{}

/// States that the text of a good state is what look-ups upwards find, and nothing else, so code that keeps no text reads it
/// by walking up the links. What look-ups find is a text wherever each link leads to a VMO with a smaller koid.
pub fn look_ups_find_the_text()
    ensures only { (s : SourceState) → IsGoodSources s →
        (v p : ℕ) → s.text v p ≡ walked s.content s.backing (below_of s) v p }
    ensures exists { (c : Content) (names : ℕ → Option ℕ) (backing : ℕ → Option Backing) (link : ℕ → Option Link) →
        ((v : ℕ) (l : Link) → link v ≡ Some l → l.parent.0 < v) → IsTextOf (state_over c names backing link) }
{}

/// States which pages show a page, so that a write of it is pushed to them. They are the page itself and those that the
/// write comes to from child to child, by pages that the children show and do not hold.
pub fn a_write_comes_to_what_shows_its_page()
    ensures { (s : SourceState) → IsGoodSources s → (v p w q : ℕ) →
        (shows_through (below_of s) v p w q ≡ true) ↔ WriteReaches s v p w q }
{}

/// States that after a close each VMO that is there lives. A VMO that lives without the closed name, by another name or by a
/// loose child that lives so, is there as it was, with its text.
pub fn a_name_that_is_closed_leaves_what_lives()
    ensures lives { (old new : SourceState) (name : VmoName) (reply : Reply) → IsGoodSources old →
        SourceStep old (Close name) reply new → (v : ℕ) → IsSome (new.content.count v) → IsLive new v }
    ensures stays { (old new : SourceState) (name : VmoName) (reply : Reply) → IsGoodSources old →
        SourceStep old (Close name) reply new → (v : ℕ) → LivesBy (without_key old.names name.0) old.link v →
        IsSome (new.content.count v) × StaysAt old new v }
{}
