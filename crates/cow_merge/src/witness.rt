//! Pages of a VMO's node that go out of sight at once, since another VMO, below the sibling, shows them too.

ghost use Rattle.std.specs.Prelude.{◌≡◌, ◌+◌, ◌^◌, ◌<◌, ◌≤◌, ℕ, Bool, Option, None, Some, IsSome, IsSomeAnd, IfSome, option_copied};
ghost use Rattle.page_list.specs.Lists.{slots_of};
ghost use Rattle.cow_arena.specs.declared.node.Node.{Node};
ghost use Rattle.cow_arena.specs.declared.node.NodeId.{NodeId};
ghost use Rattle.cow_arena.specs.declared.node.Side.{Side};
ghost use Rattle.cow_arena.specs.Nodes.{nodes_of, child_on, other_side};
ghost use Rattle.cow_arena.specs.Forest.{IsForest, IsChild};
ghost use Rattle.cow_split.specs.Trees.{tree_of};
ghost use Rattle.cow_split.specs.Exact.{IsExact, IsOnlyOf};
ghost use Rattle.frame_pool.specs.Pool.{Pool, is_taken};
ghost use Rattle.cow_jump.specs.Jumps.{MayJump};
ghost use Rattle.cow_arena.specs.Ways.{IsPartOf, Reaches};
ghost use Rattle.cow_merge.specs.inside.Lifting.{IsFamilyOf};
ghost use Rattle.cow_merge.specs.Ranges.{IsOutside, bare_of, no_pages, Moves, IsPassing, IsOnItsWayUp, IsExactFor, HasCutOff};
ghost use Rattle.cow_merge.specs.inside.Witness.{IsGoingDown, IsBeside, IsEntered, IsOneMore, ShowsOnlyOf};

use crate::places::{Arrival, Family, Span, Window};
use crate::ranges::{Pages, cut_off, next_below};
use cow_arena::{CowArena, Node, NodeId, Side};
use cow_jump::{JumpTable, above_with};
use cow_split::{Holder, RowAbove};
use frame_pool::FramePool;
use page_list::{ListId, PageLists};
use vm_base::PageNo;

/// The most nodes that are tried on the way down from the sibling. A longer way is given up: the pages are then cut off
/// from the rows above one by one, which is slower.
pub(crate) const MOST_NODES: u64 = 64;

/// The most pages without a witness that are cut off one by one. More pages are cut off on one way over all nodes above.
pub(crate) const FEW_PAGES: u64 = 4;

/// The most nodes on the way up whose other child is asked. If none of them is a witness, further ones are not asked: the
/// way up would take several times as long.
pub(crate) const MOST_ASKED: u64 = 16;

/// The way down from the sibling, as far as it has come. The pages `from` to below `to` of node `at` lie in its window.
/// They come to the pages of the leaf's parent that are `shift` pages further on, past no row above the node.
#[derive(Clone, Copy)]
pub(crate) struct Way {
    pub(crate) at: NodeId,
    pub(crate) shift: PageNo,
    pub(crate) from: PageNo,
    pub(crate) to: PageNo,
}

/// What is left of the pages of a VMO's node: those of the span that are not passed over.
#[derive(Clone, Copy)]
pub(crate) struct Rest {
    pub(crate) span: Span,
    pub(crate) skip: Pages,
}

/// Leaves pages of a VMO's node out of sight that another VMO shows too, and answers these pages. Afterwards they show
/// nothing but what the parent holds. They come to the parent as the span says, and to no row of the parent, unless
/// the parent is spared.
///
/// The call goes down from the sibling to a VMO's node, the witness. At each node it takes the child with the widest
/// window over the pages that go on above the parent. A page of the witness that comes to a page of the parent sees
/// above the parent what the leaf sees there, so no row changes. Pages under rows on the way down are cut off one by
/// one. It gives up after `MOST_NODES` nodes.
pub(crate) fn leave_out_beside(
    arena: &CowArena,
    lists: &mut PageLists,
    frames: &mut FramePool,
    jumps: Option<&JumpTable>,
    family: Family,
    span: Span,
) -> Pages
    requires passing { (above : Node) → nodes_of arena.now family.hidden.0 ≡ Some above →
        IsOnItsWayUp arena.now lists.old frames.old family.leaf.0 span.first no_pages above span.shift span.to span.to }
    requires family { IsFamilyOf arena.now family.leaf.0 family.hidden.0 family.sibling.0 }
    requires base { (node : Node) → nodes_of arena.now family.leaf.0 ≡ Some node → span.shift ≡ node.first }
    requires range { span.first + span.shift < 2 ^ 64 }
    requires jumps { MayJump (tree_of arena.now lists.old) (option_copied jumps) }
    ensures passing { (spared : Option NodeId) (above : Node) → nodes_of arena.now family.hidden.0 ≡ Some above →
        IsPassing arena.now lists.old frames.old family.leaf.0 span.first no_pages spared above span.shift span.to span.to →
        IsPassing arena.now lists.new frames.new family.leaf.0 span.first result spared above span.shift span.to span.to }
    ensures lost { Moves arena.now lists.old lists.new frames.old frames.new family.leaf.0 span.first IsPartOf }
    ensures kept { (above : Node) → nodes_of arena.now family.hidden.0 ≡ Some above → slots_of lists.new above.list.0 ≡ slots_of lists.old above.list.0 }
{
    let window = Window {
        leaf: family.leaf,
        hidden: family.hidden,
        shift: span.shift,
    };
    let end = span.to.min(arena.node(family.hidden).seen);
    let mut way = enter(arena, family.sibling, 0, span.first + span.shift, end);
    let mut left = MOST_NODES;
    while left > 0 && way.from < way.to {
        let node = arena.node(way.at);
        cut_under(arena, lists, frames, jumps, window, way);
        if node.koid.is_some() {
            return pages_of(way, span.shift);
        }
        let child = wider(arena, lists, way);
        way = enter(arena, child, way.shift, way.from, way.to);
        left -= 1;
    }
    Pages { from: 0, to: 0 }
}

/// Returns the way one node further down, to a child of a node. The way had the pages `from` to below `to` of that
/// node, which come to pages of the leaf's parent `shift` further on. If none of them lies in the child's window, the
/// new way has no pages.
pub(crate) fn enter(arena: &CowArena, child: NodeId, shift: PageNo, from: PageNo, to: PageNo) -> Way
    requires child { IsSome (nodes_of arena.now child.0) }
    ensures { (node : Node) → nodes_of arena.now child.0 ≡ Some node → IsEntered node child shift from to result }
{
    let node = arena.node(child);
    Way {
        at: child,
        shift: shift.saturating_add(node.first),
        from: from.saturating_sub(node.first),
        to: to.saturating_sub(node.first).min(node.seen),
    }
}

/// Returns the pages of the leaf that come to the same pages of its parent as the pages of a way. Pages of the leaf
/// come to pages of the parent `shift` further on.
pub(crate) fn pages_of(way: Way, shift: PageNo) -> Pages
    requires from { shift ≤ way.from + way.shift }
    requires to { way.to + way.shift < 2 ^ 64 }
    requires some { way.from < way.to }
    ensures from { result.from + shift ≡ way.from + way.shift }
    ensures to { result.to + shift ≡ way.to + way.shift }
{
    Pages {
        from: way.from + way.shift - shift,
        to: way.to + way.shift - shift,
    }
}

/// Returns the child of a hidden node into which the way goes on: the one whose window has more of the way's pages. If
/// both have as many, it is one that is a VMO's node, or else one without rows.
pub(crate) fn wider(arena: &CowArena, lists: &PageLists, way: Way) -> NodeId
    requires forest { IsForest (nodes_of arena.now) arena.now.lists }
    requires hidden { IsSomeAnd (nodes_of arena.now way.at.0) (λ node. node.koid ≡ None) }
    ensures { IsChild (nodes_of arena.now) way.at.0 result.0 }
{
    let node = arena.node(way.at);
    let Some(one) = node.left else { unreachable!() };
    let Some(other) = node.right else {
        unreachable!()
    };
    if is_wider(arena, lists, other, one, way) {
        other
    } else {
        one
    }
}

/// Reports whether the way goes on to `child` and not to `other`.
fn is_wider(arena: &CowArena, lists: &PageLists, child: NodeId, other: NodeId, way: Way) -> bool
    requires child { IsSome (nodes_of arena.now child.0) }
    requires other { IsSome (nodes_of arena.now other.0) }
{
    let here = enter(arena, child, way.shift, way.from, way.to);
    let there = enter(arena, other, way.shift, way.from, way.to);
    let pages = here.to.saturating_sub(here.from);
    let beside = there.to.saturating_sub(there.from);
    beside < pages || (pages == beside && is_nearer(arena, lists, child, other))
}

/// Reports whether the way prefers `node` to `other`, if both windows have as many pages: `other` is no VMO's node, and
/// `node` is one or has no rows.
fn is_nearer(arena: &CowArena, lists: &PageLists, node: NodeId, other: NodeId) -> bool
    requires node { IsSome (nodes_of arena.now node.0) }
    requires other { IsSome (nodes_of arena.now other.0) }
{
    if arena.node(other).koid.is_some() {
        return false;
    }
    arena.node(node).koid.is_some() || lists.next(arena.node(node).list, 0).is_none()
}

/// Cuts the pages of a VMO's node off from the rows above its parent, if they come there under rows of the list of a
/// node on the way down. Pages that the parent holds are left alone.
fn cut_under(
    arena: &CowArena,
    lists: &mut PageLists,
    frames: &mut FramePool,
    jumps: Option<&JumpTable>,
    window: Window,
    way: Way,
)
    requires down { IsGoingDown arena.now lists.old frames.old window.leaf.0 window.hidden.0 window.shift way }
    requires jumps { MayJump (tree_of arena.now lists.old) (option_copied jumps) }
    ensures beside { (first : ℕ) (spared : Option NodeId) (above : Node) (to : ℕ) (s : Side) →
        IsBeside arena.now lists.old frames.old window.leaf.0 first spared window.hidden.0 above window.shift to s way way.from →
        IsBeside arena.now lists.new frames.new window.leaf.0 first spared window.hidden.0 above window.shift to s way way.to
        × Moves arena.now lists.old lists.new frames.old frames.new window.leaf.0 first IsPartOf }
    ensures kept { (above : Node) → nodes_of arena.now window.hidden.0 ≡ Some above → slots_of lists.new above.list.0 ≡ slots_of lists.old above.list.0 }
{
    let list = arena.node(way.at).list;
    let mut from = way.from;
    while let Some(page) = next_below(lists, list, from, way.to) {
        let own = page + way.shift - window.shift;
        cut_page(arena, lists, frames, jumps, window, own);
        from = page + 1;
    }
}

/// Cuts pages that have no witness off one by one, if there are jumps and the pages are few. They are those of the rest
/// that go on above the parent, to which they have come. Each page goes up to its row by jumps, so the call does not pass
/// every node above. It answers the pages to pass over from then on: those passed over before, and those cut off.
pub(crate) fn cut_few(
    arena: &CowArena,
    lists: &mut PageLists,
    frames: &mut FramePool,
    jumps: Option<&JumpTable>,
    start: Arrival,
    rest: Rest,
) -> Pages
    requires passing { IsOnItsWayUp arena.now lists.old frames.old start.leaf.0 rest.span.first rest.skip start.node rest.span.shift rest.span.to rest.span.to }
    requires start { nodes_of arena.now start.at.0 ≡ Some start.node }
    requires jumps { MayJump (tree_of arena.now lists.old) (option_copied jumps) }
    ensures passing { (spared : Option NodeId) →
        IsPassing arena.now lists.old frames.old start.leaf.0 rest.span.first rest.skip spared start.node rest.span.shift rest.span.to rest.span.to →
        IsPassing arena.now lists.new frames.new start.leaf.0 rest.span.first result spared start.node rest.span.shift rest.span.to rest.span.to }
    ensures lost { Moves arena.now lists.old lists.new frames.old frames.new start.leaf.0 rest.span.first IsPartOf }
    ensures kept { slots_of lists.new start.node.list.0 ≡ slots_of lists.old start.node.list.0 }
{
    let span = rest.span;
    let end = span.to.min(start.node.seen).saturating_sub(span.shift);
    let mut done = from_on(rest.skip, span.first);
    if jumps.is_none() || !are_few(done, span.first, end) {
        return rest.skip;
    }
    let window = Window {
        leaf: start.leaf,
        hidden: start.at,
        shift: span.shift,
    };
    let mut left = FEW_PAGES;
    while left > 0 {
        let Some((own, more)) = one_more(done, span.first, end) else {
            return done;
        };
        cut_page(arena, lists, frames, jumps, window, own);
        done = more;
        left -= 1;
    }
    done
}

/// Returns the pages to pass over further up. They are those that were passed over before, and those that the other child
/// of a node shows too, if it is a VMO's node: a witness. The rest has come to the node from the arrival's side, and to no
/// row of it. The witness is right for pages up to the first row of its own. If `left` is 0, no child is asked.
pub(crate) fn skip_beside(
    arena: &CowArena,
    lists: &PageLists,
    arrival: Arrival,
    rest: Rest,
    left: u64,
) -> Pages
    requires forest { IsForest (nodes_of arena.now) arena.now.lists }
    requires node { nodes_of arena.now arrival.at.0 ≡ Some arrival.node }
    requires way { Reaches (bare_of arena.now) arrival.leaf.0 rest.span.first arrival.side arrival.at.0 (rest.span.first + rest.span.shift) }
    requires range { rest.span.first + rest.span.shift < 2 ^ 64 }
    ensures { (pool : Pool) (spared : Option NodeId) →
        IsPassing arena.now lists.now pool arrival.leaf.0 rest.span.first rest.skip spared arrival.node rest.span.shift rest.span.to rest.span.to →
        IsPassing arena.now lists.now pool arrival.leaf.0 rest.span.first result spared arrival.node rest.span.shift rest.span.to rest.span.to }
{
    if left == 0 {
        return rest.skip;
    }
    let span = rest.span;
    let Some(child) = other_child(arrival.node, arrival.side) else {
        return rest.skip;
    };
    let beside = arena.node(child);
    if beside.koid.is_none() {
        return rest.skip;
    }
    let way = enter(arena, child, 0, span.first + span.shift, span.to);
    let to = bare_until(lists, beside.list, way.from, way.to);
    if to <= way.from {
        return rest.skip;
    }
    let shared = pages_of(Way { to, ..way }, span.shift);
    joined(rest.skip, shared)
}

/// Returns the child of a node on the other side than this one.
fn other_child(node: Node, side: Side) -> Option<NodeId>
    ensures { result ≡ child_on node (other_side side) }
{
    match side {
        Side::Left => node.right,
        Side::Right => node.left,
    }
}

/// Returns the first page of a list that has a row, from `from` on and below `to`, or else `to`.
fn bare_until(lists: &PageLists, list: ListId, from: PageNo, to: PageNo) -> PageNo
    ensures most { result ≤ to }
    ensures bare { (p : ℕ) → from ≤ p → p < result → slots_of lists.now list.0 p ≡ None }
{
    match next_below(lists, list, from, to) {
        Some(page) => page,
        None => to,
    }
}

/// Returns both `pages` and `more`, if there is no page between them, and else `more`.
fn joined(pages: Pages, more: Pages) -> Pages
    ensures { (q : ℕ) → IsOutside pages q → IsOutside more q → IsOutside result q }
{
    if pages.to < more.from || more.to < pages.from || pages.to <= pages.from {
        return more;
    }
    Pages {
        from: pages.from.min(more.from),
        to: pages.to.max(more.to),
    }
}

/// Returns the pages of `pages` from `first` on. If there are none, both ends are at or past `first`.
fn from_on(pages: Pages, first: PageNo) -> Pages
    ensures { (q : ℕ) → first ≤ q → IsOutside pages q → IsOutside result q }
{
    Pages {
        from: pages.from.max(first),
        to: pages.to.max(first),
    }
}

/// Reports whether at most `FEW_PAGES` pages from `first` to below `end` are outside `pages`.
fn are_few(pages: Pages, first: PageNo, end: PageNo) -> bool {
    let before = pages.from.saturating_sub(first);
    let behind = end.saturating_sub(pages.to);
    before.saturating_add(behind) <= FEW_PAGES
}

/// Returns a page beside `pages` that is from `first` to below `end`, and `pages` with this page: the page before them, or
/// else the page behind them.
fn one_more(pages: Pages, first: PageNo, end: PageNo) -> Option<(PageNo, Pages)>
    ensures { IfSome result (λ more. IsOneMore first pages more.0 more.1) }
{
    if first < pages.from {
        let page = pages.from - 1;
        return Some((
            page,
            Pages {
                from: page,
                to: pages.to,
            },
        ));
    }
    if first <= pages.to && pages.to < end {
        let to = pages.to + 1;
        return Some((
            pages.to,
            Pages {
                from: pages.from,
                to,
            },
        ));
    }
    None
}

/// Cuts a page of a VMO's node off from the row above that it sees, and gives the frame back if no other VMO shows it.
/// The page has no row of its own. If it sees a row of the parent, nothing changes.
fn cut_page(
    arena: &CowArena,
    lists: &mut PageLists,
    frames: &mut FramePool,
    jumps: Option<&JumpTable>,
    window: Window,
    own: PageNo,
)
    requires exact { IsExactFor arena.now lists.old frames.old window.leaf.0 }
    requires bare { (node : Node) → nodes_of arena.now window.leaf.0 ≡ Some node → slots_of lists.old node.list.0 own ≡ None }
    requires jumps { MayJump (tree_of arena.now lists.old) (option_copied jumps) }
    ensures cut { (out : ℕ → ℕ → Bool) → IsExact (tree_of arena.now lists.old) out (is_taken frames.old) → IsOnlyOf out window.leaf.0 →
        HasCutOff arena.now lists.old lists.new frames.old frames.new window.leaf.0 own
        (ShowsOnlyOf (tree_of arena.now lists.old) window.leaf.0 own window.hidden.0) out }
    ensures kept { (above : Node) → nodes_of arena.now window.hidden.0 ≡ Some above → slots_of lists.new above.list.0 ≡ slots_of lists.old above.list.0 }
{
    let found = above_with(arena, lists, jumps, window.leaf, own);
    if let Holder::Above {
        node,
        page,
        side,
        slot,
    } = found
    {
        if node.0 == window.hidden.0 {
            return;
        }
        let row = RowAbove {
            node,
            page,
            side,
            slot,
        };
        cut_off(arena, lists, frames, window.leaf, own, row);
    }
}
