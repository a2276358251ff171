//! What a snapshot does to the tree.

ghost use Rattle.std.specs.Prelude.{◌≡◌, ℕ, ◌+◌, ◌≤◌, ◌<◌, ◌^◌, Bool, IsSome, IsSomeAnd, IfOk, OnErr};
ghost use Rattle.vm_base.specs.Search.{IsFirstOrNone};
ghost use Rattle.page_list.specs.Lists.{slots_of, row_count, has_row};
ghost use Rattle.cow_arena.specs.Nodes.{nodes_of};
ghost use Rattle.cow_arena.specs.Counts.{hidden_count, visible_count};
ghost use Rattle.cow_split.specs.Trees.{tree_of};
ghost use Rattle.cow_split.specs.Exact.{IsExact, all_in_sight};
ghost use Rattle.cow_fork.specs.Snapshots.{ArePlain, split_slots, hidden_slots};
ghost use Rattle.cow_fork.specs.Sharing.{HasShared};

use cow_arena::{CowArena, NodeId, Pair};
use page_list::{ListId, PageLists, Slot};
use vm_base::{HostMemory, Koid, PageNo};

/// A snapshot of a VMO. It has `count` pages, and the first `seen` of them are those of the VMO from page `first` on.
#[derive(Clone, Copy)]
pub struct Snapshot {
    pub koid: Koid,
    pub first: PageNo,
    pub seen: PageNo,
    pub count: PageNo,
}

/// Puts a hidden node over the node of a VMO and the new node of a snapshot of it. Two nodes are added, and no row. The
/// rows of the VMO's list become the hidden node's. Each is marked as seen from the left, and as seen from the right if
/// the snapshot sees it. The call looks only at rows outside the pages that the snapshot sees.
///
/// `HostMemory`, with nothing changed, if the host has too little memory. Fewer than 2^64 - 2 lists were given before.
pub fn share(
    arena: &mut CowArena,
    lists: &mut PageLists,
    leaf: NodeId,
    snapshot: Snapshot,
) -> Result<Pair, HostMemory>
    requires exact { (in_use : ℕ → Bool) × IsExact (tree_of arena.old lists.old) all_in_sight in_use }
    requires leaf { IsSomeAnd (nodes_of arena.old leaf.0) (λ node. IsSome node.koid × (snapshot.first + snapshot.seen ≤ node.count)) }
    requires seen { snapshot.seen ≤ snapshot.count }
    requires lists { arena.old.lists + 2 < 2 ^ 64 }
    ensures ok { IfOk result (λ pair.
        HasShared arena.old arena.new lists.old lists.new leaf.0 pair snapshot.koid snapshot.first snapshot.seen snapshot.count) }
    ensures err { OnErr result (nodes_of arena.new ≡ nodes_of arena.old) }
    ensures err_lists { OnErr result (arena.new.lists ≡ arena.old.lists) }
    ensures err_hidden { OnErr result (hidden_count arena.new ≡ hidden_count arena.old) }
    ensures err_visible { OnErr result (visible_count arena.new ≡ visible_count arena.old) }
    ensures err_rows { OnErr result (lists.new ≡ lists.old) }
{
    let Snapshot {
        koid,
        first,
        seen,
        count,
    } = snapshot;
    let node = arena.node(leaf);
    let pair = arena.add_pair(leaf, koid, first, seen, count)?;
    split_rows(lists, node.list, first, seen, node.count);
    Ok(pair)
}

/// Sets the bits of the rows of a list of `count` pages whose node got two children. The left child sees all of the
/// rows, and the right one those of `seen` pages from page `first` on. The function looks only at rows outside these
/// pages.
fn split_rows(lists: &mut PageLists, list: ListId, first: PageNo, seen: PageNo, count: PageNo)
    requires plain { ArePlain (slots_of lists.old) list.0 count }
    requires window { first + seen ≤ count }
    ensures slots { slots_of lists.new ≡ split_slots (slots_of lists.old) list.0 first seen }
    ensures count { row_count lists.new ≡ row_count lists.old }
    ensures spare { lists.new.spare ≡ lists.old.spare }
{
    hide_rows(lists, list, 0, first);
    hide_rows(lists, list, first + seen, count);
}

/// Marks the rows of the pages from `from` to below `end` as seen by no VMO on the right.
fn hide_rows(lists: &mut PageLists, list: ListId, from: PageNo, end: PageNo)
    ensures slots { slots_of lists.new ≡ hidden_slots (slots_of lists.old) list.0 from end }
    ensures count { row_count lists.new ≡ row_count lists.old }
    ensures spare { lists.new.spare ≡ lists.old.spare }
{
    let mut at = from;
    while let Some(page) = next_below(lists, list, at, end) {
        hide_row(lists, list, page);
        at = page + 1;
    }
}

/// Returns the first page from `from` to below `end` that has a row. `None` if and only if there is none.
fn next_below(lists: &PageLists, list: ListId, from: PageNo, end: PageNo) -> Option<PageNo>
    ensures { IsFirstOrNone (has_row (slots_of lists.now list.0)) from end result }
{
    if end <= from {
        return None;
    }
    match lists.next(list, from) {
        Some(page) if page < end => Some(page),
        _ => None,
    }
}

/// Marks the row of a page, if it has one, as seen by no VMO on the right.
fn hide_row(lists: &mut PageLists, list: ListId, page: PageNo)
    ensures slots { slots_of lists.new ≡ hidden_slots (slots_of lists.old) list.0 page (page + 1) }
    ensures count { row_count lists.new ≡ row_count lists.old }
    ensures spare { lists.new.spare ≡ lists.old.spare }
{
    let Some(slot) = lists.find(list, page) else {
        return;
    };
    if let Slot::Frame { tag, left, .. } = slot {
        let hidden = Slot::Frame {
            tag,
            left,
            right: true,
        };
        lists.replace(list, page, hidden);
    }
}
