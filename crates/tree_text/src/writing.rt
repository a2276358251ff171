//! Pushing the text of the tree, line by line.

ghost use Rattle.std.specs.Prelude.{◌≡◌, ◌^◌, IsSome, None};
ghost use Rattle.script_io.specs.Faults.{HasCause};
ghost use Rattle.line_server.specs.Outcome.{SinkTakes};
ghost use Rattle.page_list.specs.Lists.{slots_of};
ghost use Rattle.cow_arena.specs.Nodes.{nodes_of, link_to};
ghost use Rattle.cow_arena.specs.Forest.{IsForest};
ghost use Rattle.cow_split.specs.Trees.{tree_of};
ghost use Rattle.cow_forest.specs.Store.{tree};
ghost use Rattle.tree_text.specs.Order.{place_below_parent, nodes_below, tree_nodes, all_nodes, HasEachNodeOnce};
ghost use Rattle.tree_text.specs.Text.{row_text, rows_text, text_of_node, lines_text, forest_text};

use crate::lines::{
    Form, HEAD_ROOM, ROW_ROOM, closing, write_head, write_opening, write_row, write_tail,
};
use crate::walking::{first_root, next_node};
use cow_arena::{CowArena, NodeId};
use cow_forest::CowForest;
use page_list::{ListId, PageLists, Slot};
use page_store::PageStore;
use script_io::{Sink, push_all};
use vm_base::{Failed, Koid, PageNo};

/// Pushes the text of the clone tree in a form: a line of counts, and one line for each node. The trees come by the koid of the leaf that
/// is furthest to the left, and no number in the text depends on where a node stands in memory. `Failed` if the sink failed, and then
/// it took a front part of the text.
///
/// It takes no memory.
pub fn write_forest<K: Sink>(form: Form, forest: &CowForest, sink: &mut K) -> Result<(), Failed>
    ensures text { SinkTakes result (K.contents sink.old) (K.contents sink.new) (forest_text form forest.now) }
    ensures nodes { HasEachNodeOnce forest.now (all_nodes forest.now) }
    ensures cause { HasCause (K.faults sink.old) (K.faults sink.new) result }
{
    // What always holds of the tree is said here.
    let _nodes = forest.arena();
    let mut out = [0; HEAD_ROOM];
    let end = write_opening(form, forest, &mut out);
    let Ok(()) = push_all(sink, &out[..end]) else {
        return Err(Failed);
    };
    let Ok(()) = write_trees(form, forest, sink) else {
        return Err(Failed);
    };
    push_all(sink, closing(form))
}

/// Pushes the lines of all nodes, tree by tree.
fn write_trees<K: Sink>(form: Form, forest: &CowForest, sink: &mut K) -> Result<(), Failed>
    ensures text { SinkTakes result (K.contents sink.old) (K.contents sink.new) (lines_text form (tree forest.now) (all_nodes forest.now)) }
    ensures cause { HasCause (K.faults sink.old) (K.faults sink.new) result }
{
    let next = forest.next_koid().0;
    for v in 0..next {
        let Ok(()) = write_tree(form, forest, Koid(v), sink) else {
            return Err(Failed);
        };
    }
    Ok(())
}

/// Pushes the lines of the tree whose leaf furthest to the left is the node of a VMO, if there is one.
fn write_tree<K: Sink>(form: Form, forest: &CowForest, v: Koid, sink: &mut K) -> Result<(), Failed>
    ensures text { SinkTakes result (K.contents sink.old) (K.contents sink.new) (lines_text form (tree forest.now) (tree_nodes forest.now v.0)) }
    ensures cause { HasCause (K.faults sink.old) (K.faults sink.new) result }
{
    match first_root(forest, v) {
        Some(root) => write_nodes(form, forest.arena(), forest.lists(), root, sink),
        None => Ok(()),
    }
}

/// Pushes the lines of a root and of all nodes below it.
fn write_nodes<K: Sink>(
    form: Form,
    arena: &CowArena,
    lists: &PageLists,
    root: NodeId,
    sink: &mut K,
) -> Result<(), Failed>
    requires forest { IsForest (nodes_of arena.now) arena.now.lists }
    requires node { IsSome (nodes_of arena.now root.0) }
    requires top { place_below_parent (nodes_of arena.now) root.0 ≡ None }
    ensures text { SinkTakes result (K.contents sink.old) (K.contents sink.new)
        (lines_text form (tree_of arena.now lists.now) (nodes_below (nodes_of arena.now) arena.now.lists (link_to root.0))) }
    ensures cause { HasCause (K.faults sink.old) (K.faults sink.new) result }
{
    let mut here = Some(root);
    while let Some(at) = here {
        let next = next_node(arena, at);
        let Ok(()) = write_node(form, arena, lists, at, sink) else {
            return Err(Failed);
        };
        here = next;
    }
    Ok(())
}

/// Pushes the line of a node.
fn write_node<K: Sink>(
    form: Form,
    arena: &CowArena,
    lists: &PageLists,
    at: NodeId,
    sink: &mut K,
) -> Result<(), Failed>
    requires forest { IsForest (nodes_of arena.now) arena.now.lists }
    requires node { IsSome (nodes_of arena.now at.0) }
    ensures text { SinkTakes result (K.contents sink.old) (K.contents sink.new)
        (text_of_node form (tree_of arena.now lists.now) at.0 (nodes_of arena.now at.0)) }
    ensures cause { HasCause (K.faults sink.old) (K.faults sink.new) result }
{
    let list = arena.node(at).list;
    let mut out = [0; HEAD_ROOM];
    let end = write_head(form, arena, at, &mut out);
    let Ok(()) = push_all(sink, &out[..end]) else {
        return Err(Failed);
    };
    let Ok(()) = write_rows(lists, list, sink) else {
        return Err(Failed);
    };
    let end = write_tail(form, arena, at, &mut out);
    push_all(sink, &out[..end])
}

/// Pushes the rows of a list.
fn write_rows<K: Sink>(lists: &PageLists, list: ListId, sink: &mut K) -> Result<(), Failed>
    ensures text { SinkTakes result (K.contents sink.old) (K.contents sink.new) (rows_text (slots_of lists.now list.0) (2 ^ 64) 0) }
    ensures cause { HasCause (K.faults sink.old) (K.faults sink.new) result }
{
    let mut from = 0;
    while let Some(page) = lists.next(list, from) {
        let Some(slot) = lists.find(list, page) else {
            unreachable!()
        };
        let Ok(()) = push_row(page, slot, sink) else {
            return Err(Failed);
        };
        let Some(after) = page.checked_add(1) else {
            return Ok(());
        };
        from = after;
    }
    Ok(())
}

/// Pushes a row.
fn push_row<K: Sink>(page: PageNo, slot: Slot, sink: &mut K) -> Result<(), Failed>
    ensures text { SinkTakes result (K.contents sink.old) (K.contents sink.new) (row_text page slot) }
    ensures cause { HasCause (K.faults sink.old) (K.faults sink.new) result }
{
    let mut out = [0; ROW_ROOM];
    let end = write_row(page, slot, &mut out);
    push_all(sink, &out[..end])
}
