//! What the line of a node says.

ghost use Rattle.std.specs.Prelude.{◌≡◌, ℕ, ◌+◌, ◌*◌, ◌≤◌, ◌++◌, length, take, Some, IsSome};
ghost use Rattle.cow_arena.specs.declared.node.Node.{Node};
ghost use Rattle.cow_arena.specs.Nodes.{Nodes, nodes_of, node_above};
ghost use Rattle.cow_arena.specs.Forest.{IsForest};
ghost use Rattle.tree_text.specs.Order.{place_below_parent};
ghost use Rattle.tree_text.specs.Text.{bits_text, slot_text, row_text, name_text, node_text, branch, rail, rails_cut, rails, indented, before_text, edge_text, head_text, tail_text, counts_text, open_text, close_text};

use crate::walking::place;
use cow_arena::{CowArena, Node, NodeId, Side};
use cow_forest::CowForest;
use page_list::Slot;
use page_store::PageStore;
use vm_base::PageNo;
use word_text::{put, put_decimal, put_field, put_number};

/// The form of the text.
#[derive(Clone, Copy, Debug, PartialEq, Eq)]
pub enum Form {
    /// A drawing by indented lines, which are comments in a script.
    Drawing,
    /// A graph, as graphviz reads it.
    Graph,
}

/// The most levels above a node by which its line is indented. The line of a deeper node begins with two dots. That loses nothing: a hidden
/// node has two children and a VMO's node none, so the order of the lines alone says which node stands below which.
pub const LEVELS: usize = 16;

/// The bytes that a line takes up to its rows, at most.
pub(crate) const HEAD_ROOM: usize = 256;

/// The bytes that a row takes, at most.
pub(crate) const ROW_ROOM: usize = 64;

/// Writes what stands before all nodes: what is counted, and what opens a graph. Returns where it ends.
pub(crate) fn write_opening(form: Form, forest: &CowForest, out: &mut [u8]) -> usize
    requires { HEAD_ROOM ≤ length out.old }
    ensures text { take result out.new ≡ counts_text forest.now ++ open_text form }
    ensures end { result ≤ length out.new }
{
    let end = write_counts(forest, out);
    put(opening(form), out, end)
}

/// Returns what opens the text behind the counts.
fn opening(form: Form) -> &'static [u8]
    ensures text { result.now ≡ open_text form }
    ensures short { length result.now ≤ 40 }
{
    match form {
        Form::Drawing => b"",
        Form::Graph => b"digraph {\nnode [shape=box]\n",
    }
}

/// Returns what closes the text.
pub(crate) fn closing(form: Form) -> &'static [u8]
    ensures { result.now ≡ close_text form }
{
    match form {
        Form::Drawing => b"",
        Form::Graph => b"}\n",
    }
}

/// Writes what is counted, with its line feed, and returns where it ends.
fn write_counts(forest: &CowForest, out: &mut [u8]) -> usize
    requires { HEAD_ROOM ≤ length out.old }
    ensures line { take result out.new ≡ counts_text forest.now }
    ensures end { result ≤ 128 }
{
    let (vmos, hidden, rows) = (forest.vmos(), forest.hidden(), forest.rows());
    let at = put(b"#", out, 0);
    let at = put_field(b" vmos=", vmos, out, at);
    let at = put_field(b" hidden=", hidden, out, at);
    let at = put_field(b" rows=", rows, out, at);
    put(b"\n", out, at)
}

/// Writes the line of a node up to its rows, and returns where that ends.
pub(crate) fn write_head(form: Form, arena: &CowArena, at: NodeId, out: &mut [u8]) -> usize
    requires forest { IsForest (nodes_of arena.now) arena.now.lists }
    requires node { IsSome (nodes_of arena.now at.0) }
    requires room { HEAD_ROOM ≤ length out.old }
    ensures head { (node : Node) → nodes_of arena.now at.0 ≡ Some node →
        take result out.new ≡ head_text form (nodes_of arena.now) at.0 node }
    ensures end { result ≤ length out.new }
{
    let end = write_before(form, arena, at, out);
    put_node(arena.node(at), out, end)
}

/// Writes what stands before a node, and returns where it ends.
fn write_before(form: Form, arena: &CowArena, at: NodeId, out: &mut [u8]) -> usize
    requires forest { IsForest (nodes_of arena.now) arena.now.lists }
    requires node { IsSome (nodes_of arena.now at.0) }
    requires room { HEAD_ROOM ≤ length out.old }
    ensures text { (node : Node) → nodes_of arena.now at.0 ≡ Some node →
        take result out.new ≡ before_text form (nodes_of arena.now) at.0 node }
    ensures end { result ≤ 128 }
{
    match form {
        Form::Drawing => write_indent(arena, at, out),
        Form::Graph => write_label(arena.node(at), out),
    }
}

/// Writes what stands before a node in a drawing, and returns where it ends.
fn write_indent(arena: &CowArena, at: NodeId, out: &mut [u8]) -> usize
    requires forest { IsForest (nodes_of arena.now) arena.now.lists }
    requires node { IsSome (nodes_of arena.now at.0) }
    requires room { HEAD_ROOM ≤ length out.old }
    ensures text { (node : Node) → take result out.new ≡ before_text Form.Drawing (nodes_of arena.now) at.0 node }
    ensures end { result ≤ 128 }
{
    let end = put(b"#    ", out, 0);
    put_indent(arena, at, out, end)
}

/// Writes what stands before a node in a graph, and returns where it ends.
fn write_label(node: Node, out: &mut [u8]) -> usize
    requires { HEAD_ROOM ≤ length out.old }
    ensures text { (nodes : Nodes) (k : ℕ) → take result out.new ≡ before_text Form.Graph nodes k node }
    ensures end { result ≤ 128 }
{
    let end = put(b"\"", out, 0);
    let end = put_name(node, out, end);
    put(b"\" [label=\"", out, end)
}

/// Writes what stands behind the rows of a node, and returns where it ends.
pub(crate) fn write_tail(form: Form, arena: &CowArena, at: NodeId, out: &mut [u8]) -> usize
    requires forest { IsForest (nodes_of arena.now) arena.now.lists }
    requires node { IsSome (nodes_of arena.now at.0) }
    requires room { HEAD_ROOM ≤ length out.old }
    ensures tail { (node : Node) → nodes_of arena.now at.0 ≡ Some node →
        take result out.new ≡ tail_text form (nodes_of arena.now) at.0 node }
    ensures end { result ≤ length out.new }
{
    match form {
        Form::Drawing => put(b" ]\n", out, 0),
        Form::Graph => {
            let end = put(b" ]\"]\n", out, 0);
            put_edge(arena, at, out, end)
        }
    }
}

/// Writes the line that leads to a node from its parent, if it has one.
fn put_edge(arena: &CowArena, at: NodeId, out: &mut [u8], end: usize) -> usize
    requires forest { IsForest (nodes_of arena.now) arena.now.lists }
    requires node { IsSome (nodes_of arena.now at.0) }
    requires room { end + 128 ≤ length out.old }
    ensures written { (node : Node) → nodes_of arena.now at.0 ≡ Some node →
        take result out.new ≡ take end out.old ++ edge_text node (node_above (nodes_of arena.now) at.0) }
    ensures end { result ≤ end + 128 }
{
    let node = arena.node(at);
    let Some(parent) = node.parent else {
        return end;
    };
    let above = arena.node(parent);
    let end = put(b"\"", out, end);
    let end = put_name(above, out, end);
    let end = put(b"\" -> \"", out, end);
    let end = put_name(node, out, end);
    put(b"\"\n", out, end)
}

/// Writes what stands before a node, behind the first `end` bytes of `out`, which stay, and returns where it ends.
fn put_indent(arena: &CowArena, at: NodeId, out: &mut [u8], end: usize) -> usize
    requires forest { IsForest (nodes_of arena.now) arena.now.lists }
    requires node { IsSome (nodes_of arena.now at.0) }
    requires room { end + 4 * LEVELS + 8 ≤ length out.old }
    ensures written { take result out.new ≡ take end out.old ++ indented (nodes_of arena.now) (place_below_parent (nodes_of arena.now) at.0) }
    ensures end { result ≤ end + 4 * LEVELS + 8 }
{
    let Some(up) = place(arena, at) else {
        return end;
    };
    let end = put_rails(arena, up.0, LEVELS, out, end);
    put(branch(up.1), out, end)
}

/// Writes the rails of a node and of those above it, `levels` at most. Two dots before them say that there are more.
fn put_rails(arena: &CowArena, at: NodeId, levels: usize, out: &mut [u8], end: usize) -> usize
    requires forest { IsForest (nodes_of arena.now) arena.now.lists }
    requires node { IsSome (nodes_of arena.now at.0) }
    requires room { end + 4 * levels + 4 ≤ length out.old }
    ensures written { take result out.new ≡ take end out.old ++ rails (nodes_of arena.now) levels at.0 }
    ensures end { result ≤ end + 4 * levels + 4 }
{
    if levels == 0 {
        return put(rails_cut(arena, at), out, end);
    }
    let Some(up) = place(arena, at) else {
        return end;
    };
    let end = put_rails(arena, up.0, levels - 1, out, end);
    put(rail(up.1), out, end)
}

/// Returns what stands in place of the rails of a node and of those above it: two dots, if it has a rail.
fn rails_cut(arena: &CowArena, at: NodeId) -> &'static [u8]
    requires forest { IsForest (nodes_of arena.now) arena.now.lists }
    requires node { IsSome (nodes_of arena.now at.0) }
    ensures text { result.now ≡ rails_cut (place_below_parent (nodes_of arena.now) at.0) }
    ensures len { length result.now ≤ 4 }
{
    match place(arena, at) {
        Some(_) => b"..  ",
        None => b"",
    }
}

/// Returns what stands before the line of a node on this side.
fn branch(side: Side) -> &'static [u8]
    ensures text { result.now ≡ branch side }
    ensures len { length result.now ≡ 4 }
{
    match side {
        Side::Left => b"|-- ",
        Side::Right => b"`-- ",
    }
}

/// Returns what stands before the lines below a node on this side.
fn rail(side: Side) -> &'static [u8]
    ensures text { result.now ≡ rail side }
    ensures len { length result.now ≡ 4 }
{
    match side {
        Side::Left => b"|   ",
        Side::Right => b"    ",
    }
}

/// Writes the name of a node, its page count and its window.
fn put_node(node: Node, out: &mut [u8], at: usize) -> usize
    requires { at + 128 ≤ length out.old }
    ensures written { take result out.new ≡ take at out.old ++ node_text node }
    ensures end { result ≤ at + 128 }
{
    let at = put_name(node, out, at);
    let at = put_field(b" pages=", node.count, out, at);
    let at = put_field(b" first=", node.first, out, at);
    let at = put_field(b" seen=", node.seen, out, at);
    put(b" [", out, at)
}

/// Writes the name of a node.
fn put_name(node: Node, out: &mut [u8], at: usize) -> usize
    requires { at + 27 ≤ length out.old }
    ensures written { take result out.new ≡ take at out.old ++ name_text node.list.0 node.koid }
    ensures end { result ≤ at + 27 }
{
    match node.koid {
        Some(koid) => put_field(b"VMO ", koid.0, out, at),
        None => put_field(b"hidden ", node.list.0, out, at),
    }
}

/// Writes a row, and returns where it ends.
pub(crate) fn write_row(page: PageNo, slot: Slot, out: &mut [u8]) -> usize
    requires { ROW_ROOM ≤ length out.old }
    ensures row { take result out.new ≡ row_text page slot }
    ensures end { result ≤ length out.new }
{
    let at = put_number(page, out, 0);
    let at = put(b":", out, at);
    put_slot(slot, out, at)
}

/// Writes what a row says of its page.
fn put_slot(slot: Slot, out: &mut [u8], at: usize) -> usize
    requires { at + 24 ≤ length out.old }
    ensures written { take result out.new ≡ take at out.old ++ slot_text slot }
    ensures end { result ≤ at + 24 }
{
    match slot {
        Slot::Frame { tag, left, right } => {
            let at = put_decimal(tag.0 as u64, out, at);
            put(bits(left, right), out, at)
        }
        Slot::Zero => put(b"zero", out, at),
    }
}

/// Returns the letters of the split bits that are set.
fn bits(left: bool, right: bool) -> &'static [u8]
    ensures text { result.now ≡ bits_text left right }
    ensures short { length result.now ≤ 2 }
{
    match (left, right) {
        (false, false) => b"",
        (false, true) => b"R",
        (true, false) => b"L",
        (true, true) => b"LR",
    }
}
