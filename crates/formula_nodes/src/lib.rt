// The nodes of a text, written out and stored as in a prepared formula. Of more than 40 nodes no place is told: they are counted alone.
#![tactic(auto)]

ghost use Rattle.std.specs.Prelude.{◌≡◌, [], ◌++◌, ◌+◌, ◌≤◌, length};
ghost use Rattle.actl.specs.Sizes.{formula_length};
ghost use Rattle.actl.specs.Prepared.{slot_bytes};
ghost use Rattle.actl.specs.inner.NodeBytes.{NodesWritten, NodesMoved, NodesEnclosed, most_counted, or_bytes, not_bytes, and_bytes};
ghost use Rattle.formulas.specs.inner.Access.{slot_of_node};

use actl::sizes::{FORMULA_LENGTH, NODE_SLOT, NODES};
use formulas::node::{Node, put_node};

pub fn put(nodes: &mut [u8; FORMULA_LENGTH], n: usize, node: Node)
    requires { length nodes.old ≡ formula_length }
    ensures { NodesWritten n (n + 1) nodes.old nodes.new (slot_bytes (slot_of_node node)) }
{
    if n < NODES {
        put_node(nodes, n, node);
    }
}

// A node between two `~`.
pub fn put_dual(nodes: &mut [u8; FORMULA_LENGTH], n: usize, node: Node)
    requires { (length nodes.old ≡ formula_length) × (n ≤ most_counted) }
    ensures { NodesWritten n (n + 3) nodes.old nodes.new (not_bytes ++ (slot_bytes (slot_of_node node) ++ not_bytes)) }
{
    put(nodes, n, Node::Not);
    put(nodes, n + 1, node);
    put(nodes, n + 2, Node::Not);
}

// The nodes from `start` up to n move up by `count`.
fn move_up(nodes: &mut [u8; FORMULA_LENGTH], start: usize, n: usize, count: usize)
    requires { (length nodes.old ≡ formula_length) × (start ≤ n) × (n ≤ most_counted) × (count ≤ 3) }
    ensures { NodesMoved start n count nodes.old nodes.new }
{
    if n + count <= NODES {
        let low = 1 + start * NODE_SLOT;
        let top = 1 + n * NODE_SLOT;
        nodes.copy_within(low..top, low + count * NODE_SLOT);
    }
}

// `|` before the nodes from `start` up to n.
pub fn disjoin(nodes: &mut [u8; FORMULA_LENGTH], start: usize, n: usize)
    requires { (length nodes.old ≡ formula_length) × (start ≤ n) × (n ≤ most_counted) }
    ensures { NodesEnclosed start n 1 or_bytes [] nodes.old nodes.new }
{
    move_up(nodes, start, n, 1);
    put(nodes, start, Node::Or);
}

// 02: "`x & y` is `~(~x | ~y)`". The nodes from `start` up to n are those of x; those of y go behind the last `~`.
pub fn conjoin(nodes: &mut [u8; FORMULA_LENGTH], start: usize, n: usize)
    requires { (length nodes.old ≡ formula_length) × (start ≤ n) × (n ≤ most_counted) }
    ensures { NodesEnclosed start n 4 and_bytes not_bytes nodes.old nodes.new }
{
    move_up(nodes, start, n, 3);
    put_dual(nodes, start, Node::Or);
    put(nodes, n + 3, Node::Not);
}
