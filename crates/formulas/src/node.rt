// A prepared formula's nodes: how many there are, and each node's kind with its step condition, read and written.
ghost use Rattle.std.specs.Prelude.{◌≡◌, true, ◌+◌, ◌*◌, ◌<◌, ◌≤◌, length, get_or};
ghost use Rattle.columns.specs.Bytes.{low_first};
ghost use Rattle.columns.specs.inner.Write.{pasted};
ghost use Rattle.actl.specs.Sizes.{most_nodes, node_slot_length, formula_length};
ghost use Rattle.actl.specs.inner.Prepared.{slot_at};
ghost use Rattle.actl.specs.Prepared.{slot, next_slot};
ghost use Rattle.actl.specs.inner.NodeBytes.{put_at};
ghost use Rattle.formulas.specs.inner.Access.{cond_in, slot_of_node};
ghost use Rattle.actl.specs.inner.Shaped.{shaped};

use actl::sizes::NODE_SLOT;
use byte_words::words::word;

// 01: "A step condition is either the silent step or a set of labels." Bit a of a mask is label a.
#[derive(Clone, Copy)]
pub enum Condition {
    Silent,
    Labels(u64),
}

// T, ~, |, EX, AX, EU[A], EU[A;B]. The left (or only) arm of node k is node k + 1.
#[derive(Clone, Copy)]
pub enum Node {
    True,
    Not,
    Or,
    Ex(Condition),
    Ax(Condition),
    Until(u64),
    UntilThen(u64, u64),
}

// The masks in the slot of node k.
pub fn first_mask(formula: &[u8], k: usize) -> u64
    requires { (formula_length ≤ length formula.now) × (k < most_nodes) }
    ensures { result ≡ (slot_at formula.now k).first }
{
    word(formula, 2 + k * NODE_SLOT)
}

pub fn second_mask(formula: &[u8], k: usize) -> u64
    requires { (formula_length ≤ length formula.now) × (k < most_nodes) }
    ensures { result ≡ (slot_at formula.now k).second }
{
    word(formula, 10 + k * NODE_SLOT)
}

pub fn node_count(formula: &[u8]) -> usize
    requires { formula_length ≤ length formula.now }
    ensures { result ≡ get_or formula.now 0 0 }
{
    formula[0] as usize
}

// Node k of a formula. `shaped` holds of every node's slot (proofs/Laws/Prepared.antt).
pub fn node_at(formula: &[u8], k: usize) -> Node
    requires formula_length_in_bounds { formula_length ≤ length formula.now }
    requires k_lt_most_nodes { k < most_nodes }
    requires k_value { shaped (slot_at formula.now k) ≡ true }
    ensures { slot_of_node result ≡ slot_at formula.now k }
{
    match formula[1 + k * NODE_SLOT] {
        1 => Node::True,
        2 => Node::Not,
        3 => Node::Or,
        4 => Node::Ex(Condition::Silent),
        5 => Node::Ex(Condition::Labels(first_mask(formula, k))),
        6 => Node::Ax(Condition::Silent),
        7 => Node::Ax(Condition::Labels(first_mask(formula, k))),
        8 => Node::Until(first_mask(formula, k)),
        _ => Node::UntilThen(first_mask(formula, k), second_mask(formula, k)),
    }
}

// What a node's slot holds (docs/FORMATS.md).
#[derive(Clone, Copy)]
struct Slot {
    kind: u8,
    first: u64,
    second: u64,
}

const EMPTY: Slot = Slot {
    kind: 0,
    first: 0,
    second: 0,
};

// The slot of EX or AX: the kind of the silent step, and of a set the kind behind it.
fn next_slot(kind: u8, condition: Condition) -> Slot
    requires { kind < 255 }
    ensures { slot result.kind result.first result.second ≡ next_slot kind (cond_in condition) }
{
    match condition {
        Condition::Silent => Slot { kind, ..EMPTY },
        Condition::Labels(set) => Slot {
            kind: kind + 1,
            first: set,
            ..EMPTY
        },
    }
}

fn slot_of(node: Node) -> Slot
    ensures { slot result.kind result.first result.second ≡ slot_of_node node }
{
    match node {
        Node::True => Slot { kind: 1, ..EMPTY },
        Node::Not => Slot { kind: 2, ..EMPTY },
        Node::Or => Slot { kind: 3, ..EMPTY },
        Node::Ex(condition) => next_slot(4, condition),
        Node::Ax(condition) => next_slot(6, condition),
        Node::Until(first) => Slot {
            kind: 8,
            first,
            ..EMPTY
        },
        Node::UntilThen(first, second) => Slot {
            kind: 9,
            first,
            second,
        },
    }
}

// A mask, low byte first.
fn put_mask(formula: &mut [u8], at: usize, mask: u64)
    requires { at + 8 ≤ length formula.old }
    ensures { formula.new ≡ pasted formula.old at (low_first 8 mask) }
{
    formula[at..at + 8].copy_from_slice(&mask.to_le_bytes());
}

// Writes node k where `node_at` reads it.
pub fn put_node(formula: &mut [u8], k: usize, node: Node)
    requires { 1 + k * node_slot_length + node_slot_length ≤ length formula.old }
    ensures { formula.new ≡ put_at k (slot_of_node node) formula.old }
{
    let slot = slot_of(node);
    let at = 1 + k * NODE_SLOT;
    formula[at] = slot.kind;
    put_mask(formula, at + 1, slot.first);
    put_mask(formula, at + 9, slot.second);
}
