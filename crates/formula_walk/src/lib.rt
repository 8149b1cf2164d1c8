// One walk over a formula's nodes: each writes itself, and behind an arm's T comes what is pending, `)` and `|` as bytes.
#![tactic(auto)]

ghost use Rattle.std.specs.Prelude.{true, ◌≡◌, ◌+◌, length, false};
ghost use Rattle.lts.specs.Steps.{labels};
ghost use Rattle.lts.specs.inner.HoldsTable.{HoldsTable};
ghost use Rattle.lts.specs.inner.Prepared.{table_in};
ghost use Rattle.actl.specs.inner.HoldsFormula.{HoldsFormula};
ghost use Rattle.actl.specs.Sizes.{longest_text};
ghost use Rattle.actl.specs.Prepared.{slot_within};
ghost use Rattle.formulas.specs.inner.Access.{slot_of_node};
ghost use Rattle.formula_pieces.specs.inner.Adds.{Room, Over};
ghost use Rattle.formula_walk.specs.inner.Walk.{Walks, Stack, drained, rested, stack_of, opening, written_at, arm_after, pending_after, TextAdded};

use formula_keywords::{put_keyword, put_until_then};
use formula_pieces::text::put;
use formulas::node::{Condition, Node, node_at, node_count};

// Two bytes for each node.
const PENDING: usize = 80;

// Where the text ends so far, how much is pending, and whether the next node is an arm that stands in brackets if it is a `|`.
#[derive(Drop)]
pub struct Place {
    at: usize,
    top: usize,
    arm: bool,
}

// Behind T: what is pending, up to the next `|`.
fn close(pending: &[u8], top: usize, out: &mut [u8], at: usize) -> Place
    requires { Stack pending.now top × Room out.old at 80 }
    ensures { Walks (drained (stack_of pending.now top)) (rested (stack_of pending.now top)) true
        top at out.old out.new pending.now pending.now result }
{
    let mut end = at;
    for left in (0..top).rev() {
        let b = pending[left];
        end = put(out, end, b);
        if b == b'|' {
            return Place {
                at: end,
                top: left,
                arm: true,
            };
        }
    }
    Place {
        at: end,
        top: 0,
        arm: true,
    }
}

// A `|`: its own byte is pending behind its left arm, a `)` behind its right one.
fn open(arm: bool, pending: &mut [u8], top: usize, out: &mut [u8], at: usize) -> Place
    requires { Stack pending.old (top + 2) × Room out.old at 1 }
    ensures { Walks (opening arm 3) (pending_after 3 arm (stack_of pending.old top)) false
        top at out.old out.new pending.old pending.new result }
{
    if arm {
        pending[top] = b')';
        pending[top + 1] = b'|';
        return Place {
            at: put(out, at, b'('),
            top: top + 2,
            arm: false,
        };
    }
    pending[top] = b'|';
    Place {
        at,
        top: top + 1,
        arm: false,
    }
}

fn write_node(
    table: &[u8],
    node: Node,
    arm: bool,
    pending: &mut [u8],
    top: usize,
    out: &mut [u8],
    at: usize,
) -> Place
    requires over { Over table.now out.old at 1250 × Stack pending.old (top + 2) }
    requires node_value { slot_within (labels (table_in table.now)) (slot_of_node node) ≡ true }
    ensures { Walks (written_at (table_in table.now).names (slot_of_node node) arm (stack_of pending.old top))
        (pending_after (slot_of_node node).kind arm (stack_of pending.old top)) (arm_after (slot_of_node node).kind)
        top at out.old out.new pending.old pending.new result }
{
    let end = match node {
        Node::True => {
            let end = put(out, at, b'T');
            return close(pending, top, out, end);
        }
        Node::Or => return open(arm, pending, top, out, at),
        Node::Not => put(out, at, b'~'),
        Node::Ex(condition) => put_keyword(b'E', b'X', table, condition, out, at),
        Node::Ax(condition) => put_keyword(b'A', b'X', table, condition, out, at),
        Node::Until(set) => put_keyword(b'E', b'U', table, Condition::Labels(set), out, at),
        Node::UntilThen(first, second) => put_until_then(table, first, second, out, at),
    };
    Place {
        at: end,
        top,
        arm: true,
    }
}

// All of the text, from the start of `out`; its length.
pub fn write_nodes(table: &[u8], formula: &[u8], out: &mut [u8]) -> usize
    requires holds_table { HoldsTable table.now × (length out.old ≡ longest_text) }
    requires holds_formula { HoldsFormula (labels (table_in table.now)) formula.now }
    ensures { TextAdded table.now formula.now out.old out.new result }
{
    let count = node_count(formula);
    let mut pending = [0u8; PENDING];
    let mut at: usize = 0;
    let mut top: usize = 0;
    let mut arm = false;
    for k in 0..count {
        let node = node_at(formula, k);
        let next = write_node(table, node, arm, &mut pending, top, out, at);
        at = next.at;
        top = next.top;
        arm = next.arm;
    }
    at
}
