// Where every node of a prepared formula holds: from the last node to the first, so that arms come before their node.
ghost use Rattle.std.specs.Prelude.{◌≡◌, ◌+◌, ◌<◌, length, get_or};
ghost use Rattle.actl.specs.Sizes.{most_nodes};
ghost use Rattle.actl.specs.inner.Sizes.{node_positions};
ghost use Rattle.lts.specs.Steps.{labels};
ghost use Rattle.lts.specs.inner.Prepared.{table_in};
ghost use Rattle.lts.specs.inner.HoldsTable.{HoldsTable};
ghost use Rattle.table_steps.specs.inner.StepArray.{StepsOf};
ghost use Rattle.until_search.specs.inner.Flags.{node_holds, Flags};
ghost use Rattle.labelling.specs.inner.Rows.{row_at, RowIn, RowOf};
ghost use Rattle.until_search.specs.inner.Links.{Linked};
ghost use Rattle.labelling.specs.inner.Nodes.{RowPut, ArmsLabelled, NodeRow, NodesLabelled};
ghost use Rattle.actl.specs.inner.HoldsFormula.{HoldsFormula, ArmsEnd};

use crate::steps::label_at_once;
use actl::sizes::{NODE_POSITIONS, NODES};
use formula_classes::right_arm;
use formulas::node::{Node, node_at, node_count};
use lts::sizes::{FIRSTS, STATES, STEPS};
use tables::prepared::state_count;
use until_search::links::entering;
use until_search::until;

// Where a node holds, from where its arms hold.
fn label_node(
    table: &[u8],
    steps: &[u16; STEPS],
    firsts: &[u16; FIRSTS],
    links: &[u16; STEPS],
    node: Node,
    flags: &[bool; NODE_POSITIONS],
    arm: usize,
    other: usize,
    found: &mut [bool; STATES],
)
    requires holds_table { HoldsTable table.now }
    requires steps_of { StepsOf (table_in table.now) steps.now firsts.now }
    requires linked { Linked (table_in table.now) links.now × RowIn arm × RowIn other }
    ensures { Flags (table_in table.now).states
        (node_holds (table_in table.now) node (row_at flags.now arm) (row_at flags.now other)) found.new }
{
    *found = label_at_once(steps, firsts, state_count(table), node, flags, arm, other);
    match node {
        Node::True => {}
        Node::Not => {}
        Node::Or => {}
        Node::Ex(_) => {}
        Node::Ax(_) => {}
        Node::Until(set) => *found = until(table, links, set, found),
        Node::UntilThen(set, _) => *found = until(table, links, set, found),
    }
}

// Where the row of node k begins; of some other one, if there is no place for such a node.
fn row_of(k: usize) -> usize
    ensures { RowOf k result }
{
    if k < NODES { k * STATES } else { 0 }
}

fn put_row(flags: &mut [bool; NODE_POSITIONS], k: usize, found: &[bool; STATES])
    requires k_lt_most_nodes { k < most_nodes }
    requires flags_len { length flags.old ≡ node_positions }
    ensures { RowPut k found.now flags.old flags.new }
{
    let at = k * STATES;
    flags[at..at + STATES].copy_from_slice(found);
}

// The row of node k, from the rows of its arms.
fn row_from_arms(
    table: &[u8],
    steps: &[u16; STEPS],
    firsts: &[u16; FIRSTS],
    links: &[u16; STEPS],
    formula: &[u8],
    ends: &[u8; NODES],
    flags: &[bool; NODE_POSITIONS],
    k: usize,
    found: &mut [bool; STATES],
)
    requires { ArmsLabelled table.now steps.now firsts.now links.now formula.now ends.now flags.now k }
    ensures { NodeRow table.now formula.now k found.new }
{
    let node = node_at(formula, k);
    let arm = row_of(k + 1);
    let other = row_of(right_arm(ends, k));
    label_node(table, steps, firsts, links, node, flags, arm, other, found);
}

// Node k and state s at k * 256 + s, whatever stood there.
pub fn label_nodes(
    table: &[u8],
    steps: &[u16; STEPS],
    firsts: &[u16; FIRSTS],
    formula: &[u8],
    ends: &[u8; NODES],
    flags: &mut [bool; NODE_POSITIONS],
)
    requires holds_table { HoldsTable table.now }
    requires steps_of { StepsOf (table_in table.now) steps.now firsts.now }
    requires holds_formula { HoldsFormula (labels (table_in table.now)) formula.now }
    requires arms_end { ArmsEnd (labels (table_in table.now)) formula.now ends.now }
    requires flags_len { length flags.old ≡ node_positions }
    ensures { NodesLabelled table.now formula.now flags.new }
{
    let mut links = [0u16; STEPS];
    entering(table, &mut links);
    let mut found = [false; STATES];
    for k in (0..node_count(formula)).rev() {
        row_from_arms(
            table, steps, firsts, &links, formula, ends, flags, k, &mut found,
        );
        put_row(flags, k, &found);
    }
}
