// Where the nodes of a formula hold, and the verdict.
#![tactic(auto)]

use actl::sizes::NODE_POSITIONS;
use formula_check::inputs::{Unprepared, check_inputs};
use formula_classes::shape_of;
use lts::sizes::{FIRSTS, STEPS};
use table_steps::fill_steps;
use tables::prepared::start_state;

pub mod nodes;
mod steps;

ghost use Rattle.std.specs.Prelude.{◌≡◌, length};
ghost use Rattle.actl.specs.inner.Sizes.{node_positions};
ghost use Rattle.lts.specs.Steps.{labels};
ghost use Rattle.lts.specs.inner.Prepared.{table_in};
ghost use Rattle.lts.specs.inner.HoldsTable.{HoldsTable};
ghost use Rattle.labelling.specs.inner.Nodes.{AtStart, NodesLabelled};
ghost use Rattle.actl.specs.inner.HoldsFormula.{HoldsFormula};
ghost use Rattle.satisfaction.specs.VerdictAsked.{verdict_replied, VerdictAnswered};
ghost use Rattle.labelling.specs.Replies.{verdict_reply};

// What holds at every node of a prepared formula, at every state of a prepared table: node k and state s at k * 256 + s, whatever stood there.
pub fn label_table(table: &[u8], formula: &[u8], flags: &mut [bool; NODE_POSITIONS])
    requires holds_table { HoldsTable table.now }
    requires holds_formula { HoldsFormula (labels (table_in table.now)) formula.now }
    requires flags_len { length flags.old ≡ node_positions }
    ensures { NodesLabelled table.now formula.now flags.new }
{
    let mut steps = [0u16; STEPS];
    let mut firsts = [0u16; FIRSTS];
    fill_steps(table, &mut steps, &mut firsts);
    let shape = shape_of(formula);
    let ends = shape.ends;
    nodes::label_nodes(table, &steps, &firsts, formula, &ends, flags);
}

// Whether a prepared formula holds at the start of a prepared table.
fn holds_at_start(table: &[u8], formula: &[u8]) -> bool
    requires holds_table { HoldsTable table.now }
    requires holds_formula { HoldsFormula (labels (table_in table.now)) formula.now }
    ensures { AtStart table.now formula.now result }
{
    let mut flags = [false; NODE_POSITIONS];
    label_table(table, formula, &mut flags);
    let start = start_state(table);
    flags[start]
}

// Whether the formula holds at the start by Definition 3; 14, 10 in this order. specs/Replies.antt lists the number and the figure of each case.
pub fn verdict(table: &[u8], formula: &[u8]) -> Result<bool, Unprepared>
    ensures result_value { verdict_reply result ≡ verdict_replied table.now formula.now }
    ensures verdict_answered { VerdictAnswered table.now formula.now (verdict_reply result) }
{
    check_inputs(table, formula)?;
    Ok(holds_at_start(table, formula))
}
