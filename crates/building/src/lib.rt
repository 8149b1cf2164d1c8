// Building the rows and edges of the automaton.
#![tactic(auto)]

use automaton::Totals;
use formula_check::inputs::{Unprepared, check_inputs};

pub mod building;
pub mod ready;

ghost use Rattle.std.specs.Prelude.{◌≡◌};
ghost use Rattle.building.specs.Replies.{build_reply};
ghost use Rattle.building.specs.declared.BuildRefusal.TheVariants as refused;
ghost use Rattle.automaton.specs.Build.{build_replied, rows_left, edges_left};
ghost use Rattle.explanations.specs.Demands.{FromPrepared};

// Why nothing is built. specs/Replies.antt lists the number and the figure of each case.
#[derive(Clone, Copy)]
pub enum BuildRefusal {
    RowsShort(usize),
    EdgesShort(usize),
    Unprepared(Unprepared),
}

impl From<Unprepared> for BuildRefusal {
    ghost from_gives = { λ why r. r ≡ refused.Unprepared why };

    fn from(why: Unprepared) -> BuildRefusal {
        BuildRefusal::Unprepared(why)
    }
}

// 01: rows and edges of the automaton, in the lent places, and how many they are; 14, 10, 11, 12 in this order. Demands 2 and 3 hold of what is left there.
pub fn build(
    table: &[u8],
    formula: &[u8],
    rows: &mut [u8],
    edges: &mut [u8],
) -> Result<Totals, BuildRefusal>
    ensures result_value { build_reply result ≡ build_replied table.now formula.now rows.old edges.old }
    ensures rows_after { rows.new ≡ rows_left table.now formula.now rows.old edges.old }
    ensures edges_after { edges.new ≡ edges_left table.now formula.now rows.old edges.old }
    ensures from_prepared { FromPrepared table.now formula.now (build_reply result) rows.new edges.new }
{
    check_inputs(table, formula)?;
    building::built(table, formula, rows, edges)
}
