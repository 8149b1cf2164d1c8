// From two texts to the automaton in one call.
#![tactic(auto)]

ghost use Rattle.std.specs.Prelude.{◌≤◌, length};
ghost use Rattle.actl.specs.Sizes.{formula_length};
ghost use Rattle.lts.specs.Sizes.{table_length};
ghost use Rattle.explanations.specs.Explanation.{explanation};
ghost use Rattle.explaining.specs.Promise.{Promise};
ghost use Rattle.explaining.specs.Outcome.{Outcome};

use crate::explained::Explained;
use crate::finishing::finish;
pub use crate::readings::read_both;
use actl::sizes::FORMULA_LENGTH;
use lts::sizes::TABLE_LENGTH;
use replies::Answer;

pub mod explained;
mod finishing;
mod readings;

// The figures of refusal 14.
const TABLE_FIGURE: u64 = TABLE_LENGTH as u64;

const FORMULA_FIGURE: u64 = FORMULA_LENGTH as u64;

// Reads both texts, each call on what the one before left, and builds: verdict, class, rows and edges, or the refusal of the call that refused.
pub fn explain(
    tabletext: &[u8],
    formulatext: &[u8],
    table: &mut [u8],
    formula: &mut [u8],
    rows: &mut [u8],
    edges: &mut [u8],
) -> Result<Explained, Answer>
    ensures { Promise tabletext.now formulatext.now
        table.old table.new formula.old formula.new
        rows.old rows.new edges.old edges.new result }
{
    if table.len() < TABLE_LENGTH {
        return Err(Answer {
            number: 14,
            figure: TABLE_FIGURE,
        });
    }
    if formula.len() < FORMULA_LENGTH {
        return Err(Answer {
            number: 14,
            figure: FORMULA_FIGURE,
        });
    }
    explain_into(table, formula, rows, edges, tabletext, formulatext)
}

// The same, into buffers that are long enough. They stay as they were until nothing can be refused any more.
fn explain_into(
    table: &mut [u8],
    formula: &mut [u8],
    rows: &mut [u8],
    edges: &mut [u8],
    tabletext: &[u8],
    formulatext: &[u8],
) -> Result<Explained, Answer>
    requires { (table_length ≤ length table.old) × (formula_length ≤ length formula.old) }
    ensures { Outcome (explanation tabletext.now formulatext.now rows.old edges.old) result
        table.old table.new formula.old formula.new
        rows.old rows.new edges.old edges.new }
{
    let mut t = [0u8; TABLE_LENGTH];
    let mut f = [0u8; FORMULA_LENGTH];
    read_both(tabletext, formulatext, &mut t, &mut f)?;
    finish(&t, table, &f, formula, rows, edges)
}
