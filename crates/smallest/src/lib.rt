// Building, and beside the rows and edges the smallest deterministic automaton with the same words.
#![tactic(auto)]

use crate::beside::beside;
use actl::sizes::FORMULA_LENGTH;
use automaton::Totals;
use deterministic::sizes::{SMALLEST_LENGTH, WORK_LENGTH};
use formula_check::inputs::{Unprepared, check_inputs};
use lts::sizes::TABLE_LENGTH;

mod beside;

ghost use Rattle.std.specs.Prelude.{◌≡◌, ◌≤◌, length};
ghost use Rattle.explanations.specs.Demands.{FromPrepared};
ghost use Rattle.deterministic.specs.Sizes.{smallest_length, work_length};
ghost use Rattle.deterministic.specs.SmallestAsked.{smallest_replied, smallest_rows, smallest_edges, smallest_left, smallest_work, cleared, SmallestAnswered};
ghost use Rattle.smallest.specs.Replies.{smallest_reply};
ghost use Rattle.smallest.specs.declared.SmallestRefusal.TheVariants as refused;
ghost use Rattle.smallest.specs.inner.Answered.{Answered};

// Why nothing is written. specs/Replies.antt lists the number and the figure of each case.
#[derive(Clone, Copy)]
pub enum SmallestRefusal {
    RowsShort(usize),
    EdgesShort(usize),
    SetsMany,
    Unprepared(Unprepared),
}

impl From<Unprepared> for SmallestRefusal {
    ghost from_gives = { λ why r. r ≡ refused.Unprepared why };

    fn from(why: Unprepared) -> SmallestRefusal {
        SmallestRefusal::Unprepared(why)
    }
}

// 01, of a work buffer: all zero after the call.
fn clear(work: &mut [u8])
    requires { work_length ≤ length work.old }
    ensures { work.new ≡ cleared work.old }
{
    work[..WORK_LENGTH].fill(0);
}

// Behind the lengths.
fn answer(
    table: &[u8],
    formula: &[u8],
    rows: &mut [u8],
    edges: &mut [u8],
    out: &mut [u8],
    work: &mut [u8],
) -> Result<Totals, SmallestRefusal>
    requires { (smallest_length ≤ length out.old) × (work_length ≤ length work.old) }
    ensures { Answered table.now formula.now rows.old edges.old out.old work.old
        result rows.new edges.new out.new work.new }
{
    check_inputs(table, formula)?;
    beside(table, formula, rows, edges, out, work)
}

// 02: "Beside a build's rows and edges, write to an output buffer a deterministic automaton with the same words and the fewest states". 14 for each
// buffer, 10, 11, 12, then 20. The work buffer is all zero after every call but 14.
pub fn smallest(
    table: &[u8],
    formula: &[u8],
    rows: &mut [u8],
    edges: &mut [u8],
    out: &mut [u8],
    work: &mut [u8],
) -> Result<Totals, SmallestRefusal>
    ensures result_value { smallest_reply result ≡ smallest_replied table.now formula.now rows.old edges.old out.old work.old }
    ensures rows_after { rows.new ≡ smallest_rows table.now formula.now rows.old edges.old out.old work.old }
    ensures edges_after { edges.new ≡ smallest_edges table.now formula.now rows.old edges.old out.old work.old }
    ensures out_after { out.new ≡ smallest_left table.now formula.now rows.old edges.old out.old work.old }
    ensures work_after { work.new ≡ smallest_work table.now formula.now rows.old edges.old out.old work.old }
    ensures from_prepared { FromPrepared table.now formula.now (smallest_reply result) rows.new edges.new }
    ensures smallest_answered { SmallestAnswered table.now formula.now (smallest_reply result) rows.new edges.new out.new }
{
    if table.len() < TABLE_LENGTH {
        return Err(SmallestRefusal::Unprepared(Unprepared::BufferShort(TABLE_LENGTH)));
    }
    if formula.len() < FORMULA_LENGTH {
        return Err(SmallestRefusal::Unprepared(Unprepared::BufferShort(FORMULA_LENGTH)));
    }
    if out.len() < SMALLEST_LENGTH {
        return Err(SmallestRefusal::Unprepared(Unprepared::BufferShort(SMALLEST_LENGTH)));
    }
    if work.len() < WORK_LENGTH {
        return Err(SmallestRefusal::Unprepared(Unprepared::BufferShort(WORK_LENGTH)));
    }
    let reply = answer(table, formula, rows, edges, out, work);
    clear(work);
    reply
}
