// From the prepared bytes that both readings left to the rows, the edges and the answer.
ghost use Rattle.std.specs.Prelude.{◌≡◌, ◌≤◌, length};
ghost use Rattle.actl.specs.Sizes.{formula_length};
ghost use Rattle.lts.specs.Sizes.{table_length};
ghost use Rattle.explaining.specs.Outcome.{Outcome};
ghost use Rattle.explaining.specs.inner.Told.{verdict_told};
ghost use Rattle.explanations.specs.inner.BothTexts.{Read, HoldsBoth, listing_of, ClassIn};

use crate::explained::Explained;
use building::building::built;
use byte_copy::copy;
use formula_classes::shape_of;
use replies::{Answer, accepted, build_answer, build_edges};

// The class of a prepared formula.
fn class_of(formula: &[u8]) -> u64
    requires { formula_length ≤ length formula.now }
    ensures { ClassIn formula.now result }
{
    let shape = shape_of(formula);
    let classes = shape.classes;
    u64::from(classes[0])
}

// The verdict, by what building wrote: the count of edges and the final mark of row 0.
fn verdict_told(edges: u64, mark: u8, class: u64) -> u64
    ensures { result ≡ verdict_told edges mark class }
{
    let explained = 0 < edges || mark == 1;
    let holds = if class == 1 { explained } else { !explained };
    if holds { 1 } else { 0 }
}

// Builds, and hands the prepared bytes over if nothing was refused.
pub fn finish(
    t: &[u8],
    table: &mut [u8],
    f: &[u8],
    formula: &mut [u8],
    rows: &mut [u8],
    edges: &mut [u8],
) -> Result<Explained, Answer>
    requires t_len { (length t.now ≡ table_length) × (length f.now ≡ formula_length) }
    requires table_length_in_bounds { (table_length ≤ length table.old) × (formula_length ≤ length formula.old) }
    requires holds_both { (x : Read) × HoldsBoth t.now f.now x }
    ensures { (x : Read) → HoldsBoth t.now f.now x → Outcome (listing_of x rows.old edges.old) result
        table.old table.new formula.old formula.new
        rows.old rows.new edges.old edges.new }
{
    let reply = built(t, f, rows, edges);
    let row_count = accepted(build_answer(reply))?;
    let count = build_edges(reply, 0);
    let class = class_of(f);
    let mark = rows[2];
    let holds = verdict_told(count, mark, class);
    copy(t, table);
    copy(f, formula);
    Ok(Explained {
        verdict: holds,
        class,
        rows: row_count,
        edges: count,
    })
}
