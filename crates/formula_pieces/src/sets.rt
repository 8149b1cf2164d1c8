// A set of labels as text.
ghost use Rattle.std.specs.Prelude.{true, cond, [], ◌∷◌, ◌++◌, ◌≡◌, ◌<◌};
ghost use Rattle.lts.specs.Steps.{labels};
ghost use Rattle.lts.specs.inner.Prepared.{table_in, name_at};
ghost use Rattle.actl.specs.Prepared.{mask_within};
ghost use Rattle.written_back.specs.FormulaText.{set_text, members, joined};
ghost use Rattle.formula_pieces.specs.inner.Adds.{Adds, Over, label_text};

use crate::text::{put, put_name};
use formula_sets::all_labels;
use formulas::conditions::in_set;
use tables::prepared::label_count;

// The name of label k + 1, behind a `|` if it is not the first.
fn put_member(first: bool, table: &[u8], k: usize, out: &mut [u8], at: usize) -> usize
    requires { Over table.now out.old at 14 × (k < labels (table_in table.now)) }
    ensures { Adds (cond first [] (124 ∷ []) ++ name_at table.now k) at out.old out.new result }
{
    if first {
        return put_name(table, k, out, at);
    }
    let end = put(out, at, b'|');
    put_name(table, k, out, end)
}

// Label k + 1, if the set has it. The first one of the set begins at `start`.
fn put_label(set: u64, start: usize, table: &[u8], k: usize, out: &mut [u8], at: usize) -> usize
    requires { Over table.now out.old at 14 × (k < labels (table_in table.now)) }
    ensures { Adds (label_text set start at k (name_at table.now k)) at out.old out.new result }
{
    if !in_set(set, k + 1) {
        return at;
    }
    put_member(at == start, table, k, out, at)
}

// The names of a set's labels by rising number, joined by `|`.
fn put_members(table: &[u8], set: u64, out: &mut [u8], at: usize) -> usize
    requires { Over table.now out.old at 560 }
    ensures { Adds (joined (members (table_in table.now).names set)) at out.old out.new result }
{
    let count = label_count(table);
    let mut end = at;
    for k in 0..count {
        end = put_label(set, at, table, k, out, end);
    }
    end
}

// 02: "`*` for all labels, `~*` for the empty set. If there are no labels, `*` is written."
pub fn put_set(table: &[u8], set: u64, out: &mut [u8], at: usize) -> usize
    requires { Over table.now out.old at 562 × (mask_within (labels (table_in table.now)) set ≡ true) }
    ensures { Adds (set_text (table_in table.now).names set) at out.old out.new result }
{
    if set == all_labels(table) {
        return put(out, at, b'*');
    }
    if set == 0 {
        let end = put(out, at, b'~');
        return put(out, end, b'*');
    }
    put_members(table, set, out, at)
}
