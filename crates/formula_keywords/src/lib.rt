// A keyword with what stands in its square brackets, as text.
#![tactic(auto)]

ghost use Rattle.std.specs.Prelude.{true, [], ◌∷◌, ◌++◌, ◌≡◌};
ghost use Rattle.lts.specs.Steps.{labels};
ghost use Rattle.lts.specs.inner.Prepared.{table_in};
ghost use Rattle.actl.specs.Prepared.{mask_within};
ghost use Rattle.written_back.specs.FormulaText.{set_text, cond_text, in_square};
ghost use Rattle.formulas.specs.inner.Access.{cond_in};
ghost use Rattle.formula_pieces.specs.inner.Adds.{Room, Adds, Over, CondWithin};

use formula_pieces::sets::put_set;
use formula_pieces::text::put;
use formulas::node::Condition;

fn put_condition(table: &[u8], condition: Condition, out: &mut [u8], at: usize) -> usize
    requires { Over table.now out.old at 562 × CondWithin (labels (table_in table.now)) (cond_in condition) }
    ensures { Adds (cond_text (table_in table.now).names (cond_in condition)) at out.old out.new result }
{
    match condition {
        Condition::Silent => put(out, at, b'.'),
        Condition::Labels(set) => put_set(table, set, out, at),
    }
}

// A keyword's two letters and its `[`.
fn open(first: u8, second: u8, out: &mut [u8], at: usize) -> usize
    requires { Room out.old at 3 }
    ensures { Adds (first ∷ second ∷ 91 ∷ []) at out.old out.new result }
{
    let one = put(out, at, first);
    let two = put(out, one, second);
    put(out, two, b'[')
}

// 02: "no blanks except one after each `]`"
fn shut(out: &mut [u8], at: usize) -> usize
    requires { Room out.old at 2 }
    ensures { Adds (93 ∷ 32 ∷ []) at out.old out.new result }
{
    let end = put(out, at, b']');
    put(out, end, b' ')
}

// EX, AX or EU[A], by its letters.
pub fn put_keyword(
    first: u8,
    second: u8,
    table: &[u8],
    condition: Condition,
    out: &mut [u8],
    at: usize,
) -> usize
    requires { Over table.now out.old at 567 × CondWithin (labels (table_in table.now)) (cond_in condition) }
    ensures { Adds (first ∷ second ∷ in_square (cond_text (table_in table.now).names (cond_in condition))) at out.old out.new result }
{
    let inside = open(first, second, out, at);
    let behind = put_condition(table, condition, out, inside);
    shut(out, behind)
}

// Two sets, joined by `;`.
fn put_pair(table: &[u8], first: u64, second: u64, out: &mut [u8], at: usize) -> usize
    requires { Over table.now out.old at 1125 × (mask_within (labels (table_in table.now)) first ≡ true)
        × (mask_within (labels (table_in table.now)) second ≡ true) }
    ensures { Adds (set_text (table_in table.now).names first ++ (59 ∷ set_text (table_in table.now).names second))
        at out.old out.new result }
{
    let between = put_set(table, first, out, at);
    let other = put(out, between, b';');
    put_set(table, second, out, other)
}

// EU[A;B]
pub fn put_until_then(table: &[u8], first: u64, second: u64, out: &mut [u8], at: usize) -> usize
    requires { Over table.now out.old at 1130 × (mask_within (labels (table_in table.now)) first ≡ true)
        × (mask_within (labels (table_in table.now)) second ≡ true) }
    ensures { Adds (69 ∷ 85 ∷ in_square (set_text (table_in table.now).names first ++ (59 ∷ set_text (table_in table.now).names second)))
        at out.old out.new result }
{
    let inside = open(b'E', b'U', out, at);
    let behind = put_pair(table, first, second, out, inside);
    shut(out, behind)
}
