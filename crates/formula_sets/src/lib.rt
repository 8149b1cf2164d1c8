// Reading a set of labels: readers that call each other, each from a cursor to the cursor behind what it read.
#![tactic(auto)]

ghost use Rattle.std.specs.Prelude.{◌≡◌, ◌^◌, ◌<◌, ◌≤◌, suc, cond};
ghost use Rattle.std.proofs.Math.Option.{some};
ghost use Rattle.actl.specs.Sizes.{longest_text};
ghost use Rattle.lts.specs.inner.HoldsTable.{HoldsTable};
ghost use Rattle.lts.specs.Directions.{label_direction, same_direction};
ghost use Rattle.lts.specs.inner.Prepared.{table_in};
ghost use Rattle.lts.specs.Steps.{labels};
ghost use Rattle.actl.specs.Actions.{Action};
ghost use Rattle.actl.specs.Meaning.{labels_of};
ghost use Rattle.label_names.specs.inner.Names.{direction_in};
ghost use Rattle.actl.specs.inner.Cursor.{Named, Token, peek};
ghost use Rattle.actl.specs.inner.Readers.{names_in, OperandRead, ReaderStart, earlier};
ghost use Rattle.formula_sets.specs.inner.SetReplies.{WildcardAnswer, OperandAnswer, EnclosedAnswer, SetAnswer};
ghost use Rattle.formula_sets.specs.inner.OperandPhases.{MarkedLabels, NoOpening, without, SignsRead, Closes};

use formula_cursor::Cursor;
use label_names::{Direction, name_span, same_direction};

// A set of labels as a mask, and the place behind it. `lost` is 0 as long as the table has every name, and else one more
// than the offset of the first that it lacks: a number, since an Option would make each frame of the recursive readers longer.
#[derive(Clone, Copy)]
pub struct LabelSet {
    pub end: Cursor,
    pub mask: u64,
    pub lost: usize,
}

// What a formula is read over: a prepared table, which has the names of the labels, and the formula's text.
#[derive(Clone, Copy)]
pub struct Source<'a> {
    pub table: &'a [u8],
    pub text: &'a [u8],
}

// Behind the `~` before an operand, and whether they are odd in number.
#[derive(Drop)]
struct Signs {
    end: Cursor,
    odd: bool,
}

// 01: "`*` (all labels)". Label 0 is none of them.
pub fn all_labels(table: &[u8]) -> u64
    requires { HoldsTable table.now }
    ensures { result ≡ labels_of (names_in table.now) Action.any }
{
    (2u64 << tables::prepared::label_count(table)) - 2
}

// The direction of label k + 1, by the last byte of its name.
fn last_direction(table: &[u8], k: usize) -> Direction
    requires { HoldsTable table.now × (k < labels (table_in table.now)) }
    ensures { direction_in result ≡ label_direction (names_in table.now) (suc k) }
{
    let span = name_span(table, k);
    let end = span.to;
    let last = table[end - 1];
    match last {
        b'?' => Direction::Received,
        b'!' => Direction::Sent,
        _ => Direction::Neither,
    }
}

// The bit of label k + 1 if it has the direction, and else none.
fn directed_bit(table: &[u8], k: usize, wanted: Direction) -> u64
    requires { HoldsTable table.now × (k < labels (table_in table.now)) }
    ensures { result ≡ cond (same_direction (label_direction (names_in table.now) (suc k)) (direction_in wanted)) (2 ^ suc k) 0 }
{
    if same_direction(last_direction(table, k), wanted) {
        2u64 << k
    } else {
        0
    }
}

// 02: "an operand `?` is all received labels and an operand `!` all sent ones"
fn directed_labels(table: &[u8], wanted: Direction) -> u64
    requires { HoldsTable table.now }
    ensures { result ≡ labels_of (names_in table.now) (Action.directed (direction_in wanted)) }
{
    let count = tables::prepared::label_count(table);
    let mut mask = 0u64;
    for k in 0..count {
        mask += directed_bit(table, k, wanted);
    }
    mask
}

// The first offset so far is kept.
fn earlier_of(lost: usize, at: usize) -> usize
    requires { at < longest_text }
    ensures { result ≡ earlier lost (some at) }
{
    if lost == 0 { at + 1 } else { lost }
}

// A name's label, where the table has one.
fn label(source: &Source, c: Cursor, d: Cursor, lost: usize) -> LabelSet
    requires { ReaderStart source.now.table.now source.now.text.now c.at × Named source.now.text.now c.at d.at }
    ensures { OperandRead (names_in source.now.table.now) source.now.text.now c.at lost result.end.at result.mask result.lost }
{
    let at = c.at;
    let to = d.at;
    let x = label_names::find_label(source.table, &source.text[at..to]);
    match x {
        Some(a) => LabelSet {
            end: d,
            mask: 1u64 << a,
            lost,
        },
        None => LabelSet {
            end: d,
            mask: 0,
            lost: earlier_of(lost, at),
        },
    }
}

// 02: `?` or `!`, whichever the mark is.
fn directed_wildcard(
    source: &Source,
    c: Cursor,
    mark: u8,
    wanted: Direction,
) -> Option<(Cursor, u64)>
    requires { HoldsTable source.now.table.now }
    ensures { MarkedLabels source.now.text.now c.at mark (labels_of (names_in source.now.table.now) (Action.directed (direction_in wanted))) result }
{
    let d = c.mark(source.text, mark)?;
    Some((d, directed_labels(source.table, wanted)))
}

// 01: "`*` (all labels)"; 02: `?` and `!`.
fn wildcard_labels(source: &Source, c: Cursor) -> Option<(Cursor, u64)>
    requires { ReaderStart source.now.table.now source.now.text.now c.at }
    ensures { WildcardAnswer (names_in source.now.table.now) source.now.text.now c.at result }
{
    if let Some(d) = c.mark(source.text, b'*') {
        return Some((d, all_labels(source.table)));
    }
    if let Some(x) = directed_wildcard(source, c, b'?', Direction::Received) {
        return Some(x);
    }
    directed_wildcard(source, c, b'!', Direction::Sent)
}

// An operand that begins with neither `~` nor `(`.
fn bare_operand(source: &Source, c: Cursor, lost: usize) -> Result<LabelSet, Cursor>
    requires { ReaderStart source.now.table.now source.now.text.now c.at × NoOpening source.now.text.now c.at }
    ensures { OperandAnswer (names_in source.now.table.now) source.now.text.now c.at lost result }
{
    if let Some((end, mask)) = wildcard_labels(source, c) {
        return Ok(LabelSet { end, mask, lost });
    }
    let d = c.name(source.text).ok_or(c)?;
    Ok(label(source, c, d, lost))
}

// All labels but those that were read.
fn complement(table: &[u8], x: LabelSet) -> LabelSet
    requires { HoldsTable table.now × (x.mask ≤ labels_of (names_in table.now) Action.any) }
    ensures { result ≡ without (labels_of (names_in table.now) Action.any) x }
{
    LabelSet {
        mask: all_labels(table) - x.mask,
        ..x
    }
}

// The signs before an operand: each `~` with the blanks behind it is passed over by a loop, and takes no frame.
fn past_signs(text: &[u8], c: Cursor) -> Signs
    requires { Token text.now c.at }
    ensures { SignsRead text.now c.at result.end.at result.odd }
{
    let mut d = c;
    let mut odd = false;
    loop {
        let Some(e) = d.token(text, b'~') else {
            return Signs { end: d, odd };
        };
        d = e;
        odd = !odd;
    }
}

// What was read as a set, and the mark that ends its bracket.
fn closed(text: &[u8], x: LabelSet, mark: u8) -> Result<LabelSet, Cursor>
    ensures { Closes text.now mark x result }
{
    let end = x.end.mark(text, mark).ok_or(x.end)?;
    Ok(LabelSet { end, ..x })
}

// An operand with no `~` before it.
#[cycle(operand_set_unsigned)]
fn unsigned(source: &Source, c: Cursor, lost: usize) -> Result<LabelSet, Cursor>
    requires { ReaderStart source.now.table.now source.now.text.now c.at × (peek source.now.text.now c.at ≡ 126 → ⊥) }
    ensures { OperandAnswer (names_in source.now.table.now) source.now.text.now c.at lost result }
{
    if let Some(d) = c.token(source.text, b'(') {
        return closed(source.text, set(source, d, lost)?, b')');
    }
    bare_operand(source, c, lost)
}

// 01: "an operand is a name, `*` (all labels), `~` and an operand, or a set in round brackets"
#[cycle(operand_set_unsigned)]
fn operand(source: &Source, c: Cursor, lost: usize) -> Result<LabelSet, Cursor>
    requires { ReaderStart source.now.table.now source.now.text.now c.at }
    ensures { OperandAnswer (names_in source.now.table.now) source.now.text.now c.at lost result }
{
    let s = past_signs(source.text, c);
    let x = unsigned(source, s.end, lost)?;
    if s.odd {
        return Ok(complement(source.table, x));
    }
    Ok(x)
}

// 01: "A set is one or more operands joined by `|`". It is read with the blanks behind it.
#[cycle(operand_set_unsigned)]
pub fn set(source: &Source, c: Cursor, lost: usize) -> Result<LabelSet, Cursor>
    requires { ReaderStart source.now.table.now source.now.text.now c.at }
    ensures { SetAnswer (names_in source.now.table.now) source.now.text.now c.at lost result }
{
    let mut d = c;
    let mut mask = 0u64;
    let mut lacks = lost;
    loop {
        let x = operand(source, d, lacks)?;
        let end = x.end.skip_blanks(source.text);
        mask |= x.mask;
        lacks = x.lost;
        let Some(e) = end.token(source.text, b'|') else {
            return Ok(LabelSet {
                end,
                mask,
                lost: lacks,
            });
        };
        d = e;
    }
}

// A set, and the mark that ends its bracket.
pub fn enclosed(source: &Source, c: Cursor, mark: u8, lost: usize) -> Result<LabelSet, Cursor>
    requires { ReaderStart source.now.table.now source.now.text.now c.at }
    ensures { EnclosedAnswer (names_in source.now.table.now) source.now.text.now c.at mark lost result }
{
    closed(source.text, set(source, c, lost)?, mark)
}
