// The second pass: a mark for each row, and the edges, whose targets all have numbers.
ghost use Rattle.std.specs.Prelude.{◌≡◌, [], ◌∷◌, ℕ, ◌+◌, ◌*◌, ◌<◌, ◌≤◌, length, get_or};
ghost use Rattle.columns.specs.inner.Write.{pasted};
ghost use Rattle.automaton.specs.Bytes.{bit_of};
ghost use Rattle.deterministic.specs.Sizes.{most_sets, most_letters};
ghost use Rattle.deterministic.specs.inner.Arrays.{letter_of};
ghost use Rattle.block_numbers.specs.inner.Found.{Inside};
ghost use Rattle.numbering.specs.inner.Written.{Put, marks_of, step_in, steps_in, edges_in, Numbered, RowFits};

use deterministic::sizes::{LETTERS, NEXT, SETS};
use lts::sizes::IDLE;
use table_steps::wide;

fn bit(b: bool) -> u8
    ensures { result ≡ bit_of b }
{
    if b { 1 } else { 0 }
}

// The letter of a column: the idle step has the last one.
fn letter(c: usize, columns: usize) -> usize
    requires { (c < columns) × (columns ≤ most_letters) }
    ensures value { result ≡ letter_of columns c }
    ensures upper_bound { result < 256 }
{
    if c + 1 == columns { IDLE } else { c }
}

// The marks of the first `count` rows, behind the two counts.
pub fn write_marks(marks: &[bool; SETS], rows: &[u16; SETS], count: usize, out: &mut [u8])
    requires rows_len { (length rows.now ≡ most_sets) × ((count ≤ most_sets) × (4 + count ≤ length out.old)) }
    requires by_index { (i : ℕ) → i < count → get_or rows.now i 0 < most_sets }
    ensures { out.new ≡ pasted out.old 4 (marks_of marks.now rows.now count) }
{
    for i in 0..count {
        let block = wide(rows[i]);
        out[4 + i] = bit(marks[block]);
    }
}

fn put_step(out: &mut [u8], at: usize, row: usize, letter: usize, target: usize)
    requires at_in_bounds { at + 3 ≤ length out.old }
    requires row_bound { (row < 256) × ((letter < 256) × (target < 256)) }
    ensures { out.new ≡ pasted out.old at (row ∷ letter ∷ target ∷ []) }
{
    out[at] = row as u8;
    out[at + 1] = letter as u8;
    out[at + 2] = target as u8;
}

// The edge of column c of a row, whose entries are from `first` on, at `at`; where it ends.
fn write_step(
    next: &[u16; NEXT],
    blocks: &[u16; SETS],
    numbers: &[u16; SETS],
    n: usize,
    columns: usize,
    row: usize,
    first: usize,
    c: usize,
    out: &mut [u8],
    at: usize,
) -> usize
    requires n_le_most_sets { (n ≤ most_sets) × Inside blocks.now n }
    requires row_lt_most_sets { (row < most_sets) × ((first + c < most_sets * most_letters) × ((c < columns) × (columns ≤ most_letters))) }
    requires numbered { Numbered next.now blocks.now numbers.now n columns (first + c) }
    requires c_in_bounds { at + length (step_in next.now blocks.now numbers.now n columns row first c) ≤ length out.old }
    ensures { Put (step_in next.now blocks.now numbers.now n columns row first c) out.old at out.new result }
{
    let target = wide(next[first + c]);
    if n <= target {
        return at;
    }
    let block = wide(blocks[target]);
    let number = wide(numbers[block]);
    put_step(out, at, row, letter(c, columns), number - 1);
    at + 3
}

// The edges of a row, at `at`; where they end.
fn write_row(
    next: &[u16; NEXT],
    blocks: &[u16; SETS],
    numbers: &[u16; SETS],
    n: usize,
    columns: usize,
    row: usize,
    block: usize,
    out: &mut [u8],
    at: usize,
) -> usize
    requires n_le_most_sets { (n ≤ most_sets) × Inside blocks.now n }
    requires row_lt_most_sets { (row < most_sets) × (columns ≤ most_letters) }
    requires row_fits { RowFits next.now blocks.now numbers.now n columns block }
    requires columns_in_bounds { at + length (steps_in next.now blocks.now numbers.now n columns row (block * most_letters) 0 columns) ≤ length out.old }
    ensures { Put (steps_in next.now blocks.now numbers.now n columns row (block * most_letters) 0 columns)
        out.old at out.new result }
{
    let first = block * LETTERS;
    let mut end = at;
    for c in 0..columns {
        end = write_step(next, blocks, numbers, n, columns, row, first, c, out, end);
    }
    end
}

// The edges of the first `count` rows, behind their marks.
pub fn write_edges(
    next: &[u16; NEXT],
    blocks: &[u16; SETS],
    rows: &[u16; SETS],
    numbers: &[u16; SETS],
    n: usize,
    columns: usize,
    count: usize,
    out: &mut [u8],
)
    requires n_le_most_sets { (n ≤ most_sets) × Inside blocks.now n }
    requires count_le_most_sets { (count ≤ most_sets) × (columns ≤ most_letters) }
    requires by_index { (i : ℕ) → i < count → RowFits next.now blocks.now numbers.now n columns (get_or rows.now i 0) }
    requires count_in_bounds { 4 + count + length (edges_in next.now blocks.now numbers.now n columns rows.now 0 count) ≤ length out.old }
    ensures { out.new
        ≡ pasted out.old (4 + count) (edges_in next.now blocks.now numbers.now n columns rows.now 0 count) }
{
    let mut end = 4 + count;
    for i in 0..count {
        let block = wide(rows[i]);
        end = write_row(next, blocks, numbers, n, columns, i, block, out, end);
    }
}
