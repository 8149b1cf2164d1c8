// The first pass: the blocks in the order found, the number of each, and the count of edges.
ghost use Rattle.std.specs.Prelude.{◌≡◌, cond, ◌+◌, ◌*◌, ◌<◌, ◌≤◌, length, get_or, take};
ghost use Rattle.deterministic.specs.Sizes.{most_sets, most_letters};
ghost use Rattle.block_numbers.specs.inner.Found.{Inside, Fits, added, Rows, Within, leads, taken, taken_from, count_from, IsFound};

use automaton::Totals;
use deterministic::sizes::{LETTERS, NEXT, SETS};
use table_steps::wide;

// A block becomes the last row, if it is none yet.
fn enter(rows: &mut [u16; SETS], numbers: &mut [u16; SETS], block: usize, count: usize) -> usize
    requires block_lt_most_sets { block < most_sets }
    requires rows { Rows rows.old numbers.old count }
    requires block_len_bound { length (added (take count rows.old) block) ≤ most_sets }
    ensures rows_2 { Rows rows.new numbers.new result }
    ensures rows_after { take result rows.new ≡ added (take count rows.old) block }
{
    let number = wide(numbers[block]);
    if number == 0 {
        rows[count] = block as u16;
        numbers[block] = (count + 1) as u16;
        return count + 1;
    }
    count
}

// Entry `at` of the table.
fn find_step(
    next: &[u16; NEXT],
    blocks: &[u16; SETS],
    rows: &mut [u16; SETS],
    numbers: &mut [u16; SETS],
    n: usize,
    at: usize,
    t: Totals,
) -> Totals
    requires n_le_most_sets { (n ≤ most_sets) × Inside blocks.now n }
    requires at_bound { (at < most_sets * most_letters) × (t.edges ≤ most_sets * most_letters) }
    requires rows { Rows rows.old numbers.old t.rows × Within n (take t.rows rows.old) }
    ensures rows_2 { Rows rows.new numbers.new result.rows × Within n (take result.rows rows.new) }
    ensures rows_after { take result.rows rows.new ≡ taken next.now blocks.now n at (take t.rows rows.old) }
    ensures edges_value { result.edges ≡ t.edges + cond (leads next.now blocks.now n at) 1 0 }
{
    let target = wide(next[at]);
    if n <= target {
        return t;
    }
    let block = wide(blocks[target]);
    let count = enter(rows, numbers, block, t.rows);
    Totals {
        rows: count,
        edges: t.edges + 1,
    }
}

// The entries of row i.
fn find_row(
    next: &[u16; NEXT],
    blocks: &[u16; SETS],
    rows: &mut [u16; SETS],
    numbers: &mut [u16; SETS],
    n: usize,
    columns: usize,
    i: usize,
    t: Totals,
) -> Totals
    requires n_le_most_sets { (n ≤ most_sets) × Inside blocks.now n }
    requires columns_le_most_letters { (columns ≤ most_letters) × ((i < t.rows) × (t.edges ≤ i * most_letters)) }
    requires rows { Rows rows.old numbers.old t.rows × Within n (take t.rows rows.old) }
    ensures rows_2 { Rows rows.new numbers.new result.rows × Within n (take result.rows rows.new) }
    ensures rows_after { take result.rows rows.new
        ≡ taken_from next.now blocks.now n (get_or rows.old i 0 * most_letters) columns (take t.rows rows.old) }
    ensures edges_value { result.edges ≡ t.edges + count_from next.now blocks.now n (get_or rows.old i 0 * most_letters) columns }
{
    let block = wide(rows[i]);
    let first = block * LETTERS;
    let end = first + columns;
    let mut totals = t;
    for at in first..end {
        totals = find_step(next, blocks, rows, numbers, n, at, totals);
    }
    totals
}

// From the block of state 0 on, row by row, until no row is left.
pub fn find_blocks(
    next: &[u16; NEXT],
    blocks: &[u16; SETS],
    rows: &mut [u16; SETS],
    numbers: &mut [u16; SETS],
    n: usize,
    columns: usize,
) -> Totals
    requires fits { Fits next.now blocks.now n columns }
    requires rows { Rows rows.old numbers.old 0 }
    ensures { IsFound next.now blocks.now n columns rows.new numbers.new result.rows result.edges }
{
    let block = wide(blocks[0]);
    let count = enter(rows, numbers, block, 0);
    let mut totals = Totals {
        rows: count,
        edges: 0,
    };
    let mut i: usize = 0;
    while i < totals.rows {
        totals = find_row(next, blocks, rows, numbers, n, columns, i, totals);
        i += 1;
    }
    totals
}
