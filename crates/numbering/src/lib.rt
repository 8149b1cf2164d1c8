// The blocks of a deterministic table, numbered breadth first by rising label, and the automaton written.
#![tactic(auto)]

pub mod writing;

ghost use Rattle.std.specs.Prelude.{◌≡◌, ◌++◌, ℕ, ◌*◌, ◌<◌, ◌≤◌, length, get_or, take};
ghost use Rattle.columns.specs.Bytes.{low_first};
ghost use Rattle.columns.specs.inner.Write.{pasted};
ghost use Rattle.lts.specs.Reply.{overwritten};
ghost use Rattle.deterministic.specs.Sizes.{most_sets, most_letters, smallest_length};
ghost use Rattle.deterministic.specs.Bytes.{automaton_bytes};
ghost use Rattle.deterministic.specs.inner.Arrays.{array_table};
ghost use Rattle.deterministic.specs.inner.Blocks.{numbered};
ghost use Rattle.block_numbers.specs.inner.Found.{Fits, IsFound};

use crate::writing::{write_edges, write_marks};
use automaton::Totals;
use block_numbers::finding::find_blocks;
use deterministic::sizes::{NEXT, SETS};
use listing::put_pair;

// The counts of states and edges, in two bytes each.
fn put_counts(out: &mut [u8], states: usize, edges: usize)
    requires { 4 ≤ length out.old }
    ensures { out.new ≡ pasted out.old 0 (low_first 2 states ++ low_first 2 edges) }
{
    put_pair(out, 0, states);
    put_pair(out, 2, edges);
}

// The automaton of the rows found.
fn write_found(
    next: &[u16; NEXT],
    marks: &[bool; SETS],
    blocks: &[u16; SETS],
    rows: &[u16; SETS],
    numbers: &[u16; SETS],
    n: usize,
    columns: usize,
    found: Totals,
    out: &mut [u8],
)
    requires fits { Fits next.now blocks.now n columns }
    requires found { IsFound next.now blocks.now n columns rows.now numbers.now found.rows found.edges }
    requires smallest_length_in_bounds { smallest_length ≤ length out.old }
    ensures { out.new
        ≡ overwritten (automaton_bytes (numbered (array_table next.now marks.now n columns) (take n blocks.now))) out.old }
{
    put_counts(out, found.rows, found.edges);
    write_marks(marks, rows, found.rows, out);
    write_edges(next, blocks, rows, numbers, n, columns, found.rows, out);
}

// 02: "numbered breadth first by rising label": the blocks of a table's n states, which have an entry for each of the columns.
pub fn write_numbered(
    next: &[u16; NEXT],
    marks: &[bool; SETS],
    blocks: &[u16; SETS],
    n: usize,
    columns: usize,
    out: &mut [u8],
)
    requires n_nonzero { (0 < n) × (n ≤ most_sets) }
    requires le_columns { (1 ≤ columns) × (columns ≤ most_letters) }
    requires by_index { (k : ℕ) → k < n → get_or blocks.now k 0 < n }
    requires smallest_length_in_bounds { smallest_length ≤ length out.old }
    ensures { out.new
        ≡ overwritten (automaton_bytes (numbered (array_table next.now marks.now n columns) (take n blocks.now))) out.old }
{
    let mut rows = [0u16; SETS];
    let mut numbers = [0u16; SETS];
    let found = find_blocks(next, blocks, &mut rows, &mut numbers, n, columns);
    write_found(next, marks, blocks, &rows, &numbers, n, columns, found, out);
}
