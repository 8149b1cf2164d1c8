// The listing as text, by the bytes of rows and edges.
#![tactic(auto)]

ghost use Rattle.std.specs.Prelude.{◌≡◌, ◌+◌, ◌*◌, ◌≤◌, length};
ghost use Rattle.automaton.specs.Bytes.{row_length, edge_length};
ghost use Rattle.explanations.specs.Printed.{refusal_line};
ghost use Rattle.explanations.specs.inner.Printed.{listing_text, TextWritten};
ghost use Rattle.listing_text.specs.inner.Lines.{summary_of, row_numbers, edge_numbers};

pub mod lines;

use crate::lines::write_lines;
use columns::write::write_numbers;
use listing::{edge_at, row_at};

// Writes the whole listing at the start of `out`, and answers its length.
pub fn write_listing(
    verdict: u64,
    class: u64,
    rowcount: usize,
    edgecount: usize,
    rows: &[u8],
    edges: &[u8],
    out: &mut [u8],
) -> usize
    requires row_length_in_bounds { (rowcount * row_length ≤ length rows.now) × (edgecount * edge_length ≤ length edges.now) × (rowcount ≤ 65536) }
    requires edgecount_in_bounds { rowcount * 25 + edgecount * 19 + 162 ≤ length out.old }
    ensures { TextWritten (listing_text (summary_of verdict class rowcount edgecount) rows.now edges.now) out.old out.new result }
{
    let values = [verdict, class, rowcount as u64, edgecount as u64];
    let first = write_numbers(values, 4, out, 0);
    // What the line of a row has.
    let of_row = |i: usize|
        requires { i * row_length + row_length ≤ length rows.now }
        ensures { result ≡ row_numbers rows.entry.now i }
    {
        let row = row_at(rows, i);
        [
            i as u64,
            row.place as u64,
            row.state as u64,
            row.mark as u64,
        ]
    };
    let second = write_lines(of_row, 4, rowcount, out, first);
    // What the line of an edge has; the last number is not printed.
    let of_edge = |j: usize|
        requires { j * edge_length + edge_length ≤ length edges.now }
        ensures { result ≡ edge_numbers edges.entry.now j }
    {
        let edge = edge_at(edges, j);
        [edge.row as u64, edge.label as u64, edge.target as u64, 0]
    };
    write_lines(of_edge, 3, edgecount, out, second)
}

// Writes a refusal's line at the start of `out`, and answers its length.
pub fn write_refusal(number: u32, figure: u64, out: &mut [u8]) -> usize
    requires { 81 ≤ length out.old }
    ensures { TextWritten (refusal_line number figure) out.old out.new result }
{
    write_numbers([number as u64, figure, 0, 0], 2, out, 0)
}
