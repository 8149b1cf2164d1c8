// Rows and edges in lent places: written and read, each in its place.
#![tactic(auto)]

ghost use Rattle.std.specs.Prelude.{◌≡◌, ◌+◌, ◌*◌, ◌≤◌, ◌<◌, length, get_or};
ghost use Rattle.automaton.specs.Bytes.{row_length, edge_length, edge_at};
ghost use Rattle.columns.specs.Bytes.{low_first};
ghost use Rattle.columns.specs.inner.Write.{pasted};
ghost use Rattle.listing.specs.inner.Places.{row_of, edge_to, put_row, put_edge, RowRead, EdgeRead};

use automaton::sizes::{EDGE_LENGTH, ROW_LENGTH};

// A row as it stands in its place; the mark is 1 if it is final.
#[derive(Drop)]
pub struct Row {
    pub place: usize,
    pub state: usize,
    pub mark: usize,
}

#[derive(Drop)]
pub struct Edge {
    pub row: usize,
    pub label: usize,
    pub target: usize,
}

// Row n, in its place.
pub fn put_row(out: &mut [u8], n: usize, place: usize, state: usize, is_final: bool)
    requires row_length_in_bounds { n * row_length + row_length ≤ length out.old }
    requires place_bound { (place < 256) × (state < 256) }
    ensures { out.new ≡ put_row n (row_of place state is_final) out.old }
{
    let at = n * ROW_LENGTH;
    out[at] = place as u8;
    out[at + 1] = state as u8;
    out[at + 2] = u8::from(is_final);
}

// The number in two bytes, the low one first.
pub fn pair_at(bytes: &[u8], at: usize) -> usize
    requires { at + 2 ≤ length bytes.now }
    ensures value { result ≡ get_or bytes.now at 0 + get_or bytes.now (at + 1) 0 * 256 }
    ensures upper_bound { result < 65536 }
{
    bytes[at] as usize + bytes[at + 1] as usize * 256
}

// A number in two bytes, the low one first.
pub fn put_pair(out: &mut [u8], at: usize, x: usize)
    requires { at + 2 ≤ length out.old }
    ensures { out.new ≡ pasted out.old at (low_first 2 x) }
{
    out[at] = (x % 256) as u8;
    out[at + 1] = (x / 256 % 256) as u8;
}

// Edge n, in its place.
pub fn put_edge(out: &mut [u8], n: usize, row: usize, label: usize, target: usize)
    requires edge_length_in_bounds { n * edge_length + edge_length ≤ length out.old }
    requires label_bound { label < 256 }
    ensures { out.new ≡ put_edge n (edge_to row label target) out.old }
{
    let at = n * EDGE_LENGTH;
    put_pair(out, at, row);
    out[at + 2] = label as u8;
    put_pair(out, at + 3, target);
}

// The row that stands in place i.
pub fn row_at(rows: &[u8], i: usize) -> Row
    requires { i * row_length + row_length ≤ length rows.now }
    ensures { RowRead rows.now i result }
{
    let at = i * ROW_LENGTH;
    Row {
        place: rows[at] as usize,
        state: rows[at + 1] as usize,
        mark: rows[at + 2] as usize,
    }
}

// The edge that stands in place j.
pub fn edge_at(edges: &[u8], j: usize) -> Edge
    requires { j * edge_length + edge_length ≤ length edges.now }
    ensures { EdgeRead (edge_at edges.now j) result }
{
    let at = j * EDGE_LENGTH;
    Edge {
        row: pair_at(edges, at),
        label: edges[at + 2] as usize,
        target: pair_at(edges, at + 3),
    }
}
