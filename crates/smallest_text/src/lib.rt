// The text of a deterministic automaton, from its bytes.
#![tactic(auto)]

ghost use Rattle.std.specs.Prelude.{◌≡◌, [], ◌∷◌, ◌++◌, ◌+◌, ◌*◌, ◌≤◌, ◌<◌, length, get_or};
ghost use Rattle.deterministic.specs.Automata.{Automaton};
ghost use Rattle.explanations.specs.inner.Printed.{TextWritten};
ghost use Rattle.smallest_text.specs.Text.{automaton_text};
ghost use Rattle.smallest_text.specs.inner.Held.{AutomatonIn, longest_text};
ghost use Rattle.smallest_text.specs.inner.Lines.{pair_at, three_at};

use columns::write::write_numbers;
use listing_text::lines::write_lines;

// The number in two bytes, the low one first.
fn pair_at(bytes: &[u8], k: usize) -> usize
    requires { k + 2 ≤ length bytes.now }
    ensures { (result ≡ pair_at bytes.now k) × (result < 65536) }
{
    usize::from(u16::from_le_bytes([bytes[k], bytes[k + 1]]))
}

// The three bytes at a place, as numbers; the last number is not printed.
fn three_at(bytes: &[u8], k: usize) -> [u64; 4]
    requires { k + 3 ≤ length bytes.now }
    ensures { result ≡ three_at bytes.now k ++ (0 ∷ []) }
{
    [bytes[k] as u64, bytes[k + 1] as u64, bytes[k + 2] as u64, 0]
}

// Writes the text of the automaton in the bytes at the start of `out`, and answers its length.
pub fn write_smallest(smallest: &[u8], out: &mut [u8]) -> usize
    requires automaton_in { (d : Automaton) × AutomatonIn d smallest.now }
    requires longest_text_in_bounds { longest_text + 81 ≤ length out.old }
    ensures { (d : Automaton) → AutomatonIn d smallest.now → TextWritten (automaton_text d) out.old out.new result }
{
    let states = pair_at(smallest, 0);
    let edges = pair_at(smallest, 2);
    let head = write_numbers([states as u64, edges as u64, 0, 0], 2, out, 0);
    // For each state its number and mark.
    let of_state = |i: usize|
        requires { 4 + i < length smallest.now }
        ensures { result ≡ i ∷ get_or smallest.entry.now (4 + i) 0 ∷ 0 ∷ 0 ∷ [] }
    {
        let mark = smallest[4 + i] as u64;
        [i as u64, mark, 0, 0]
    };
    let middle = write_lines(of_state, 2, states, out, head);
    // For each edge its state, label and target.
    let first = 4 + states;
    let of_edge = |j: usize|
        requires { first + j * 3 + 3 ≤ length smallest.now }
        ensures { result ≡ three_at smallest.entry.now (first + j * 3) ++ (0 ∷ []) }
    { three_at(smallest, first + j * 3) };
    write_lines(of_edge, 3, edges, out, middle)
}
