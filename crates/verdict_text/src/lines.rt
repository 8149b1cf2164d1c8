// The lines of the verdicts: the joint answer and the count, then a line for each entry of the list.
ghost use Rattle.std.specs.Prelude.{◌≡◌, [], ◌∷◌, ◌≤◌, ◌<◌, length, get_or};
ghost use Rattle.lts.specs.Sizes.{most_states};
ghost use Rattle.explanations.specs.inner.Printed.{TextWritten};
ghost use Rattle.verdict_text.specs.inner.Entries.{entry_lines};
ghost use Rattle.verdict_text.specs.inner.Sizes.{lines_length};

use columns::write::write_numbers;
use listing_text::lines::write_lines;

// The joint answer and the count, then the entries.
pub fn write_answers(
    joint: u64,
    count: usize,
    starts: &[u8],
    answers: &[u8],
    out: &mut [u8],
) -> usize
    requires joint_bound { (joint < 256) × (count ≤ most_states) }
    requires count_in_bounds { (count ≤ length starts.now) × (count ≤ length answers.now) × (length out.old ≡ lines_length) }
    ensures { TextWritten (entry_lines joint count starts.now answers.now) out.old out.new result }
{
    let first = write_numbers([joint, count as u64, 0, 0], 2, out, 0);
    // The state and the verdict of an entry.
    let of_entry = |i: usize|
        requires { (i < length starts.now) × (i < length answers.now) }
        ensures { result ≡ get_or starts.entry.now i 0 ∷ get_or answers.entry.now i 0 ∷ 0 ∷ 0 ∷ [] }
    { [starts[i] as u64, answers[i] as u64, 0, 0] };
    write_lines(of_entry, 2, count, out, first)
}
