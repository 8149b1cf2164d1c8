// Lines of numbers, one behind the other.
ghost use Rattle.std.specs.Prelude.{List, ℕ, ◌*◌, ◌+◌};
ghost use Rattle.listing_text.specs.inner.Lines.{Says, LinesFit, LinesWritten};

use columns::write::write_numbers;

// Writes `count` lines at `at`, the first `width` of the numbers that are given for each, and answers where they end.
pub fn write_lines<F: Fn(usize) -> [u64; 4]>(
    numbers: F,
    width: usize,
    count: usize,
    out: &mut [u8],
    at: usize,
) -> usize
    requires { LinesFit (F.pre numbers) (F.post numbers) width count at out.old }
    ensures { (line : ℕ → List ℕ) → Says (F.post numbers) width count line → LinesWritten line (width * 6 + 1) count at out.old out.new result }
{
    let mut end = at;
    for i in 0..count {
        end = write_numbers(numbers(i), width, out, end);
    }
    end
}
