// Writing numbers in six columns.
ghost use Rattle.std.specs.Prelude.{◌≡◌, ◌+◌, ◌≤◌, ◌<◌, length, take};
ghost use Rattle.columns.specs.Columns.{column};
ghost use Rattle.columns.specs.Lines.{numbers_line};
ghost use Rattle.columns.specs.inner.Write.{Spread, pasted};

use crate::leading;

// A number's column: the bytes from `from` on.
#[derive(Drop)]
struct Figures {
    bytes: [u8; 20],
    from: usize,
}

fn spread(n: u64) -> Figures
    ensures { Spread n result }
{
    let mut bytes = [32u8; 20];
    bytes[19] = (48 + n % 10) as u8;
    let mut from: usize = 19;
    let mut rest = n / 10;
    while 0 < rest {
        from -= 1;
        bytes[from] = (48 + rest % 10) as u8;
        rest /= 10;
    }
    if 14 < from {
        from = 14;
    }
    Figures { bytes, from }
}

// Writes n in six columns, or in as many as it has digits, at `at`, and answers where they end.
fn write_column(n: u64, out: &mut [u8], at: usize) -> usize
    requires { at + 20 ≤ length out.old }
    ensures value { result ≡ at + length (column n) }
    ensures out_after { out.new ≡ pasted out.old at (column n) }
    ensures upper_bound { result ≤ at + 20 }
{
    let Figures { bytes, from } = spread(n);
    let end = at + (20 - from);
    out[at..end].copy_from_slice(&bytes[from..]);
    end
}

// Writes the first `count` of the values as a line of numbers at `at`, and answers where the line ends.
pub fn write_numbers(values: [u64; 4], count: usize, out: &mut [u8], at: usize) -> usize
    requires { (count ≤ 4) × (at + 81 ≤ length out.old) }
    ensures value { result ≡ at + length (numbers_line (take count values)) }
    ensures out_after { out.new ≡ pasted out.old at (numbers_line (take count values)) }
    ensures upper_bound { result ≤ at + 81 }
{
    let mut end = at;
    for i in 0..count {
        end = write_column(values[i], out, end);
    }
    out[end] = 10;
    end + 1
}

// Writes n, which is below 10,000, in six columns at `at`.
pub fn write_small(n: usize, out: &mut [u8], at: usize)
    requires { (n < 10000) × (at + 6 ≤ length out.old) }
    ensures { out.new ≡ pasted out.old at (column n) }
{
    let thousands = leading(n / 1000);
    let hundreds = leading(n / 100);
    let tens = leading(n / 10);
    out[at] = 32;
    out[at + 1] = 32;
    out[at + 2] = thousands;
    out[at + 3] = hundreds;
    out[at + 4] = tens;
    out[at + 5] = (48 + n % 10) as u8;
}
