// Numbers below 1,000 in six columns, as most are. No test goes another way for another count of digits, so that none is mispredicted where counts vary.
ghost use Rattle.std.specs.Prelude.{◌≡◌, ◌+◌, ◌*◌, ◌<◌, ◌≤◌, length, get_or};
ghost use Rattle.columns.specs.inner.Small.{four_of, least_small, DigitsOf, SmallIn, SmallAt};

// The first two of the six bytes at `at`, as one number.
fn first_two(text: &[u8], at: usize) -> usize
    requires { at + 6 ≤ length text.now }
    ensures { result ≡ get_or text.now at 0 * 256 + get_or text.now (at + 1) 0 }
{
    usize::from(text[at]) * 256 + usize::from(text[at + 1])
}

// The last four. Each byte is put behind those before it: this becomes one load.
fn last_four(text: &[u8], at: usize) -> usize
    requires { at + 6 ≤ length text.now }
    ensures { result ≡ four_of (get_or text.now (at + 2) 0) (get_or text.now (at + 3) 0) (get_or text.now (at + 4) 0)
        (get_or text.now (at + 5) 0) }
{
    let two = usize::from(text[at + 2]) * 256 + usize::from(text[at + 3]);
    let three = two * 256 + usize::from(text[at + 4]);
    three * 256 + usize::from(text[at + 5])
}

// As many zeros as a number has digits, and what the largest number of that many digits has above them.
#[derive(Drop)]
struct Digits {
    zeros: usize,
    most: usize,
}

// Of the last four bytes of a column: one digit below "  10", two below " 100", else three.
fn digits_of(four: usize) -> Digits
    requires { least_small ≤ four }
    ensures { DigitsOf four result.zeros result.most }
{
    if four < 0x20203130 {
        return Digits {
            zeros: 0x20202030,
            most: 0x9,
        };
    }
    if four < 0x20313030 {
        Digits {
            zeros: 0x20203030,
            most: 0x909,
        }
    } else {
        Digits {
            zeros: 0x20303030,
            most: 0x90909,
        }
    }
}

// The number of which these are the last four bytes; 1,000 if there is none below it.
fn small_value(four: usize) -> usize
    ensures { SmallIn four result }
{
    if four < 0x20202030 {
        return 1000;
    }
    let digits = digits_of(four);
    let above = four - digits.zeros;
    if digits.most < above {
        return 1000;
    }
    let tens = above / 256 % 256;
    if 9 < tens {
        return 1000;
    }
    let ones = above % 256;
    if 9 < ones {
        return 1000;
    }
    (above / 65536 * 10 + tens) * 10 + ones
}

// The number below 1,000 in the six columns at `at`; 1,000 if they hold none, or a larger one.
pub fn small_at(text: &[u8], at: usize) -> usize
    requires { at + 6 ≤ length text.now }
    ensures { SmallAt text.now at result }
{
    if first_two(text, at) != 0x2020 {
        return 1000;
    }
    small_value(last_four(text, at))
}
