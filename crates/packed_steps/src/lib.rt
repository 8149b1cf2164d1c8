// The steps of a table as refinement reads them: in lent bytes, column by column, two bytes for each state. A column in which no state leads to a
// state is left out.
#![tactic(auto)]

ghost use Rattle.std.specs.Prelude.{◌≡◌, false, cond, ◌+◌, ◌*◌, ◌<◌, ◌≤◌, length, drop};
ghost use Rattle.deterministic.specs.Sizes.{most_sets, most_letters, work_length};
ghost use Rattle.packed_steps.specs.inner.Packed.{entry_at, EntryPut, target_in, Nowhere, ColumnTo, Packed, Sized};

use deterministic::sizes::{LETTERS, SETS};
use table_steps::wide;

fn part(byte: u8) -> usize
    ensures value { result ≡ byte }
    ensures upper_bound { result < 256 }
{
    byte as usize
}

// The number in the two bytes of place p.
pub fn entry_at(work: &[u8], p: usize) -> usize
    requires { p * 2 + 2 ≤ length work.now }
    ensures { result ≡ entry_at work.now p }
{
    part(work[p * 2]) + part(work[p * 2 + 1]) * 256
}

fn put_entry(work: &mut [u8], p: usize, x: usize)
    requires p_bound { (p < most_sets * most_letters) × (work_length ≤ length work.old) }
    requires x_bound { x < 65536 }
    ensures { EntryPut work.old p x work.new }
{
    let at = p * 2;
    work[at] = (x % 256) as u8;
    work[at + 1] = (x / 256) as u8;
}

// Where the block of a target is looked up: at its own number, and behind all states if it is none.
fn target_in(to: usize, n: usize) -> usize
    requires { n ≤ most_sets }
    ensures value { result ≡ target_in n to }
    ensures upper_bound { result ≤ most_sets }
{
    if to < n { to } else { SETS }
}

fn leads(before: bool, to: usize, n: usize) -> bool
    ensures { result ≡ false → (before ≡ false) × (n ≤ to) }
{
    before || to < n
}

// Column c of the table becomes column i of the bytes; whether some state leads to a state by it.
fn pack_column(next: &[u16], n: usize, c: usize, i: usize, work: &mut [u8]) -> bool
    requires next_len { (length next.now ≡ most_sets * most_letters) × (n ≤ most_sets) }
    requires c_lt_most_letters { (c < most_letters) × ((i < most_letters) × (work_length ≤ length work.old)) }
    ensures column_to { ColumnTo next.now n c i n work.old work.new }
    ensures nowhere { result ≡ false → Nowhere next.now n c n }
{
    let mut some = false;
    for k in 0..n {
        let to = wide(next[k * LETTERS + c]);
        put_entry(work, i * SETS + k, target_in(to, n));
        some = leads(some, to, n);
    }
    some
}

fn one_more(many: usize, some: bool) -> usize
    requires { many < most_letters }
    ensures { result ≡ cond some (many + 1) many }
{
    if some { many + 1 } else { many }
}

// How many columns there are in the bytes.
pub fn pack(next: &[u16], n: usize, columns: usize, work: &mut [u8]) -> usize
    requires { Sized next.now n columns × (work_length ≤ length work.old) }
    ensures packed { Packed next.now n columns work.new result }
    ensures work_len_unchanged { (length work.new ≡ length work.old) × (drop work_length work.new ≡ drop work_length work.old) }
{
    let mut many: usize = 0;
    for c in 0..columns {
        many = one_more(many, pack_column(next, n, c, many, work));
    }
    many
}
