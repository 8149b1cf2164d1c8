// Numbers in six columns, the form of every number in the texts of tables and listings.
#![tactic(auto)]

pub mod kept;
pub mod small;
pub mod write;

ghost use Rattle.std.specs.Prelude.{◌≡◌, ◌+◌, ◌-◌, ◌<◌, ◌≤◌, length, take, drop};
ghost use Rattle.columns.specs.Bytes.{same_bytes};
ghost use Rattle.columns.specs.Columns.{column, value_at};
ghost use Rattle.columns.specs.inner.Read.{column_at, lead};

use crate::small::small_at;

// A byte that is no digit may give any number here: whether the bytes are a column is tested by `is_column`.
fn digit(b: u8) -> usize
    ensures { (result ≡ b - 48) × (result < 208) }
{
    (b as usize).saturating_sub(48)
}

fn value_at(text: &[u8], at: usize) -> usize
    requires { at + 6 ≤ length text.now }
    ensures { result ≡ value_at at text.now }
{
    let mut n: usize = 0;
    for i in 0..6 {
        n = n * 10 + digit(text[at + i]);
    }
    n
}

// A figure before the last one, if n is what the digits behind it leave: a blank, if that is nothing.
fn leading(n: usize) -> u8
    ensures { result ≡ lead n }
{
    if n == 0 { 32 } else { (48 + n % 10) as u8 }
}

// Whether the six bytes at `at` are the column of v, compared from the last one.
fn is_column(text: &[u8], at: usize, v: usize) -> bool
    requires { (at + 6 ≤ length text.now) × (v < 1000000) }
    ensures { result ≡ same_bytes (take 6 (drop at text.now)) (column v) }
{
    if text[at + 5] as usize != 48 + v % 10 {
        return false;
    }
    let mut n = v / 10;
    for i in (0..5).rev() {
        if text[at + i] != leading(n) {
            return false;
        }
        n /= 10;
    }
    true
}

// The number in the six columns at `at`, if they are its column.
pub fn read_column(text: &[u8], at: usize) -> Option<usize>
    ensures { result ≡ column_at text.now at }
{
    if text.len() < 6 || text.len() - 6 < at {
        return None;
    }
    let small = small_at(text, at);
    if small < 1000 {
        return Some(small);
    }
    let v = value_at(text, at);
    if v < 1000000 && is_column(text, at, v) {
        Some(v)
    } else {
        None
    }
}
