// Bytes compared where they stand: nothing is copied.
ghost use Rattle.std.specs.Prelude.{◌≡◌, ◌≤◌, length};
ghost use Rattle.columns.specs.Bytes.{same_bytes};

use crate::words::{half, word};

// Whether two parts of one length, at most 16 bytes, are equal.
pub fn same_parts(a: &[u8], b: &[u8]) -> bool
    requires { (length a.now ≡ length b.now) × (length a.now ≤ 16) }
    ensures { result ≡ same_bytes a.now b.now }
{
    if a.len() < 4 {
        same_bytes(a, b)
    } else if a.len() < 8 {
        same_halves(a, b)
    } else {
        same_ends(a, b)
    }
}

// Each byte is among the first eight or the last eight, which are compared at once; the last ones first, since names tend to begin alike.
fn same_ends(a: &[u8], b: &[u8]) -> bool
    requires { (length a.now ≡ length b.now) × ((8 ≤ length a.now) × (length a.now ≤ 16)) }
    ensures { result ≡ same_bytes a.now b.now }
{
    let last = a.len() - 8;
    if word(a, last) != word(b, last) {
        return false;
    }
    word(a, 0) == word(b, 0)
}

// The same by fours.
fn same_halves(a: &[u8], b: &[u8]) -> bool
    requires { (length a.now ≡ length b.now) × ((4 ≤ length a.now) × (length a.now ≤ 8)) }
    ensures { result ≡ same_bytes a.now b.now }
{
    let last = a.len() - 4;
    if half(a, last) != half(b, last) {
        return false;
    }
    half(a, 0) == half(b, 0)
}

// Each byte of at most three is the last, the first or the middle one.
fn same_bytes(a: &[u8], b: &[u8]) -> bool
    requires { (length a.now ≡ length b.now) × (length a.now ≤ 3) }
    ensures { result ≡ same_bytes a.now b.now }
{
    let n = a.len();
    if n == 0 {
        return true;
    }
    if a[n - 1] != b[n - 1] {
        return false;
    }
    if a[0] != b[0] {
        return false;
    }
    a[n / 2] == b[n / 2]
}
