// What is kept of a formula file of any length: its first 513 bytes, its length and its last byte. A refusal's line tells that length.
#![tactic(auto)]

ghost use Rattle.std.specs.Prelude.{◌≡◌, ◌+◌, ◌≤◌, min, length, take};
ghost use Rattle.explanations.specs.inner.Sizes.{kept_length};
ghost use Rattle.explanations.specs.inner.Printed.{TextWritten};
ghost use Rattle.files.specs.inner.Scan.{scan_start, largest_count, scanned_after, kept_after};
ghost use Rattle.files.specs.inner.Files.{length_without_end};
ghost use Rattle.files.specs.inner.Writing.{refused_line};

use byte_copy::copy;
use explanations::sizes::KEPT;
use listing_text::write_refusal;

// How many bytes of a file were read, and the last of them.
#[derive(Drop)]
pub struct Scanned {
    pub length: usize,
    pub last: u8,
}

// Before the first byte.
pub fn scan_start() -> Scanned
    ensures { result ≡ scan_start }
{
    Scanned { length: 0, last: 0 }
}

// Puts the bytes of a chunk that belong to the first 513 into `head`, if `at` bytes came before.
fn keep(chunk: &[u8], head: &mut [u8], at: usize)
    requires { length head.old ≡ kept_length }
    ensures { head.new ≡ kept_after head.old at chunk.now }
{
    if at < KEPT {
        let n = chunk.len().min(KEPT - at);
        copy(&chunk[..n], &mut head[at..]);
    }
}

// The sum, or the largest number where it does not fit.
fn add(a: usize, b: usize) -> usize
    ensures { result ≡ min (a + b) largest_count }
{
    a.saturating_add(b)
}

// Takes in the next chunk of the formula file.
pub fn scan_chunk(chunk: &[u8], head: &mut [u8; KEPT], scanned: Scanned) -> Scanned
    ensures value { result ≡ scanned_after scanned chunk.now }
    ensures head_after { head.new ≡ kept_after head.old scanned.length chunk.now }
{
    keep(chunk, head, scanned.length);
    let n = chunk.len();
    if n == 0 {
        return scanned;
    }
    Scanned {
        length: add(scanned.length, n),
        last: chunk[n - 1],
    }
}

// The length of the formula's text: one LF at the end of the file is dropped.
pub fn text_length(scanned: Scanned) -> usize
    ensures { result ≡ length_without_end scanned }
{
    let n = scanned.length;
    if n == 0 {
        return 0;
    }
    if scanned.last == 10 {
        return n - 1;
    }
    n
}

// The formula's text: as much of it as is kept, of `length` bytes.
pub fn kept_text(head: &[u8; KEPT], length: usize) -> &[u8]
    ensures { result.now ≡ take (min length kept_length) head.now }
{
    let whole = &head[..];
    &whole[..length.min(KEPT)]
}

// A refusal's line, about a formula of `counted` bytes.
pub fn write_refused(number: u32, figure: u64, counted: usize, out: &mut [u8]) -> usize
    requires { 81 ≤ length out.old }
    ensures { TextWritten (refused_line counted number figure) out.old out.new result }
{
    if number == 5 {
        return write_refusal(number, counted as u64, out);
    }
    write_refusal(number, figure, out)
}
