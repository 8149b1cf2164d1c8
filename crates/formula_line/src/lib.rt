// What the program `print_formula` writes for its two files: the formula as it is written back, with an LF behind it, or the refusal's line.
#![tactic(auto)]

ghost use Rattle.std.specs.Prelude.{◌≡◌, ◌+◌, ◌≤◌, ◌<◌, length, set};
ghost use Rattle.actl.specs.Sizes.{longest_text};
ghost use Rattle.explaining.specs.inner.Answered.{Answered};
ghost use Rattle.explanations.specs.inner.Sizes.{kept_length};
ghost use Rattle.explanations.specs.inner.Printed.{TextWritten};
ghost use Rattle.files.specs.inner.Writing.{PrefixLength};
ghost use Rattle.formula_line.specs.LineText.{written_back};
ghost use Rattle.formula_line.specs.inner.Back.{WroteBack};
ghost use Rattle.formula_line.specs.inner.FileLine.{counted_line, file_line};

use actl::sizes::FORMULA_LENGTH;
use explaining::read_both;
use explanations::sizes::KEPT;
use files::{Scanned, kept_text, text_length, write_refused};
use lts::sizes::TABLE_LENGTH;
use replies::{Answer, accepted};
use write_formula::write_formula;
use writing_replies::write_answer;

// The longest text of a formula, and its LF.
pub const LINE_LENGTH: usize = KEPT;

// Reads both texts, and writes the formula back at the start of `text`. The figure of a text that was written is its length.
fn write_back(tabletext: &[u8], formulatext: &[u8], text: &mut [u8]) -> Result<u64, Answer>
    requires { longest_text ≤ length text.old }
    ensures { Answered (WroteBack tabletext.now formulatext.now text.old text.new) result }
{
    let mut table = [0u8; TABLE_LENGTH];
    let mut formula = [0u8; FORMULA_LENGTH];
    read_both(tabletext, formulatext, &mut table, &mut formula)?;
    accepted(write_answer(write_formula(&table, &formula, text)))
}

// An LF behind the first `n` bytes.
fn end_line(out: &mut [u8], n: usize) -> usize
    requires { n < length out.old }
    ensures value { result ≡ n + 1 }
    ensures out_after { out.new ≡ set out.old n 10 }
{
    out[n] = 10;
    n + 1
}

// The line about a formula of `counted` bytes, of which `text` is the beginning.
fn write_line(tablefile: &[u8], text: &[u8], counted: usize, out: &mut [u8]) -> usize
    requires { length out.old ≡ kept_length }
    ensures text_written { TextWritten (counted_line counted (written_back tablefile.now text.now)) out.old out.new result }
    ensures prefix_length { PrefixLength result out.new }
{
    match write_back(tablefile, text, out) {
        Ok(written) => end_line(out, written as usize),
        Err(refused) => write_refused(refused.number, refused.figure, counted, out),
    }
}

// Writes what the program writes at the start of `out`, and answers its length.
pub fn write_line_of(
    tablefile: &[u8],
    head: &[u8; KEPT],
    scanned: Scanned,
    out: &mut [u8; LINE_LENGTH],
) -> usize
    ensures text_written { TextWritten (file_line tablefile.now head.now scanned) out.old out.new result }
    ensures prefix_length { PrefixLength result out.new }
{
    let length = text_length(scanned);
    let text = kept_text(head, length);
    write_line(tablefile, text, length, out)
}
