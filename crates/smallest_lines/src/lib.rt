// What the program `print_smallest` writes for its two files: the text of the smallest deterministic automaton, or the refusal's line.
#![tactic(auto)]

ghost use Rattle.std.specs.Prelude.{◌≡◌, ◌≤◌, length};
ghost use Rattle.deterministic.specs.Sizes.{smallest_length};
ghost use Rattle.explaining.specs.inner.Answered.{Answered};
ghost use Rattle.explanations.specs.inner.Printed.{TextWritten};
ghost use Rattle.files.specs.inner.Writing.{PrefixLength};
ghost use Rattle.smallest_lines.specs.SmallestText.{lent_smallest};
ghost use Rattle.smallest_lines.specs.inner.Asking.{Found, Asked};
ghost use Rattle.smallest_lines.specs.inner.FileText.{smallest_text_length, counted_text, file_text};

use actl::sizes::FORMULA_LENGTH;
use deterministic::sizes::{NEXT, SETS, SMALLEST_LENGTH, WORK_LENGTH};
use explaining::read_both;
use explanations::sizes::{EDGES_LENGTH, KEPT, ROWS_LENGTH};
use files::{Scanned, kept_text, text_length, write_refused};
use lts::sizes::TABLE_LENGTH;
use replies::{Answer, accepted};
use smallest::smallest;
use smallest_replies::smallest_answer;
use smallest_text::write_smallest;

// The longest text of an automaton, and room for a line of four numbers.
pub const SMALLEST_TEXT_LENGTH: usize = 13 + SETS * 13 + NEXT * 19 + 81;

// Asks for the automaton of a prepared table and a prepared formula, in places as `explain` lends them.
fn find(table: &[u8], formula: &[u8], automaton: &mut [u8]) -> Answer
    ensures { Found table.now formula.now automaton.old automaton.new result }
{
    let mut rows = [0u8; ROWS_LENGTH];
    let mut edges = [0u8; EDGES_LENGTH];
    let mut work = [0u8; WORK_LENGTH];
    smallest_answer(smallest(table, formula, &mut rows, &mut edges, automaton, &mut work))
}

// Reads both texts, and asks for the automaton of what was read.
fn ask(tabletext: &[u8], formulatext: &[u8], automaton: &mut [u8]) -> Result<u64, Answer>
    requires { smallest_length ≤ length automaton.old }
    ensures { Answered (Asked tabletext.now formulatext.now automaton.old automaton.new) result }
{
    let mut table = [0u8; TABLE_LENGTH];
    let mut formula = [0u8; FORMULA_LENGTH];
    read_both(tabletext, formulatext, &mut table, &mut formula)?;
    let said = find(&table, &formula, automaton);
    accepted(said)
}

// The text about a formula of `counted` bytes, of which `text` is the beginning.
fn write_text(tablefile: &[u8], text: &[u8], counted: usize, out: &mut [u8]) -> usize
    requires { length out.old ≡ smallest_text_length }
    ensures text_written { TextWritten (counted_text counted (lent_smallest tablefile.now text.now)) out.old out.new result }
    ensures prefix_length { PrefixLength result out.new }
{
    let mut automaton = [0u8; SMALLEST_LENGTH];
    match ask(tablefile, text, &mut automaton) {
        Ok(_) => write_smallest(&automaton, out),
        Err(refused) => write_refused(refused.number, refused.figure, counted, out),
    }
}

// Writes what the program writes at the start of `out`, and answers its length.
pub fn write_smallest_of(
    tablefile: &[u8],
    head: &[u8; KEPT],
    scanned: Scanned,
    out: &mut [u8; SMALLEST_TEXT_LENGTH],
) -> usize
    ensures text_written { TextWritten (file_text tablefile.now head.now scanned) out.old out.new result }
    ensures prefix_length { PrefixLength result out.new }
{
    let length = text_length(scanned);
    let text = kept_text(head, length);
    write_text(tablefile, text, length, out)
}
