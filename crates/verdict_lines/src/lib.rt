// What the program `print_verdicts` writes for its two files and its list: the verdict at each state of the list, or the refusal's line.
#![tactic(auto)]

ghost use Rattle.std.specs.Prelude.{◌≡◌, ◌≤◌, min, length, take};
ghost use Rattle.lts.specs.Sizes.{most_states};
ghost use Rattle.explaining.specs.inner.Answered.{Answered};
ghost use Rattle.explanations.specs.inner.Printed.{TextWritten};
ghost use Rattle.files.specs.inner.Writing.{PrefixLength};
ghost use Rattle.verdict_text.specs.VerdictsText.{entries_in, listed_verdicts};
ghost use Rattle.verdict_text.specs.inner.Sizes.{list_length, lines_length};
ghost use Rattle.verdict_lines.specs.inner.Asking.{Asked};
ghost use Rattle.verdict_lines.specs.inner.FileLines.{counted_lines, file_lines};

use actl::sizes::FORMULA_LENGTH;
use explaining::read_both;
use explanations::sizes::KEPT;
use files::{Scanned, kept_text, text_length, write_refused};
use lts::sizes::{STATES, TABLE_LENGTH};
use replies::{Answer, accepted, verdicts_answer};
use verdict_text::lines::write_answers;
use verdict_text::list::{STARTS, entry_count, read_list};
use verdicts::verdicts;

// 257 numbers in six columns: more cannot rise.
pub const LIST_LENGTH: usize = STARTS * 6;

// Lines of two numbers, and room for one of four.
pub const LINES_LENGTH: usize = 13 + STATES * 13 + 81;

// Reads both texts, and asks for the verdicts at the listed states. The figure of an accepted list is the joint answer.
fn ask(
    tabletext: &[u8],
    formulatext: &[u8],
    starts: &[u8],
    answers: &mut [u8],
) -> Result<u64, Answer>
    requires { most_states ≤ length answers.old }
    ensures { Answered (Asked tabletext.now formulatext.now starts.now answers.old answers.new) result }
{
    let mut table = [0u8; TABLE_LENGTH];
    let mut formula = [0u8; FORMULA_LENGTH];
    read_both(tabletext, formulatext, &mut table, &mut formula)?;
    accepted(verdicts_answer(verdicts(&table, &formula, starts, answers)))
}

// The lines about a formula of `counted` bytes, of which `text` is the beginning.
fn write_lines(tablefile: &[u8], text: &[u8], counted: usize, list: &[u8], out: &mut [u8]) -> usize
    requires { (length list.now ≤ list_length) × (length out.old ≡ lines_length) }
    ensures text_written { TextWritten (counted_lines counted (listed_verdicts tablefile.now text.now (entries_in list.now)))
        out.old out.new result }
    ensures prefix_length { PrefixLength result out.new }
{
    let mut starts = [0u8; STARTS];
    let count = read_list(list, &mut starts);
    let mut answers = [0u8; STATES];
    let joint = match ask(tablefile, text, &starts[..count], &mut answers) {
        Ok(joint) => joint,
        Err(refused) => return write_refused(refused.number, refused.figure, counted, out),
    };
    if count < entry_count(list) {
        return write_refused(16, count as u64, counted, out);
    }
    write_answers(joint, count, &starts, &answers, out)
}

// Writes what the program writes at the start of `out`, and answers its length. Of the list `listed` bytes were read.
pub fn write_verdicts_of(
    tablefile: &[u8],
    head: &[u8; KEPT],
    scanned: Scanned,
    list: &[u8; LIST_LENGTH],
    listed: usize,
    out: &mut [u8; LINES_LENGTH],
) -> usize
    ensures text_written { TextWritten (file_lines tablefile.now head.now scanned (take (min listed list_length) list.now))
        out.old out.new result }
    ensures prefix_length { PrefixLength result out.new }
{
    let length = text_length(scanned);
    let text = kept_text(head, length);
    let all = &list[..];
    let list = &all[..listed.min(LIST_LENGTH)];
    write_lines(tablefile, text, length, list, out)
}
