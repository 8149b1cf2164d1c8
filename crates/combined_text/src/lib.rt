// What the program `print_combined` writes for its two files: the text of the table in which both tables run side by side, or the refusal's line.
#![tactic(auto)]

ghost use Rattle.std.specs.Prelude.{◌≡◌, ◌≤◌, length};
ghost use Rattle.explanations.specs.inner.Printed.{TextWritten};
ghost use Rattle.files.specs.inner.Writing.{PrefixLength};
ghost use Rattle.lts.specs.Sizes.{table_length, longest_table_text};
ghost use Rattle.combined_text.specs.CombinedText.{refused_line, combined_text};
ghost use Rattle.combined_text.specs.inner.Reading.{FileRead, BothHeld, BothWritten};

use columns::write::write_numbers;
use combine::combine;
use lts::sizes::{LONGEST_TABLE_TEXT, TABLE_LENGTH};
use replies::{Answer, accepted, table_answer};
use table_text::read_table;
use writing_replies::{combine_answer, text_answer};

// The longest text of a table.
pub const COMBINED_LENGTH: usize = LONGEST_TABLE_TEXT;

// A refusal's line, about one of the files or about both together.
fn write_refused(file: u64, number: u32, figure: u64, out: &mut [u8]) -> usize
    requires { 81 ≤ length out.old }
    ensures { TextWritten (refused_line file number figure) out.old out.new result }
{
    write_numbers([number as u64, figure, file, 0], 3, out, 0)
}

// Reads a file's table.
fn read_file(file: &[u8], table: &mut [u8]) -> Result<u64, Answer>
    requires { length table.old ≡ table_length }
    ensures { FileRead file.now table.new result }
{
    accepted(table_answer(read_table(file, table)))
}

// Two prepared tables, combined and written.
fn write_both(first: &[u8], second: &[u8], out: &mut [u8]) -> usize
    requires { BothHeld first.now second.now × (longest_table_text ≤ length out.old) }
    ensures { BothWritten first.now second.now out.old out.new result }
{
    let mut combined = [0u8; TABLE_LENGTH];
    let said = combine_answer(combine(first, second, &mut combined));
    match accepted(said) {
        Ok(_) => {}
        Err(refused) => return write_refused(0, refused.number, refused.figure, out),
    }
    let written = text_answer(write_table::table_text(&combined, out));
    written.figure as usize
}

// Writes what the program writes for two files at the start of `out`, and answers its length.
fn write_files(firstfile: &[u8], secondfile: &[u8], out: &mut [u8]) -> usize
    requires { length out.old ≡ longest_table_text }
    ensures text_written { TextWritten (combined_text firstfile.now secondfile.now) out.old out.new result }
    ensures prefix_length { PrefixLength result out.new }
{
    let mut first = [0u8; TABLE_LENGTH];
    match read_file(firstfile, &mut first) {
        Ok(_) => {}
        Err(one) => return write_refused(1, one.number, one.figure, out),
    }
    let mut second = [0u8; TABLE_LENGTH];
    match read_file(secondfile, &mut second) {
        Ok(_) => {}
        Err(two) => return write_refused(2, two.number, two.figure, out),
    }
    write_both(&first, &second, out)
}

// The same, into as many bytes as the program has.
pub fn write_combined_of(
    firstfile: &[u8],
    secondfile: &[u8],
    out: &mut [u8; COMBINED_LENGTH],
) -> usize
    ensures text_written { TextWritten (combined_text firstfile.now secondfile.now) out.old out.new result }
    ensures prefix_length { PrefixLength result out.new }
{
    write_files(firstfile, secondfile, out)
}
