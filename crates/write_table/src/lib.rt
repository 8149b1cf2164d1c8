// Writing a prepared table back as text.
#![tactic(auto)]

ghost use Rattle.std.specs.Prelude.{◌≡◌};
ghost use Rattle.write_table.specs.Replies.{text_reply};
ghost use Rattle.write_table.specs.TableWriting.{table_written, table_text_left, ReadsBack};

use lts::sizes::{LONGEST_TABLE_TEXT, TABLE_LENGTH};
use table_check::is_prepared;
use written_lines::write_lines;

// Why `table_text` refuses. specs/Replies.antt lists the number and the figure of each case.
#[derive(Clone, Copy)]
pub enum TextRefusal {
    TableForeign,
    BufferShort(usize),
}

// The table's text goes into the first bytes of `text`: the length is answered. Nothing is written before all tests are passed.
pub fn table_text(table: &[u8], text: &mut [u8]) -> Result<usize, TextRefusal>
    ensures result_value { text_reply result ≡ table_written table.now text.old }
    ensures text_after { text.new ≡ table_text_left table.now text.old }
    ensures reads_back { ReadsBack table.now (text_reply result) text.new }
{
    if table.len() < TABLE_LENGTH {
        return Err(TextRefusal::BufferShort(TABLE_LENGTH));
    }
    if text.len() < LONGEST_TABLE_TEXT {
        return Err(TextRefusal::BufferShort(LONGEST_TABLE_TEXT));
    }
    if !is_prepared(table) {
        return Err(TextRefusal::TableForeign);
    }
    Ok(write_lines(table, text))
}
