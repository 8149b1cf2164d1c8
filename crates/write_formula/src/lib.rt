// Writing a prepared formula back as text, over its table.
#![tactic(auto)]

ghost use Rattle.std.specs.Prelude.{◌≡◌, ◌≤◌, length};
ghost use Rattle.actl.specs.Sizes.{longest_text};
ghost use Rattle.lts.specs.Steps.{labels};
ghost use Rattle.lts.specs.inner.HoldsTable.{HoldsTable};
ghost use Rattle.lts.specs.inner.Prepared.{table_in};
ghost use Rattle.actl.specs.inner.HoldsFormula.{HoldsFormula};
ghost use Rattle.write_formula.specs.inner.Line.{LineWritten};
ghost use Rattle.written_back.specs.FormulaWriting.{formula_written, text_left};
ghost use Rattle.written_back.specs.ReadBack.{Restored};
ghost use Rattle.write_formula.specs.Replies.{write_reply};
ghost use Rattle.write_formula.specs.declared.WriteRefusal.{WriteRefusal};

use actl::sizes::{FORMULA_LENGTH, LONGEST_TEXT};
use byte_copy::copy;
use formula_check::inputs::{Unprepared, check_inputs};
use formula_walk::write_nodes;
use lts::sizes::TABLE_LENGTH;

// Why `write_formula` refuses. specs/Replies.antt lists the number and the figure of each case.
#[derive(Clone, Copy)]
pub enum WriteRefusal {
    TooLong(usize),
    Unprepared(Unprepared),
}

impl From<Unprepared> for WriteRefusal {
    ghost from_gives = { λ why refusal. refusal ≡ WriteRefusal.Unprepared why };

    fn from(why: Unprepared) -> WriteRefusal {
        WriteRefusal::Unprepared(why)
    }
}

// The formula's text goes into the first bytes of `text`; its length. 02: 15 for a text over 512 bytes, "after 10 and 14".
pub fn write_formula(table: &[u8], formula: &[u8], text: &mut [u8]) -> Result<usize, WriteRefusal>
    ensures result_value { write_reply result ≡ formula_written table.now formula.now text.old }
    ensures text_after { text.new ≡ text_left table.now formula.now text.old }
    ensures restored { Restored table.now formula.now (write_reply result) text.new }
{
    if table.len() < TABLE_LENGTH {
        return Err(WriteRefusal::Unprepared(Unprepared::BufferShort(TABLE_LENGTH)));
    }
    if formula.len() < FORMULA_LENGTH {
        return Err(WriteRefusal::Unprepared(Unprepared::BufferShort(FORMULA_LENGTH)));
    }
    if text.len() < LONGEST_TEXT {
        return Err(WriteRefusal::Unprepared(Unprepared::BufferShort(LONGEST_TEXT)));
    }
    check_inputs(table, formula)?;
    write_prepared(table, formula, text)
}

// The same, of prepared bytes.
fn write_prepared(table: &[u8], formula: &[u8], text: &mut [u8]) -> Result<usize, WriteRefusal>
    requires holds_table { HoldsTable table.now × (longest_text ≤ length text.old) }
    requires holds_formula { HoldsFormula (labels (table_in table.now)) formula.now }
    ensures { LineWritten table.now formula.now text.old text.new result }
{
    let mut line = [0u8; LONGEST_TEXT];
    let n = write_nodes(table, formula, &mut line);
    if LONGEST_TEXT < n {
        return Err(WriteRefusal::TooLong(n));
    }
    copy(&line[..n], text);
    Ok(n)
}
