// Reading a formula's text over a prepared table.
#![tactic(auto)]

ghost use Rattle.std.specs.Prelude.{◌≡◌, ◌≤◌, length};
ghost use Rattle.lts.specs.inner.HoldsTable.{HoldsTable};
ghost use Rattle.actl.specs.Sizes.{formula_length};
ghost use Rattle.actl.specs.inner.Reading.{read_formula};
ghost use Rattle.actl.specs.inner.Readers.{names_in};
ghost use Rattle.formula_text.specs.inner.FormulaAnswers.{FormulaAnswered};
ghost use Rattle.formula_text.specs.Replies.{formula_reply};
ghost use Rattle.actl.specs.FormulaReading.{formula_replied, formula_left};
ghost use Rattle.actl.specs.ByGrammar.{FormulaByGrammar};

use crate::writing::answer;
use actl::sizes::{FORMULA_LENGTH, LONGEST_TEXT};
use formula_terms::read_text;
use lts::sizes::TABLE_LENGTH;

mod writing;

// Why `read_formula` refuses. specs/Replies.antt lists the number and the figure of each case.
#[derive(Clone, Copy)]
pub enum FormulaRefusal {
    TooLong(usize),
    NotGrammatical(usize),
    NameUnknown(usize),
    TooManyNodes(usize),
    NoClass(usize),
    TableForeign,
    BufferShort(usize),
}

// 01: "Formulas go 5, 6, 7, 8, 9." The text, over the bytes of a table.
pub fn read_text_over(table: &[u8], text: &[u8], formula: &mut [u8]) -> Result<(), FormulaRefusal>
    requires { HoldsTable table.now × (formula_length ≤ length formula.old) }
    ensures { FormulaAnswered (read_formula (names_in table.now) text.now) formula.old result formula.new }
{
    if LONGEST_TEXT < text.len() {
        return Err(FormulaRefusal::TooLong(text.len()));
    }
    let mut nodes = [0u8; FORMULA_LENGTH];
    let x = read_text(table, text, &mut nodes);
    match x {
        Err(longest) => Err(FormulaRefusal::NotGrammatical(longest)),
        Ok(whole) => answer(&nodes, whole.count, whole.lost, formula),
    }
}

// Reads a formula's text over a prepared table. 01: "Order: 14 first, then 10"; "Formulas go 5, 6, 7, 8, 9."
pub fn read_formula(table: &[u8], text: &[u8], formula: &mut [u8]) -> Result<(), FormulaRefusal>
    ensures result_value { formula_reply result ≡ formula_replied table.now text.now formula.old }
    ensures formula_after { formula.new ≡ formula_left table.now text.now formula.old }
    ensures formula_by_grammar { FormulaByGrammar table.now text.now formula.old (formula_reply result) formula.new }
{
    if table.len() < TABLE_LENGTH {
        return Err(FormulaRefusal::BufferShort(TABLE_LENGTH));
    }
    if formula.len() < FORMULA_LENGTH {
        return Err(FormulaRefusal::BufferShort(FORMULA_LENGTH));
    }
    if !table_check::is_prepared(table) {
        return Err(FormulaRefusal::TableForeign);
    }
    read_text_over(table, text, formula)
}
