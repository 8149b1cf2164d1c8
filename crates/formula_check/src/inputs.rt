// What every entry over a prepared table and a prepared formula tests first. 01: "Order: 14 first, then 10 (table before formula)."
ghost use Rattle.std.specs.Prelude.{◌≡◌};
ghost use Rattle.lts.specs.Reply.{accepted};
ghost use Rattle.actl.specs.FormulaReading.{on_prepared};
ghost use Rattle.formula_check.specs.Inputs.{inputs_reply};

use actl::sizes::FORMULA_LENGTH;
use formula_slots::is_prepared;
use lts::sizes::TABLE_LENGTH;
use tables::prepared::label_count;

// specs/Inputs.antt lists the number and the figure of each case.
#[derive(Clone, Copy)]
pub enum Unprepared {
    TableForeign,
    FormulaForeign,
    BufferShort(usize),
}

pub fn check_inputs(table: &[u8], formula: &[u8]) -> Result<(), Unprepared>
    ensures { inputs_reply result ≡ on_prepared table.now formula.now (λ t F. accepted tt) }
{
    if table.len() < TABLE_LENGTH {
        return Err(Unprepared::BufferShort(TABLE_LENGTH));
    }
    if formula.len() < FORMULA_LENGTH {
        return Err(Unprepared::BufferShort(FORMULA_LENGTH));
    }
    if !table_check::is_prepared(table) {
        return Err(Unprepared::TableForeign);
    }
    if !is_prepared(label_count(table), formula) {
        return Err(Unprepared::FormulaForeign);
    }
    Ok(())
}
