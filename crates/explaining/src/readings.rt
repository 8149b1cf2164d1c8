// Reading both texts, the formula's over the table that was read, whose bytes are not checked again.
ghost use Rattle.std.specs.Prelude.{◌≡◌, ◌≢◌, IfErr, length};
ghost use Rattle.actl.specs.Sizes.{formula_length};
ghost use Rattle.lts.specs.Sizes.{table_length};
ghost use Rattle.explaining.specs.inner.Readings.{ReadBoth};
ghost use Rattle.explanations.specs.inner.BothTexts.{readings};

use formula_text::read_text_over;
use replies::{Answer, accepted, formula_answer, table_answer};
use table_text::read_table;

pub fn read_both(
    tabletext: &[u8],
    formulatext: &[u8],
    table: &mut [u8],
    formula: &mut [u8],
) -> Result<(), Answer>
    requires { (length table.old ≡ table_length) × (length formula.old ≡ formula_length) }
    ensures both { ReadBoth (readings tabletext.now formulatext.now) result table.new formula.new }
    ensures refused { IfErr result (λ a. a.number ≢ 0) }
{
    accepted(table_answer(read_table(tabletext, table)))?;
    accepted(formula_answer(read_text_over(table, formulatext, formula)))?;
    Ok(())
}
