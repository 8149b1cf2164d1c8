// The answer behind the grammar, and the prepared bytes: what reading left goes into the lent buffer.
ghost use Rattle.std.specs.Prelude.{◌≡◌, ◌≤◌, length};
ghost use Rattle.actl.specs.Sizes.{most_nodes, formula_length};
ghost use Rattle.columns.specs.inner.Write.{pasted};
ghost use Rattle.actl.specs.inner.Writing.{prepared_bytes};
ghost use Rattle.formula_text.specs.inner.FormulaAnswers.{FormulaAnsweredWith};

use crate::FormulaRefusal;
use actl::sizes::{FORMULA_LENGTH, NODES};
use byte_copy::copy;
use formula_classes::highest_classless;

// The node count, then the nodes and the zeros behind them.
fn write_bytes(nodes: &[u8], n: usize, formula: &mut [u8])
    requires { (length nodes.now ≡ formula_length) × (n ≤ most_nodes) × (formula_length ≤ length formula.old) }
    ensures { formula.new ≡ pasted formula.old 0 (prepared_bytes nodes.now n) }
{
    copy(&nodes[..FORMULA_LENGTH], formula);
    formula[0] = n as u8;
}

// 01: "Formulas go 5, 6, 7, 8, 9." The last three, of a text that is grammatical; and else the bytes are written.
pub fn answer(
    nodes: &[u8; FORMULA_LENGTH],
    n: usize,
    lost: usize,
    formula: &mut [u8],
) -> Result<(), FormulaRefusal>
    requires { (length nodes.now ≡ formula_length) × (formula_length ≤ length formula.old) }
    ensures { FormulaAnsweredWith nodes.now n lost formula.old result formula.new }
{
    if lost != 0 {
        return Err(FormulaRefusal::NameUnknown(lost - 1));
    }
    if NODES < n {
        return Err(FormulaRefusal::TooManyNodes(n));
    }
    if let Some(k) = highest_classless(nodes, n) {
        return Err(FormulaRefusal::NoClass(k));
    }
    write_bytes(nodes, n, formula);
    Ok(())
}
