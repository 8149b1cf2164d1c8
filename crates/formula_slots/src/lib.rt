// The check that prepared formula bytes are the one form of a formula, over a table's labels.
#![tactic(auto)]

ghost use Rattle.std.specs.Prelude.{◌≡◌, ◌&&◌, ◌||◌, ◌+◌, ◌*◌, ◌<◌, ◌≤◌, eqb, leb, length};
ghost use Rattle.actl.specs.Sizes.{most_nodes, formula_length};
ghost use Rattle.lts.specs.Sizes.{most_labels};
ghost use Rattle.lts.specs.inner.Answers.{Decides};
ghost use Rattle.actl.specs.Prepared.{mask_within, FormOfSome};
ghost use Rattle.actl.specs.inner.Prepared.{slot_at};
ghost use Rattle.actl.specs.inner.Shaped.{first_used, second_used};
ghost use Rattle.actl.specs.inner.Check.{is_prepared, slot_fits, slots_fit, zeros_from};

use actl::sizes::{FORMULA_LENGTH, NODE_SLOT, NODES};
use formula_classes::spelled;
use formulas::node::{first_mask, node_count, second_mask};
use table_check::zeros;

// 01: "sets within this table's labels": no bit 0, and none above the labels.
fn within(labels: usize, set: u64) -> bool
    ensures { result ≡ mask_within labels set }
{
    set % 2 == 0 && (63 <= labels || set >> (labels + 1) == 0)
}

// A mask that the kind has is a set; one that it does not have is zero.
fn mask_fits(labels: usize, set: u64, used: bool) -> bool
    ensures { result ≡ ((used || eqb set 0) && mask_within labels set) }
{
    if used { within(labels, set) } else { set == 0 }
}

// How many of its masks a kind has (docs/FORMATS.md).
const MASKS: [u8; 10] = [0, 0, 0, 0, 0, 1, 0, 1, 1, 2];

fn masks_of(kind: u8) -> u8
    requires { kind < 10 }
    ensures result_value { leb 1 result ≡ first_used kind }
    ensures result_value_2 { eqb result 2 ≡ second_used kind }
{
    MASKS[kind as usize]
}

fn slot_fits(labels: usize, formula: &[u8], k: usize) -> bool
    requires { (formula_length ≤ length formula.now) × (k < most_nodes) }
    ensures { result ≡ slot_fits labels (slot_at formula.now k) }
{
    let kind = formula[1 + k * NODE_SLOT];
    if !(1..=9).contains(&kind) {
        return false;
    }
    let masks = masks_of(kind);
    let first = mask_fits(labels, first_mask(formula, k), 1 <= masks);
    let second = mask_fits(labels, second_mask(formula, k), masks == 2);
    first && second
}

fn slots_fit(labels: usize, formula: &[u8], count: usize) -> bool
    requires { (formula_length ≤ length formula.now) × (count ≤ most_nodes) }
    ensures { result ≡ slots_fit labels formula.now count }
{
    for k in 0..count {
        if !slot_fits(labels, formula, k) {
            return false;
        }
    }
    true
}

fn zeros_from(formula: &[u8], from: usize) -> bool
    requires { (formula_length ≤ length formula.now) × (from ≤ formula_length) }
    ensures { result ≡ zeros_from formula.now from }
{
    zeros(formula, from, FORMULA_LENGTH)
}

// 01: "formula bytes that aren't the one form, given in docs/, of 1 to 40 nodes in order, each with a class, sets within this table's labels"
pub fn is_prepared(labels: usize, formula: &[u8]) -> bool
    ensures value { result ≡ is_prepared labels formula.now }
    ensures decides { labels ≤ most_labels → Decides (FormOfSome labels formula.now) result }
{
    if formula.len() < FORMULA_LENGTH {
        return false;
    }
    let count = node_count(formula);
    if NODES < count {
        return false;
    }
    if !slots_fit(labels, formula, count) {
        return false;
    }
    if !zeros_from(formula, 1 + count * NODE_SLOT) {
        return false;
    }
    spelled(formula, count)
}
