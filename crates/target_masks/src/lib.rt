// The places that a step leads to, as masks, and the final places of a prepared formula: from the last node to the first, so that arms
// come before their node.
#![tactic(auto)]

ghost use Rattle.std.specs.Prelude.{◌≡◌, cond, not, ◌+◌, ◌^◌, ◌<◌, ◌≤◌, eqb, length, get_or};
ghost use Rattle.actl.specs.Sizes.{most_nodes, formula_length};
ghost use Rattle.automaton.specs.inner.Sizes.{column_count, masks_length};
ghost use Rattle.lts.specs.inner.Steps.{Carried};
ghost use Rattle.actl.specs.Actions as actions;
ghost use Rattle.actl.specs.Formulas.{Formula};
ghost use Rattle.actl.specs.inner.Prepared.{slot_at};
ghost use Rattle.target_masks.specs.inner.Masks.{bit_if, column_of, mask_on, mask_of_node, final_of_node, Spells, MasksFit, MasksOf, MasksOn, FinalsOf, Cleared};

use actl::sizes::{NODE_SLOT, NODES};
use automaton::sizes::{COLUMNS, MASKS_LENGTH, PLACES};
use formula_classes::right_arm;
use formulas::conditions::{in_set, meets, passes};
use formulas::node::{Node, node_at, node_count};
use lts::sizes::IDLE;

// Bit k, if it is wanted.
pub fn bit_if(wanted: bool, k: usize) -> u64
    requires { k ≤ most_nodes }
    ensures { result ≡ bit_if wanted k }
{
    if wanted { 1 << k } else { 0 }
}

// 01: "EU[A] and EU[A;B] remain at their place if a is silent or meets A".
fn stays(set: u64, label: usize, k: usize) -> u64
    requires { (k ≤ most_nodes) × Carried label }
    ensures { result ≡ bit_if (actions.passes set label) k }
{
    bit_if(passes(set, label), k)
}

// A step of AX from place k: to the arm if the condition is met, unless the arm is T, and else to END.
fn all_steps(met: bool, last: bool, end: usize, k: usize) -> u64
    requires { (k < most_nodes) × (end ≤ most_nodes) }
    ensures { result ≡ cond met (bit_if (not last) (k + 1)) (2 ^ end) }
{
    if met {
        bit_if(!last, k + 1)
    } else {
        bit_if(true, end)
    }
}

// A node's mask, from the masks of its arms; `last` says whether its arm is T.
fn node_mask(
    node: Node,
    end: usize,
    k: usize,
    label: usize,
    last: bool,
    arm: u64,
    other: u64,
) -> u64
    requires { (k < most_nodes) × ((end ≤ most_nodes) × Carried label) }
    ensures { result ≡ mask_of_node node end k label last arm other }
{
    match node {
        Node::True => 0,
        Node::Not => arm,
        Node::Or => arm | other,
        Node::Ex(c) => bit_if(meets(c, label), k + 1),
        Node::Ax(c) => all_steps(meets(c, label), last, end, k),
        Node::Until(a) => stays(a, label, k) | arm,
        Node::UntilThen(a, b) => stays(a, label, k) | bit_if(in_set(b, label), k + 1),
    }
}

// Whether a node is final, from its arms.
fn node_final(node: Node, arm: bool, other: bool) -> bool
    ensures { result ≡ final_of_node node arm other }
{
    match node {
        Node::True => true,
        Node::Not => arm,
        Node::Or => arm || other,
        Node::Ex(_) => false,
        Node::Ax(_) => false,
        Node::Until(_) => arm,
        Node::UntilThen(_, _) => false,
    }
}

// The right arm of node k, if it has one and the number is a place.
fn other_arm(ends: &[u8; NODES], k: usize) -> usize
    requires { k < most_nodes }
    ensures upper_bound { result ≤ most_nodes }
    ensures value { k + 1 < most_nodes → get_or ends.now (k + 1) 0 ≤ 40 → result ≡ get_or ends.now (k + 1) 0 }
{
    right_arm(ends, k).min(NODES)
}

// Whether node k is T.
fn is_true(formula: &[u8], k: usize) -> bool
    requires { formula_length ≤ length formula.now }
    ensures { k < most_nodes → result ≡ eqb (slot_at formula.now k).kind 1 }
{
    k < NODES && formula[1 + k * NODE_SLOT] == 1
}

// The column of a label among the masks of a place: the idle step has that of label 0, the other silent one.
pub fn column(label: usize) -> usize
    requires { Carried label }
    ensures { (result ≡ column_of label) × (result < column_count) }
{
    if label == IDLE { 0 } else { label }
}

// The target places of a place on a label.
pub fn mask_on(masks: &[u64; MASKS_LENGTH], place: usize, label: usize) -> u64
    requires { (place ≤ most_nodes) × Carried label }
    ensures { result ≡ mask_on masks.now place label }
{
    masks[place * COLUMNS + column(label)]
}

// The masks of place k, from those of the places behind it.
fn mask_place(formula: &[u8], ends: &[u8; NODES], masks: &mut [u64; MASKS_LENGTH], k: usize)
    requires formula_length_in_bounds { (formula_length ≤ length formula.now) × (k < get_or formula.now 0 0) }
    requires spells { (F : Formula) × Spells formula.now ends.now F }
    requires masks_on { (F : Formula) → Spells formula.now ends.now F → MasksOn F k 0 masks.old }
    ensures { (F : Formula) → Spells formula.now ends.now F → MasksOn F k column_count masks.new }
{
    let end = node_count(formula);
    let node = node_at(formula, k);
    let last = is_true(formula, k + 1);
    let right = other_arm(ends, k);
    for l in 0..COLUMNS {
        let at = column(l);
        let arm = masks[(k + 1) * COLUMNS + at];
        let other = masks[right * COLUMNS + at];
        masks[k * COLUMNS + at] = node_mask(node, end, k, l, last, arm, other);
    }
}

// The masks of every place, into cleared ones: place k and label l at k * 41 + column(l). END has none.
pub fn fill_masks(formula: &[u8], ends: &[u8; NODES], masks: &mut [u64; MASKS_LENGTH])
    requires formula_length_in_bounds { formula_length ≤ length formula.now }
    requires spells { (F : Formula) × Spells formula.now ends.now F }
    requires cleared { Cleared masks_length masks.old }
    ensures { (F : Formula) → Spells formula.now ends.now F → MasksOf F 0 masks.new × MasksFit masks.new }
{
    for k in (0..node_count(formula)).rev() {
        mask_place(formula, ends, masks, k);
    }
}

// The same, in an array of its own.
pub fn target_masks(formula: &[u8], ends: &[u8; NODES]) -> [u64; MASKS_LENGTH]
    requires formula_length_in_bounds { formula_length ≤ length formula.now }
    requires spells { (F : Formula) × Spells formula.now ends.now F }
    ensures { (F : Formula) → Spells formula.now ends.now F → MasksOf F 0 result × MasksFit result }
{
    let mut masks = [0u64; MASKS_LENGTH];
    fill_masks(formula, ends, &mut masks);
    masks
}

// Whether each place is final. END is.
pub fn final_places(formula: &[u8], ends: &[u8; NODES]) -> [bool; PLACES]
    requires formula_length_in_bounds { formula_length ≤ length formula.now }
    requires spells { (F : Formula) × Spells formula.now ends.now F }
    ensures { (F : Formula) → Spells formula.now ends.now F → FinalsOf F 0 result }
{
    let mut finals = [true; PLACES];
    for k in (0..node_count(formula)).rev() {
        let arm = finals[k + 1];
        let other = finals[other_arm(ends, k)];
        finals[k] = node_final(node_at(formula, k), arm, other);
    }
    finals
}
