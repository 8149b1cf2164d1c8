// Walking a formula's nodes for numbering and classes: over their kinds in node order, from a node into its arms.
#![tactic(auto)]

ghost use Rattle.std.specs.Prelude.{◌≡◌, ◌≢◌, ℕ, ◌+◌, ◌*◌, ◌<◌, ◌≤◌, length, get_or, set, slice_index, take, EachIndex, MatchOption};
ghost use Rattle.actl.specs.Sizes.{most_nodes, formula_length};
ghost use Rattle.actl.specs.Formulas.{class_of_or};
ghost use Rattle.actl.specs.inner.Walk.{class_from, class_of_arm, kind_at, kinds_in};
ghost use Rattle.formula_classes.specs.inner.WalkReplies.{Walks, IsHighest, IsShape};
ghost use Rattle.formula_classes.specs.inner.Phases.{Room, NodeNoted, HasArm, RightWalks};
ghost use Rattle.lts.specs.inner.Answers.{Decides};
ghost use Rattle.actl.specs.inner.Check.{SpelledClassed};

use actl::sizes::{NODE_SLOT, NODES};
use formulas::node::node_count;

// 01: "The class of a node follows from this table": four for each kind, by the arm's class, the last for the node T. Zero is no class.
const CLASSES: [[u8; 4]; 10] = [
    [0, 0, 0, 0], // no kind
    [1, 1, 1, 1], // T
    [0, 2, 1, 2], // ~
    [0, 1, 0, 1], // |, by each arm
    [0, 1, 0, 1], // EX[.]
    [0, 1, 0, 1], // EX[A]
    [0, 0, 2, 2], // AX[.]
    [0, 0, 2, 2], // AX[A]
    [0, 1, 0, 1], // EU[A]
    [0, 1, 0, 1], // EU[A;B]
];

// A node that stands for a formula: the node before which that ends, and what it is as an arm.
#[derive(Clone, Copy)]
struct Walked {
    end: usize,
    arm: u8,
}

#[derive(Drop)]
pub struct Shape {
    pub count: usize,
    pub ends: [u8; NODES],
    pub classes: [u8; NODES],
}

fn class_from(kind: u8, arm: u8) -> u8
    requires kind_bound { kind < 10 }
    requires arm_bound { arm < 4 }
    ensures { result ≡ class_from kind arm }
{
    CLASSES[kind as usize][arm as usize]
}

fn class_of_or(left: u8, right: u8) -> u8
    requires left_bound { left < 4 }
    requires right_bound { right < 4 }
    ensures { result ≡ class_of_or (class_of_arm left) (class_of_arm right) }
{
    if class_from(3, left) == 0 {
        return 0;
    }
    class_from(3, right)
}

// Notes node k, and says what it is as an arm.
fn note(ends: &mut [u8], classes: &mut [u8], k: usize, end: usize, class: u8, arm: u8) -> Walked
    requires { (k < length ends.old) × (k < length classes.old) × (end < 256) }
    ensures { NodeNoted ends.old ends.new classes.old classes.new k end class arm result }
{
    ends[k] = end as u8;
    classes[k] = class;
    Walked { end, arm }
}

// The kind of node k, or 0 if there is no such node or it has no kind.
fn kind_at(kinds: &[u8], k: usize) -> u8
    ensures { result ≡ kind_at kinds.now k }
{
    if kinds.len() <= k {
        return 0;
    }
    let kind = kinds[k];
    if 9 < kind {
        return 0;
    }
    kind
}

// 01: "a node before its arms, the left arm before the right": the arms of node k have higher numbers, so each call has fewer nodes left.
#[cycle(walk_walk_arms_walk_right)]
fn walk(kinds: &[u8], k: usize, ends: &mut [u8], classes: &mut [u8]) -> Option<Walked>
    requires { Room kinds.now ends.old classes.old }
    ensures { Walks kinds.now ends.old ends.new classes.old classes.new k result }
{
    let kind = kind_at(kinds, k);
    if kind == 0 {
        return None;
    }
    if kind == 1 {
        return Some(note(ends, classes, k, k + 1, class_from(1, 0), 3));
    }
    walk_arms(kinds, k, kind, ends, classes)
}

// Node k, which has an arm, or two.
#[cycle(walk_walk_arms_walk_right)]
fn walk_arms(
    kinds: &[u8],
    k: usize,
    kind: u8,
    ends: &mut [u8],
    classes: &mut [u8],
) -> Option<Walked>
    requires room { Room kinds.now ends.old classes.old }
    requires has_arm { HasArm kinds.now k kind }
    ensures { Walks kinds.now ends.old ends.new classes.old classes.new k result }
{
    let left = walk(kinds, k + 1, ends, classes)?;
    if kind == 3 {
        return walk_right(kinds, k, left, ends, classes);
    }
    let class = class_from(kind, left.arm);
    Some(note(ends, classes, k, left.end, class, class))
}

// The right arm of node k, which is `|`, and then the node itself.
#[cycle(walk_walk_arms_walk_right)]
fn walk_right(
    kinds: &[u8],
    k: usize,
    left: Walked,
    ends: &mut [u8],
    classes: &mut [u8],
) -> Option<Walked>
    requires room { Room kinds.now ends.old classes.old }
    requires k_lt_middle { (k < left.end) × (left.arm < 4) }
    ensures { RightWalks kinds.now ends.old ends.new classes.old classes.new k left result }
{
    let right = walk(kinds, left.end, ends, classes)?;
    let class = class_of_or(left.arm, right.arm);
    Some(note(ends, classes, k, right.end, class, class))
}

// The last of the classes that is none.
fn last_none(classes: &[u8]) -> Option<usize>
    ensures { MatchOption result (EachIndex classes.now (λ k. slice_index classes.now k ≢ 0))
        (λ i. (i < length classes.now) × (slice_index classes.now i ≡ 0)
        × ((k : ℕ) → i < k → k < length classes.now → slice_index classes.now k ≢ 0)) }
{
    classes.iter().rposition(|class| *class == 0)
}

// The kinds of a prepared formula's first nodes.
fn kinds_in(formula: &[u8], count: usize) -> [u8; NODES]
    requires { (formula_length ≤ length formula.now) × (count ≤ most_nodes) }
    ensures { take count result ≡ kinds_in formula.now count }
{
    let mut kinds = [0u8; NODES];
    for k in 0..count {
        kinds[k] = formula[1 + k * NODE_SLOT];
    }
    kinds
}

// Walks the first nodes of a prepared formula, from node 0.
fn walk_nodes(formula: &[u8], count: usize, ends: &mut [u8], classes: &mut [u8]) -> Option<Walked>
    requires formula_length_in_bounds { (formula_length ≤ length formula.now) × (count ≤ most_nodes) }
    requires count_in_bounds { (count ≤ length ends.old) × (count ≤ length classes.old) }
    ensures { Walks (kinds_in formula.now count) ends.old ends.new classes.old classes.new 0 result }
{
    let kinds = kinds_in(formula, count);
    walk(&kinds[..count], 0, ends, classes)
}

// 01: "a node without class": "the highest-numbered one". Of a formula, by the slots of its nodes.
pub fn highest_classless(formula: &[u8], count: usize) -> Option<usize>
    requires { (formula_length ≤ length formula.now) × (count ≤ most_nodes) }
    ensures { IsHighest result (kinds_in formula.now count) }
{
    let mut ends = [0u8; NODES];
    let mut classes = [0u8; NODES];
    walk_nodes(formula, count, &mut ends, &mut classes);
    last_none(&classes[..count])
}

// Whether the first nodes of prepared bytes, in order, are those of one formula with a class.
pub fn spelled(formula: &[u8], count: usize) -> bool
    requires { (formula_length ≤ length formula.now) × (count ≤ most_nodes) }
    ensures { Decides (SpelledClassed formula.now count) result }
{
    let mut ends = [0u8; NODES];
    let mut classes = [0u8; NODES];
    let Some(root) = walk_nodes(formula, count, &mut ends, &mut classes) else {
        return false;
    };
    root.end == count && root.arm != 0
}

// Where the arms of each node of a prepared formula end, and each node's class.
pub fn shape_of(formula: &[u8]) -> Shape
    requires { formula_length ≤ length formula.now }
    ensures { IsShape result formula.now }
{
    let count = node_count(formula);
    let mut ends = [0u8; NODES];
    let mut classes = [0u8; NODES];
    if count <= NODES {
        walk_nodes(formula, count, &mut ends, &mut classes);
    }
    Shape {
        count,
        ends,
        classes,
    }
}

// The right arm of node k, if it has one: it stands behind the whole left arm.
pub fn right_arm(ends: &[u8; NODES], k: usize) -> usize
    requires { k < most_nodes }
    ensures { k + 1 < most_nodes → result ≡ get_or ends.now (k + 1) 0 }
{
    if k + 1 < NODES {
        usize::from(ends[k + 1])
    } else {
        NODES
    }
}
