// The letters of a word, one after the other: the positions that they reach. No rows are built.
#![tactic(auto)]

use crate::frontiers::{all_places, bring, clear, next_bit, next_state};
use automaton::sizes::{COLUMNS, MASKS_LENGTH, PLACES};
use frontier::sizes::FRONTIER;
use lts::sizes::{FIRSTS, STATES, STEPS};
use table_steps::{label_of, leaving, state_of};
use target_masks::column;

pub mod frontiers;

ghost use Rattle.std.specs.Prelude.{◌≡◌, ℕ, ◌<◌, ◌≤◌};
ghost use Rattle.lts.specs.Sizes.{most_states};
ghost use Rattle.lts.specs.inner.Sizes.{most_steps};
ghost use Rattle.lts.specs.inner.Steps.{Carried};
ghost use Rattle.table_steps.specs.inner.StepArray.{step_at, steps_in, StepsFit};
ghost use Rattle.frontier.specs.inner.Frontier.{nowhere, all_places};
ghost use Rattle.frontier.specs.inner.Reached.{targets_of, step_taken, steps_taken, places_read, letter_read, word_read, root_reached, Letters};

// The target places of a set of places on a label.
pub fn targets_of(masks: &[u64; MASKS_LENGTH], places: u64, label: usize) -> u64
    requires { Carried label }
    ensures { result ≡ targets_of masks.now places label }
{
    let at = column(label);
    let mut found = 0u64;
    let mut rest = places;
    let mut k = next_bit(rest, 0);
    while k < PLACES {
        found = found | masks[k * COLUMNS + at];
        rest = rest & (rest - 1);
        k = next_bit(rest, 0);
    }
    found
}

// Brings the places along step k, whichever state it leaves, if it has the label.
fn take_step(steps: &[u16; STEPS], k: usize, label: usize, places: u64, next: &mut [u64; FRONTIER])
    requires { k < most_steps }
    ensures { (s : ℕ) → next.new ≡ step_taken label places (step_at steps.now s k) next.old }
{
    let step = steps[k];
    if label_of(step) == label {
        bring(next, state_of(step), places);
    }
}

// Brings the places along the steps of s that have the label.
fn take_steps(
    steps: &[u16; STEPS],
    firsts: &[u16; FIRSTS],
    s: usize,
    label: usize,
    places: u64,
    next: &mut [u64; FRONTIER],
)
    requires steps_fit { StepsFit steps.now firsts.now }
    requires s_lt_most_states { s < most_states }
    ensures { next.new ≡ steps_taken label places (steps_in steps.now firsts.now s) next.old }
{
    let span = leaving(firsts, s);
    let end = span.to;
    for k in span.from..end {
        take_step(steps, k, label, places, next);
    }
}

// What a letter brings from the places of state s.
fn read_places(
    steps: &[u16; STEPS],
    firsts: &[u16; FIRSTS],
    masks: &[u64; MASKS_LENGTH],
    places: u64,
    label: usize,
    s: usize,
    next: &mut [u64; FRONTIER],
)
    requires steps_fit { StepsFit steps.now firsts.now }
    requires carried { Carried label × (s < most_states) }
    ensures { next.new ≡ places_read (steps_in steps.now firsts.now s) masks.now places label next.old }
{
    let targets = targets_of(masks, places, label);
    if targets != 0 {
        take_steps(steps, firsts, s, label, targets, next);
    }
}

// What a letter brings from all states that were reached.
fn read_letter(
    steps: &[u16; STEPS],
    firsts: &[u16; FIRSTS],
    masks: &[u64; MASKS_LENGTH],
    letter: u8,
    reached: &[u64; FRONTIER],
    next: &mut [u64; FRONTIER],
)
    requires steps_fit { StepsFit steps.now firsts.now }
    requires carried { Carried letter }
    ensures { next.new ≡ letter_read (steps_in steps.now firsts.now) masks.now letter reached.now next.old }
{
    let label = usize::from(letter);
    clear(next);
    let mut s = next_state(reached, 0);
    while s < STATES {
        read_places(steps, firsts, masks, reached[s], label, s, next);
        s = next_state(reached, s + 1);
    }
}

// Two letters: the frontiers take turns.
fn read_two(
    steps: &[u16; STEPS],
    firsts: &[u16; FIRSTS],
    masks: &[u64; MASKS_LENGTH],
    first: u8,
    second: u8,
    reached: &mut [u64; FRONTIER],
    next: &mut [u64; FRONTIER],
)
    requires steps_fit { StepsFit steps.now firsts.now }
    requires carried { Carried first × Carried second }
    ensures next_after { next.new ≡ letter_read (steps_in steps.now firsts.now) masks.now first reached.old next.old }
    ensures reached_after { reached.new ≡ letter_read (steps_in steps.now firsts.now) masks.now second next.new reached.old }
{
    read_letter(steps, firsts, masks, first, reached, next);
    read_letter(steps, firsts, masks, second, next, reached);
}

// The places to which the word leads from the root at a start state. Two frontiers take turns. The two arrays may be fields of one value.
pub fn read_word<'a>(
    steps: &'a [u16; STEPS],
    firsts: &'a [u16; FIRSTS],
    masks: &[u64; MASKS_LENGTH],
    start: usize,
    word: &[u8],
) -> u64
    requires steps_fit { StepsFit steps.now firsts.now }
    requires start_lt_most_states { start < most_states }
    requires letters { Letters word.now }
    ensures { result ≡ all_places (word_read (steps_in steps.now firsts.now) masks.now word.now (root_reached start) nowhere) }
{
    let mut reached = [0u64; FRONTIER];
    let mut next = [0u64; FRONTIER];
    bring(&mut reached, start, 1);
    let mut i = 0;
    while i + 1 < word.len() {
        read_two(
            steps,
            firsts,
            masks,
            word[i],
            word[i + 1],
            &mut reached,
            &mut next,
        );
        i += 2;
    }
    if i < word.len() {
        read_letter(steps, firsts, masks, word[i], &reached, &mut next);
        return all_places(&next);
    }
    all_places(&reached)
}
