// Whether bytes are a prepared table: the counts, each name's slot, each transition's slot, and zeros in the slots that are not used.
#![tactic(auto)]

ghost use Rattle.std.specs.Prelude.{◌≡◌, ◌+◌, ◌*◌, ◌≤◌, ◌<◌, length};
ghost use Rattle.lts.specs.Sizes.{most_labels, most_transitions, table_length};
ghost use Rattle.lts.specs.Steps.{labels};
ghost use Rattle.lts.specs.inner.Prepared.{table_in, name_at, transition_at, prepared_table};
ghost use Rattle.lts.specs.inner.Answers.{Counted, Decides, is_some};
ghost use Rattle.table_check.specs.inner.Filled.{HeldBefore, NamesFilled, TransitionsFilled};
ghost use Rattle.table_check.specs.inner.Keys.{step_key, SlotHeld};
ghost use Rattle.lts.specs.inner.Check.{ZerosFrom, CountsHeld, NameHeld, NewName, NamesHeld, TransitionsHeld};

use byte_words::words::word;
use label_names::{name_span, read_name};
use lts::sizes::{
    HEAD, LABELS, NAME_SLOT, NAME_SLOT_END, STATES, TABLE_LENGTH, TRANSITION, TRANSITIONS,
    TRANSITIONS_AT,
};
use tables::prepared::{label_count, start_state, state_count, transition_at, transition_count};

pub fn is_prepared(table: &[u8]) -> bool
    ensures { result ≡ is_some (prepared_table table.now) }
{
    table.len() >= TABLE_LENGTH
        && counts_held(table)
        && names_filled(table)
        && transitions_filled(table)
}

// Whether the name slots are as they must be: the names, and zeros behind them.
fn names_filled(table: &[u8]) -> bool
    requires { (table_length ≤ length table.now) × (labels (table_in table.now) ≤ most_labels) }
    ensures { Decides (NamesFilled table.now) result }
{
    names_held(table) && zeros(table, HEAD + label_count(table) * NAME_SLOT, TRANSITIONS_AT)
}

// The same of the transition slots.
fn transitions_filled(table: &[u8]) -> bool
    requires { (table_length ≤ length table.now) × (length (table_in table.now).transitions ≤ most_transitions) }
    ensures { Decides (TransitionsFilled table.now) result }
{
    transitions_held(table)
        && zeros(
            table,
            TRANSITIONS_AT + transition_count(table) * TRANSITION,
            TABLE_LENGTH,
        )
}

// Whether the bytes from `from` to before `to` are zero: they are taken together and tested once.
pub fn zeros(bytes: &[u8], from: usize, to: usize) -> bool
    requires { to ≤ length bytes.now }
    ensures { Decides (ZerosFrom bytes.now from to) result }
{
    let mut all = 0u8;
    for i in from..to {
        all |= bytes[i];
    }
    all == 0
}

fn counts_held(table: &[u8]) -> bool
    requires { table_length ≤ length table.now }
    ensures { Decides (CountsHeld (table_in table.now)) result }
{
    let states = state_count(table);
    1 <= states
        && states <= STATES
        && label_count(table) <= LABELS
        && transition_count(table) <= TRANSITIONS
        && start_state(table) < states
}

fn names_held(table: &[u8]) -> bool
    requires { (table_length ≤ length table.now) × (labels (table_in table.now) ≤ most_labels) }
    ensures { Decides (NamesHeld table.now) result }
{
    let n = label_count(table);
    for k in 0..n {
        if !name_held(table, k) || !new_name(table, k) {
            return false;
        }
    }
    true
}

fn name_held(table: &[u8], k: usize) -> bool
    requires { (table_length ≤ length table.now) × (k < most_labels) }
    ensures { Decides (NameHeld table.now k) result }
{
    let span = name_span(table, k);
    let at = span.from;
    let end = read_name(table, at).end;
    if end == at || end != span.to {
        return false;
    }
    zeros(table, end, NAME_SLOT_END + k * NAME_SLOT)
}

// Whether no slot before slot k holds its name.
fn new_name(table: &[u8], k: usize) -> bool
    requires { (table_length ≤ length table.now) × ((k < most_labels) × HeldBefore table.now (k + 1)) }
    ensures { Decides (NewName table.now k) result }
{
    for j in 0..k {
        if same_slot(table, j, k) {
            return false;
        }
    }
    true
}

// Whether two slots hold one name: then they have the same bytes, as zeros stand behind a name. Eight bytes are compared at once.
fn same_slot(table: &[u8], j: usize, k: usize) -> bool
    requires table_length_in_bounds { (table_length ≤ length table.now) × ((j < most_labels) × (k < most_labels)) }
    requires name_held { NameHeld table.now j × NameHeld table.now k }
    ensures { Decides (name_at table.now j ≡ name_at table.now k) result }
{
    let one = HEAD + j * NAME_SLOT;
    let other = HEAD + k * NAME_SLOT;
    word(table, one) == word(table, other) && word(table, one + 8) == word(table, other + 8)
}

// Keys rise from slot to slot, so the last one tells whether all transitions leave states.
fn transitions_held(table: &[u8]) -> bool
    requires { (table_length ≤ length table.now) × (length (table_in table.now).transitions ≤ most_transitions) }
    ensures { Decides (TransitionsHeld table.now) result }
{
    let n = transition_count(table);
    let states = state_count(table);
    let most = label_count(table);
    let mut least: usize = 0;
    for k in 0..n {
        if !slot_held(table, states, most, least, k) {
            return false;
        }
        least = step_key(table, k) + 1;
    }
    least <= states * 65536
}

fn slot_held(table: &[u8], states: usize, most: usize, least: usize, k: usize) -> bool
    requires { (table_length ≤ length table.now) × (k < most_transitions) }
    ensures { Decides (SlotHeld table.now states most least k) result }
{
    let here = transition_at(table, k);
    here.to < states && here.label <= most && least <= step_key(table, k)
}

// The transition in slot k as one number: they rise as these do.
fn step_key(table: &[u8], k: usize) -> usize
    requires { (table_length ≤ length table.now) × (k < most_transitions) }
    ensures { Counted 16777216 (step_key (transition_at table.now k)) result }
{
    let here = transition_at(table, k);
    (here.from * 256 + here.label) * 256 + here.to
}
