// What stands in the bytes of a prepared table: counts and transitions.
// docs/FORMATS.md has the layout.
ghost use Rattle.std.specs.Prelude.{◌≡◌, ◌+◌, ◌*◌, ◌≤◌, ◌<◌, length};
ghost use Rattle.lts.specs.Sizes.{most_transitions, table_length};
ghost use Rattle.lts.specs.Steps.{labels};
ghost use Rattle.lts.specs.inner.Prepared.{table_in, byte_at};
ghost use Rattle.lts.specs.Reading.{step_below};
ghost use Rattle.tables.specs.inner.Access.{StepRead, step_in};
ghost use Rattle.lts.specs.inner.Answers.{Counted};

use lts::sizes::{LABELS_AT, TARGETS_AT, TRANSITION, TRANSITIONS_AT};

// Transitions rise by (from, label, to), in the order of the fields.
#[derive(Clone, Copy, PartialEq, Eq, PartialOrd, Ord)]
pub struct Transition {
    pub from: usize,
    pub label: usize,
    pub to: usize,
}

pub fn byte(table: &[u8], i: usize) -> usize
    requires { i < length table.now }
    ensures { Counted 256 (byte_at table.now i) result }
{
    table[i] as usize
}

// The number in two bytes, the low one first.
fn two_bytes(table: &[u8], i: usize) -> usize
    requires { i + 1 < length table.now }
    ensures { Counted 65536 (byte_at table.now i + byte_at table.now (i + 1) * 256) result }
{
    byte(table, i) + byte(table, i + 1) * 256
}

pub fn state_count(table: &[u8]) -> usize
    requires { table_length ≤ length table.now }
    ensures { Counted 65536 (table_in table.now).states result }
{
    two_bytes(table, 0)
}

pub fn label_count(table: &[u8]) -> usize
    requires { table_length ≤ length table.now }
    ensures { Counted 256 (labels (table_in table.now)) result }
{
    byte(table, 2)
}

pub fn transition_count(table: &[u8]) -> usize
    requires { table_length ≤ length table.now }
    ensures { Counted 65536 (length (table_in table.now).transitions) result }
{
    two_bytes(table, 3)
}

pub fn start_state(table: &[u8]) -> usize
    requires { table_length ≤ length table.now }
    ensures { Counted 256 (table_in table.now).start result }
{
    byte(table, 5)
}

pub fn transition_at(table: &[u8], k: usize) -> Transition
    requires { (table_length ≤ length table.now) × (k < most_transitions) }
    ensures { StepRead table.now k result }
{
    let at = k * TRANSITION;
    Transition {
        from: byte(table, TRANSITIONS_AT + at),
        label: byte(table, LABELS_AT + at),
        to: byte(table, TARGETS_AT + at),
    }
}

// Whether a stands before b in a table.
pub fn below(a: Transition, b: Transition) -> bool
    ensures { result ≡ step_below (step_in a) (step_in b) }
{
    a < b
}
