// A prepared table put together: its first bytes, its names, its transitions.
ghost use Rattle.std.specs.Prelude.{◌≡◌, ◌++◌, ◌<◌, ◌≤◌, length};
ghost use Rattle.lts.specs.Reply.{overwritten};
ghost use Rattle.lts.specs.Sizes.{most_states, most_labels, most_transitions, table_length};
ghost use Rattle.lts.specs.inner.Sizes.{names_length, transitions_length};
ghost use Rattle.lts.specs.inner.Slots.{head_bytes};
ghost use Rattle.table_lines.specs.inner.LineReplies.{header};

use crate::HeaderFields;
use crate::slots::write_at;
use lts::sizes::{HEAD, TRANSITIONS_AT};

// The first bytes of a prepared table: the counts, and the start.
fn head_bytes(counts: HeaderFields) -> [u8; HEAD]
    requires { (counts.states ≤ most_states) × ((counts.labels ≤ most_labels) × ((counts.transitions ≤ most_transitions) × (counts.start < 256))) }
    ensures { result ≡ head_bytes (header counts) }
{
    let states = (counts.states as u16).to_le_bytes();
    let transitions = (counts.transitions as u16).to_le_bytes();
    [
        states[0],
        states[1],
        counts.labels as u8,
        transitions[0],
        transitions[1],
        counts.start as u8,
    ]
}

// The whole of it, behind one another.
pub fn write_table(table: &mut [u8], counts: HeaderFields, names: &[u8], slots: &[u8])
    requires table_length_in_bounds { (table_length ≤ length table.old) × ((length names.now ≡ names_length) × (length slots.now ≡ transitions_length)) }
    requires states_le_most_states { (counts.states ≤ most_states) × ((counts.labels ≤ most_labels) × ((counts.transitions ≤ most_transitions) × (counts.start < 256))) }
    ensures { table.new ≡ overwritten (head_bytes (header counts) ++ (names.now ++ slots.now)) table.old }
{
    let head = head_bytes(counts);
    write_at(table, 0, &head);
    write_at(table, HEAD, names);
    write_at(table, TRANSITIONS_AT, slots);
}
