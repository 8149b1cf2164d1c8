// The slots that reading fills, laid out as in the prepared table: names, transitions, and whether a transition rises.
ghost use Rattle.std.specs.Prelude.{◌≡◌, ◌+◌, ◌*◌, ◌<◌, ◌≤◌, length};
ghost use Rattle.lts.specs.Sizes.{most_transitions, name_slot_length, transition_length};
ghost use Rattle.lts.specs.inner.Sizes.{transitions_length};
ghost use Rattle.columns.specs.inner.Write.{pasted};
ghost use Rattle.lts.specs.inner.Sizes.{longest_name};
ghost use Rattle.lts.specs.Prepared.{transition_slot};
ghost use Rattle.lts.specs.inner.Slots.{rises_after, counted};
ghost use Rattle.tables.specs.inner.Access.{step_in};

use lts::sizes::{NAME_SLOT, TRANSITION};
use tables::prepared::{Transition, below};

// Whether a transition is above the last of the first `count` in the transition slots.
pub fn rises(slots: &[u8], count: usize, t: Transition) -> bool
    requires { (length slots.now ≡ transitions_length) × (count ≤ most_transitions) }
    ensures { result ≡ rises_after slots.now count (step_in t) }
{
    if count == 0 {
        return true;
    }
    let i = (count - 1) * TRANSITION;
    let last = Transition {
        from: usize::from(slots[i]),
        label: usize::from(slots[i + 1]),
        to: usize::from(slots[i + 2]),
    };
    below(last, t)
}

pub fn write_at(bytes: &mut [u8], at: usize, part: &[u8])
    requires { at + length part.now ≤ length bytes.old }
    ensures { bytes.new ≡ pasted bytes.old at part.now }
{
    for i in 0..part.len() {
        bytes[at + i] = part[i];
    }
}

pub fn write_transition(slots: &mut [u8], count: usize, t: Transition)
    requires { (count * transition_length + transition_length ≤ length slots.old) × ((t.from < 256) × ((t.label < 256) × (t.to < 256))) }
    ensures { slots.new ≡ pasted slots.old (count * transition_length) (transition_slot (step_in t)) }
{
    let i = count * TRANSITION;
    slots[i..i + TRANSITION].copy_from_slice(&[t.from as u8, t.label as u8, t.to as u8]);
}

pub fn write_name(names: &mut [u8], count: usize, name: &[u8])
    requires { (count * name_slot_length + name_slot_length ≤ length names.old) × (length name.now ≤ longest_name) }
    ensures { names.new ≡ pasted names.old (count * name_slot_length) (counted name.now) }
{
    let i = count * NAME_SLOT;
    names[i] = name.len() as u8;
    write_at(names, i + 1, name);
}
