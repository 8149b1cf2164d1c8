// Reading a table's text, line by line. Names and transitions are gathered in local bytes, laid out as in the prepared table, so that
// the lent bytes are written only when the whole text is accepted.
#![tactic(auto)]

ghost use Rattle.std.specs.Prelude.{◌≡◌, ◌+◌, ◌<◌, ◌≤◌, length, replicate};
ghost use Rattle.lts.specs.Sizes.{most_states, most_labels, most_transitions};
ghost use Rattle.lts.specs.inner.Sizes.{names_length, transitions_length};
ghost use Rattle.table_text.specs.Replies.{table_reply};
ghost use Rattle.lts.specs.TableReading.{table_replied, table_left};
ghost use Rattle.table_lines.specs.inner.LineReplies.{header};
ghost use Rattle.table_text.specs.inner.Progress.{LabelProgress, LabelsRead, TransitionProgress, TransitionsRead, LinesRead};

use label_names::find;
use lts::sizes::{NAMES_LENGTH, TABLE_LENGTH, TRANSITIONS_LENGTH};
use table_lines::slots::{rises, write_name, write_transition};
use table_lines::whole::write_table;
use table_lines::{
    HeaderFields, LabelFields, header_in_range, header_line, label_line, stands,
    transition_in_range, transition_line,
};

// Why `read_table` refuses a text. specs/Replies.antt lists the number and the figure of each case.
#[derive(Clone, Copy)]
pub enum TableRefusal {
    NotLaidOut(usize),
    OutOfRange(usize),
    NameRepeated(usize),
    NotRising(usize),
    BufferShort(usize),
}

// The line of the label after `count` names. Answers where the next line starts, as the functions below do.
fn read_label(text: &[u8], at: usize, names: &mut [u8], count: usize) -> Result<usize, TableRefusal>
    requires { (at ≤ length text.now) × ((length names.old ≡ names_length) × (count < most_labels)) }
    ensures { LabelProgress text.now at count names.old names.new result }
{
    let line = count + 2;
    let Some(LabelFields { number, end }) = label_line(text, at) else {
        return Err(TableRefusal::NotLaidOut(line));
    };
    if number != count + 1 {
        return Err(TableRefusal::OutOfRange(line));
    }
    let from = at + 7;
    let before = find(names, count, &text[from..end]);
    if before.is_some() {
        return Err(TableRefusal::NameRepeated(line));
    }
    write_name(names, count, &text[from..end]);
    Ok(end + 1)
}

// The lines of all labels, from `from`.
fn read_labels(
    text: &[u8],
    from: usize,
    counts: HeaderFields,
    names: &mut [u8],
) -> Result<usize, TableRefusal>
    requires { (from ≤ length text.now) × ((names.old ≡ replicate names_length 0) × (counts.labels ≤ most_labels)) }
    ensures { LabelsRead (header counts) text.now from names.new result }
{
    let mut at = from;
    for count in 0..counts.labels {
        at = read_label(text, at, names, count)?;
    }
    Ok(at)
}

// The line of the transition after `count` others.
fn read_transition(
    text: &[u8],
    at: usize,
    counts: HeaderFields,
    slots: &mut [u8],
    count: usize,
) -> Result<usize, TableRefusal>
    requires at_in_bounds { (at ≤ length text.now) × ((length slots.old ≡ transitions_length) × (count < most_transitions)) }
    requires states_le_most_states { (counts.states ≤ most_states) × (counts.labels ≤ most_labels) }
    ensures { TransitionProgress (header counts) text.now at count slots.old slots.new result }
{
    let line = counts.labels + count + 2;
    let Some(t) = transition_line(text, at) else {
        return Err(TableRefusal::NotLaidOut(line));
    };
    // 01: "on each line 1, 2": a number out of range counts only where the line is laid out.
    if !stands(text, at + 18, 10) {
        return Err(TableRefusal::NotLaidOut(line));
    }
    if !transition_in_range(counts, t) {
        return Err(TableRefusal::OutOfRange(line));
    }
    if !rises(slots, count, t) {
        return Err(TableRefusal::NotRising(line));
    }
    write_transition(slots, count, t);
    Ok(at + 19)
}

// The lines of all transitions, from `from`, and the end of the text.
fn read_transitions(
    text: &[u8],
    from: usize,
    counts: HeaderFields,
    slots: &mut [u8],
) -> Result<(), TableRefusal>
    requires from_in_bounds { (from ≤ length text.now) × (slots.old ≡ replicate transitions_length 0) }
    requires states_le_most_states { (counts.states ≤ most_states) × ((counts.labels ≤ most_labels) × (counts.transitions ≤ most_transitions)) }
    ensures { TransitionsRead (header counts) text.now from slots.new result }
{
    let mut at = from;
    for count in 0..counts.transitions {
        at = read_transition(text, at, counts, slots, count)?;
    }
    if at < text.len() {
        return Err(TableRefusal::NotLaidOut(counts.labels + counts.transitions + 2));
    }
    Ok(())
}

// The lines behind the first, into slots that are all zero.
fn read_lines(
    text: &[u8],
    counts: HeaderFields,
    names: &mut [u8],
    slots: &mut [u8],
) -> Result<(), TableRefusal>
    requires in_bounds { (25 ≤ length text.now) × ((names.old ≡ replicate names_length 0) × (slots.old ≡ replicate transitions_length 0)) }
    requires states_le_most_states { (counts.states ≤ most_states) × ((counts.labels ≤ most_labels) × (counts.transitions ≤ most_transitions)) }
    ensures { LinesRead (header counts) text.now names.new slots.new result }
{
    let at = read_labels(text, 25, counts, names)?;
    read_transitions(text, at, counts, slots)
}

// Reads a table's text into the prepared bytes.
pub fn read_table(text: &[u8], table: &mut [u8]) -> Result<(), TableRefusal>
    ensures result_value { table_reply result ≡ table_replied text.now table.old }
    ensures table_after { table.new ≡ table_left text.now table.old }
{
    if table.len() < TABLE_LENGTH {
        return Err(TableRefusal::BufferShort(TABLE_LENGTH));
    }
    let Some(counts) = header_line(text) else {
        return Err(TableRefusal::NotLaidOut(1));
    };
    if !header_in_range(counts) {
        return Err(TableRefusal::OutOfRange(1));
    }
    let mut names = [0u8; NAMES_LENGTH];
    let mut slots = [0u8; TRANSITIONS_LENGTH];
    read_lines(text, counts, &mut names, &mut slots)?;
    write_table(table, counts, &names, &slots);
    Ok(())
}
