// The lines of a table's text: what each says, where the next one starts, and whether its numbers are in range.
#![tactic(auto)]

ghost use Rattle.std.specs.Prelude.{◌≡◌, ◌+◌, ◌<◌, ◌≤◌, eqb, length, get_or};
ghost use Rattle.lts.specs.Reading.{header_in_range, step_in_range};
ghost use Rattle.table_lines.specs.inner.LineReplies.{pair_at, header, HeaderAnswer, LabelAnswer, TransitionAnswer};
ghost use Rattle.tables.specs.inner.Access.{step_in};

use columns::read_column;
use columns::small::small_at;
use label_names::read_name;
use lts::sizes::{LABELS, STATES, TRANSITIONS};
use tables::prepared::Transition;

pub mod slots;
pub mod whole;

// What line 1 says.
#[derive(Clone, Copy)]
pub struct HeaderFields {
    pub states: usize,
    pub labels: usize,
    pub transitions: usize,
    pub start: usize,
}

// A label's number, and where its name ends.
#[derive(Clone, Copy)]
pub struct LabelFields {
    pub number: usize,
    pub end: usize,
}

// Whether a byte stands at a place.
pub fn stands(text: &[u8], at: usize, byte: u8) -> bool
    ensures { result ≡ eqb (get_or text.now at 256) byte }
{
    at < text.len() && text[at] == byte
}

// The numbers in two columns in a row.
fn read_pair(text: &[u8], at: usize) -> Option<(usize, usize)>
    requires { at ≤ length text.now }
    ensures { result ≡ pair_at text.now at }
{
    let first = read_column(text, at)?;
    let second = read_column(text, at + 6)?;
    Some((first, second))
}

pub fn header_line(text: &[u8]) -> Option<HeaderFields>
    ensures { HeaderAnswer text.now result }
{
    if !stands(text, 24, 10) {
        return None;
    }
    let (states, labels) = read_pair(text, 0)?;
    let (transitions, start) = read_pair(text, 12)?;
    Some(HeaderFields {
        states,
        labels,
        transitions,
        start,
    })
}

pub fn label_line(text: &[u8], at: usize) -> Option<LabelFields>
    requires { at ≤ length text.now }
    ensures { LabelAnswer text.now at result }
{
    let number = read_column(text, at)?;
    if !stands(text, at + 6, 32) {
        return None;
    }
    let from = at + 7;
    let end = read_name(text, from).end;
    if end != from && stands(text, end, 10) {
        Some(LabelFields { number, end })
    } else {
        None
    }
}

// The three numbers of a transition's line, of any size.
fn any_line(text: &[u8], at: usize) -> Option<Transition>
    requires { at ≤ length text.now }
    ensures { TransitionAnswer text.now at result }
{
    let from = read_column(text, at)?;
    let label = read_column(text, at + 6)?;
    let to = read_column(text, at + 12)?;
    Some(Transition { from, label, to })
}

// The three numbers of a transition's line, which are small if the line is in range. That the line ends behind them is tested apart.
pub fn transition_line(text: &[u8], at: usize) -> Option<Transition>
    requires { at ≤ length text.now }
    ensures { TransitionAnswer text.now at result }
{
    if text.len() - at < 18 {
        return any_line(text, at);
    }
    let from = small_at(text, at);
    if 999 < from {
        return any_line(text, at);
    }
    let label = small_at(text, at + 6);
    if 999 < label {
        return any_line(text, at);
    }
    let to = small_at(text, at + 12);
    if 999 < to {
        return any_line(text, at);
    }
    Some(Transition { from, label, to })
}

pub fn header_in_range(c: HeaderFields) -> bool
    ensures { result ≡ header_in_range (header c) }
{
    (1..=STATES).contains(&c.states)
        && c.labels <= LABELS
        && c.transitions <= TRANSITIONS
        && c.start < c.states
}

pub fn transition_in_range(c: HeaderFields, t: Transition) -> bool
    ensures { result ≡ step_in_range (header c) (step_in t) }
{
    t.from < c.states && t.label <= c.labels && t.to < c.states
}
