// The lines of a table's text, each at a place of the lent buffer: the header, the labels, the transitions.
#![tactic(auto)]

ghost use Rattle.std.specs.Prelude.{◌≡◌, ◌+◌, ◌*◌, ◌≤◌, ◌<◌, suc, length};
ghost use Rattle.columns.specs.inner.Write.{pasted};
ghost use Rattle.lts.specs.Sizes.{longest_table_text};
ghost use Rattle.lts.specs.Steps.{labels};
ghost use Rattle.lts.specs.Text.{ended, label_line, transition_line};
ghost use Rattle.lts.specs.TableText.{label_lines, transition_lines, table_text};
ghost use Rattle.lts.specs.inner.HoldsTable.{HoldsTable};
ghost use Rattle.lts.specs.inner.Prepared.{table_in, name_at, transition_at};
ghost use Rattle.lts.specs.inner.Sizes.{longest_name};
ghost use Rattle.written_lines.specs.inner.Lines.{Stands, NumbersKept, first_line_of, head_length, label_width, step_width, kept_length};

use columns::kept::{copy_column, keep_columns};
use columns::write::write_small;
use label_names::name_span;
use lts::sizes::STATES;
use table_lines::slots::write_at;
use tables::prepared::{label_count, start_state, state_count, transition_at, transition_count};

// The columns of the numbers below 256.
const KEPT_LENGTH: usize = STATES * 6;

// Line 1: states, labels, transitions, start.
fn write_header(table: &[u8], text: &mut [u8])
    requires { HoldsTable table.now × (head_length ≤ length text.old) }
    ensures { text.new ≡ pasted text.old 0 (first_line_of (table_in table.now)) }
{
    write_small(state_count(table), text, 0);
    write_small(label_count(table), text, 6);
    write_small(transition_count(table), text, 12);
    write_small(start_state(table), text, 18);
    text[24] = 10;
}

// The name of label k + 1 at `at`, and where it ends.
fn write_name(table: &[u8], k: usize, text: &mut [u8], at: usize) -> usize
    requires { HoldsTable table.now × ((k < labels (table_in table.now)) × (at + longest_name ≤ length text.old)) }
    ensures stands { Stands (name_at table.now k) at text.old text.new result }
    ensures upper_bound { result ≤ at + longest_name }
{
    let span = name_span(table, k);
    let from = span.from;
    let to = span.to;
    write_at(text, at, &table[from..to]);
    at + (to - from)
}

// The line of label k + 1 at `at`, and where it ends.
fn write_label(table: &[u8], k: usize, text: &mut [u8], at: usize) -> usize
    requires { HoldsTable table.now × ((k < labels (table_in table.now)) × (at + label_width ≤ length text.old)) }
    ensures stands { Stands (ended (label_line (suc k) (name_at table.now k))) at text.old text.new result }
    ensures upper_bound { result ≤ at + label_width }
{
    write_small(k + 1, text, at);
    text[at + 6] = 32;
    let end = write_name(table, k, text, at + 7);
    text[end] = 10;
    end + 1
}

// The lines of all labels.
fn write_labels(table: &[u8], text: &mut [u8], at: usize) -> usize
    requires { HoldsTable table.now × (at + labels (table_in table.now) * label_width ≤ length text.old) }
    ensures stands { Stands (label_lines 1 (table_in table.now).names) at text.old text.new result }
    ensures upper_bound { result ≤ at + labels (table_in table.now) * label_width }
{
    let count = label_count(table);
    let mut end = at;
    for k in 0..count {
        end = write_label(table, k, text, end);
    }
    end
}

// Keeps the columns of all states and labels: each transition's line is copied from them.
fn keep_numbers(table: &[u8], kept: &mut [u8])
    requires { HoldsTable table.now × (kept_length ≤ length kept.old) }
    ensures { NumbersKept (table_in table.now) kept.new }
{
    keep_columns(kept, state_count(table).max(label_count(table) + 1));
}

// The line of the transition in slot k.
fn write_step(table: &[u8], kept: &[u8], k: usize, text: &mut [u8], at: usize)
    requires holds_table { HoldsTable table.now × (k < length (table_in table.now).transitions) }
    requires numbers_kept { NumbersKept (table_in table.now) kept.now × (at + step_width ≤ length text.old) }
    ensures { text.new ≡ pasted text.old at (ended (transition_line (transition_at table.now k))) }
{
    let step = transition_at(table, k);
    copy_column(kept, step.from, text, at);
    copy_column(kept, step.label, text, at + 6);
    copy_column(kept, step.to, text, at + 12);
    text[at + 18] = 10;
}

// The lines of all transitions.
fn write_steps(table: &[u8], kept: &[u8], text: &mut [u8], at: usize) -> usize
    requires holds_table { HoldsTable table.now × NumbersKept (table_in table.now) kept.now }
    requires step_width_in_bounds { at + length (table_in table.now).transitions * step_width ≤ length text.old }
    ensures { Stands (transition_lines (table_in table.now).transitions) at text.old text.new result }
{
    let count = transition_count(table);
    let mut end = at;
    for k in 0..count {
        write_step(table, kept, k, text, end);
        end += 19;
    }
    end
}

// The same, of a table alone.
fn step_lines(table: &[u8], text: &mut [u8], at: usize) -> usize
    requires { HoldsTable table.now × (at + length (table_in table.now).transitions * step_width ≤ length text.old) }
    ensures { Stands (transition_lines (table_in table.now).transitions) at text.old text.new result }
{
    let mut kept = [0u8; KEPT_LENGTH];
    keep_numbers(table, &mut kept);
    write_steps(table, &kept, text, at)
}

// All of them, and how long they are.
pub fn write_lines(table: &[u8], text: &mut [u8]) -> usize
    requires { HoldsTable table.now × (longest_table_text ≤ length text.old) }
    ensures { Stands (table_text (table_in table.now)) 0 text.old text.new result }
{
    write_header(table, text);
    let end = write_labels(table, text, 25);
    step_lines(table, text, end)
}
