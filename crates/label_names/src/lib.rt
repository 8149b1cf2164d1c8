// Names of labels: where a name ends in a text and which direction its mark gives it, whether two are equal, and where one stands in slots
// of names. A slot has 16 bytes: the name's length, its bytes, zeros. A name is compared where it stands, and none is copied. Nothing else
// knows the bytes of a name; two slots of a prepared table are compared whole, by `table_check`.
#![tactic(auto)]

ghost use Rattle.std.specs.Prelude.{◌≡◌, ◌+◌, ◌*◌, ◌≤◌, ◌<◌, suc, length};
ghost use Rattle.lts.specs.Sizes.{most_labels, name_slot_length, table_length};
ghost use Rattle.columns.specs.Bytes.{same_bytes};
ghost use Rattle.lts.specs.Steps.{labels};
ghost use Rattle.lts.specs.inner.Sizes.{longest_name};
ghost use Rattle.lts.specs.Names.{is_lower, is_name_byte, lookup};
ghost use Rattle.lts.specs.Directions.{label_direction, direction_code, same_direction};
ghost use Rattle.lts.specs.inner.NameEnds.{stem_end, name_end, name_direction};
ghost use Rattle.lts.specs.inner.Prepared.{table_in};
ghost use Rattle.lts.specs.inner.HoldsTable.{HoldsTable};
ghost use Rattle.lts.specs.inner.Slots.{stored_name, stored_names};
ghost use Rattle.tables.specs.inner.Access.{found_in};
ghost use Rattle.label_names.specs.inner.Names.{direction_in, NameStands};

use byte_words::same::same_parts;
use lts::sizes::{HEAD, NAME_BYTES_AT, NAME_SLOT, TRANSITIONS_AT};
use lts::spans::Span;
use tables::prepared::{byte, label_count};

// 02: "its direction (none, in, out)"
#[derive(Clone, Copy, PartialEq, Eq)]
pub enum Direction {
    Neither,
    Received,
    Sent,
}

// The place behind a name, and its direction.
#[derive(Drop)]
pub struct NameRead {
    pub end: usize,
    pub direction: Direction,
}

fn is_lower(b: u8) -> bool
    ensures { result ≡ is_lower b }
{
    b'a' <= b && b <= b'z'
}

fn is_name_byte(b: u8) -> bool
    ensures { result ≡ is_name_byte b }
{
    is_lower(b) || b == b'_' || b'0' <= b && b <= b'9'
}

// The place behind the longest name at `from`, its mark left out; `from` if none stands there. 01: "A name has 1 to 12 bytes"
fn stem_end(text: &[u8], from: usize) -> usize
    requires { from ≤ length text.now }
    ensures { result ≡ stem_end text.now from }
{
    if text.len() <= from {
        return from;
    }
    if !is_lower(text[from]) {
        return from;
    }
    for n in 1..12 {
        let to = from + n;
        if text.len() <= to {
            return to;
        }
        if !is_name_byte(text[to]) {
            return to;
        }
    }
    from + 12
}

// The longest name that stands at `from`; it ends there if none does. 02: "A name may end in one `?` or `!` beyond its 12 bytes"
pub fn read_name(text: &[u8], from: usize) -> NameRead
    requires { from ≤ length text.now }
    ensures { (result.end ≡ name_end text.now from) × (direction_in result.direction ≡ name_direction text.now from) }
{
    let end = stem_end(text, from);
    if end == from {
        return NameRead {
            end,
            direction: Direction::Neither,
        };
    }
    if text.len() <= end {
        return NameRead {
            end,
            direction: Direction::Neither,
        };
    }
    if text[end] == b'?' {
        return NameRead {
            end: end + 1,
            direction: Direction::Received,
        };
    }
    if text[end] == b'!' {
        return NameRead {
            end: end + 1,
            direction: Direction::Sent,
        };
    }
    NameRead {
        end,
        direction: Direction::Neither,
    }
}

// Where the bytes of the name in slot k of a prepared table stand.
pub fn name_span(table: &[u8], k: usize) -> Span
    requires { (table_length ≤ length table.now) × (k < most_labels) }
    ensures { NameStands table.now k result }
{
    let at = NAME_BYTES_AT + k * NAME_SLOT;
    Span {
        from: at,
        to: at + byte(table, HEAD + k * NAME_SLOT),
    }
}

// The direction of label k + 1 of a prepared table.
pub fn label_direction(table: &[u8], k: usize) -> Direction
    requires { HoldsTable table.now × (k < labels (table_in table.now)) }
    ensures { direction_in result ≡ label_direction (table_in table.now).names (suc k) }
{
    let span = name_span(table, k);
    read_name(&table[span.from..span.to], 0).direction
}

pub fn same_direction(a: Direction, b: Direction) -> bool
    ensures { result ≡ same_direction (direction_in a) (direction_in b) }
{
    a == b
}

// Whether the name in slot k is `name`; a beginning of it is another name.
fn same_name(slots: &[u8], k: usize, name: &[u8]) -> bool
    requires { (k * name_slot_length + name_slot_length ≤ length slots.now) × (length name.now ≤ longest_name) }
    ensures { result ≡ same_bytes (stored_name slots.now k) name.now }
{
    let at = k * NAME_SLOT;
    let size = byte(slots, at);
    if size != name.len() {
        return false;
    }
    let from = at + 1;
    let to = from + size;
    same_parts(&slots[from..to], name)
}

// The number of the label, of those in the first `count` slots, that has a name.
pub fn find(slots: &[u8], count: usize, name: &[u8]) -> Option<usize>
    requires { (count * name_slot_length ≤ length slots.now) × (length name.now ≤ longest_name) }
    ensures { found_in result ≡ lookup (stored_names slots.now count) name.now }
{
    for k in 0..count {
        if same_name(slots, k, name) {
            return Some(k + 1);
        }
    }
    None
}

// The number of the label of a prepared table that has a name.
pub fn find_label(table: &[u8], name: &[u8]) -> Option<usize>
    requires { (table_length ≤ length table.now) × ((labels (table_in table.now) ≤ most_labels) × (length name.now ≤ longest_name)) }
    ensures { found_in result ≡ lookup (table_in table.now).names name.now }
{
    let count = label_count(table);
    find(&table[HEAD..TRANSITIONS_AT], count, name)
}
