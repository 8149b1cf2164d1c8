// A text that grows byte by byte and name by name: it is counted whatever its length, and put down as long as it fits.
ghost use Rattle.std.specs.Prelude.{[], ◌∷◌, ◌<◌};
ghost use Rattle.lts.specs.Steps.{labels};
ghost use Rattle.lts.specs.inner.Prepared.{table_in, name_at};
ghost use Rattle.formula_pieces.specs.inner.Adds.{Room, Adds, Over};

use actl::sizes::LONGEST_TEXT;
use byte_copy::copy;
use label_names::name_span;

pub fn put(out: &mut [u8], at: usize, b: u8) -> usize
    requires { Room out.old at 1 }
    ensures { Adds (b ∷ []) at out.old out.new result }
{
    if LONGEST_TEXT <= at {
        return at + 1;
    }
    out[at] = b;
    at + 1
}

// The name of label k + 1.
pub fn put_name(table: &[u8], k: usize, out: &mut [u8], at: usize) -> usize
    requires { Over table.now out.old at 13 × (k < labels (table_in table.now)) }
    ensures { Adds (name_at table.now k) at out.old out.new result }
{
    let span = name_span(table, k);
    let from = span.from;
    let to = span.to;
    let end = at + (to - from);
    if LONGEST_TEXT < end {
        return end;
    }
    copy(&table[from..to], &mut out[at..]);
    end
}
