// Columns that are kept one behind the other, from that of 0 on: what is written often is copied from there.
ghost use Rattle.std.specs.Prelude.{◌≡◌, ◌+◌, ◌*◌, ◌≤◌, length};
ghost use Rattle.columns.specs.Columns.{column};
ghost use Rattle.columns.specs.inner.Kept.{ColumnKept, ColumnsKept};
ghost use Rattle.columns.specs.inner.Write.{pasted};

use crate::write::write_small;

// Keeps the columns of the numbers below `count`.
pub fn keep_columns(kept: &mut [u8], count: usize)
    requires { (count ≤ 10000) × (count * 6 ≤ length kept.old) }
    ensures { ColumnsKept count kept.new }
{
    for n in 0..count {
        write_small(n, kept, n * 6);
    }
}

// Writes n in six columns at `at`.
pub fn copy_column(kept: &[u8], n: usize, out: &mut [u8], at: usize)
    requires { ColumnKept n kept.now × (at + 6 ≤ length out.old) }
    ensures { out.new ≡ pasted out.old at (column n) }
{
    let i = n * 6;
    let first = kept[i];
    let second = kept[i + 1];
    let third = kept[i + 2];
    let fourth = kept[i + 3];
    let fifth = kept[i + 4];
    let sixth = kept[i + 5];
    out[at] = first;
    out[at + 1] = second;
    out[at + 2] = third;
    out[at + 3] = fourth;
    out[at + 4] = fifth;
    out[at + 5] = sixth;
}
