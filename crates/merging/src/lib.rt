// Partition refinement (Moore) of a deterministic table: round by round, until a round changes nothing. A block is named by its lowest state.
#![tactic(auto)]

ghost use Rattle.std.specs.Prelude.{◌≡◌, List, ◌&&◌, ℕ, suc, ◌+◌, ◌*◌, ◌<◌, ◌≤◌, eqb, length, take, drop, get_or};
ghost use Rattle.lts.specs.inner.Answers.{Decides};
ghost use Rattle.deterministic.specs.Sizes.{most_sets, most_letters, work_length};
ghost use Rattle.deterministic.specs.inner.Blocks.{blocks};
ghost use Rattle.deterministic.specs.inner.Arrays.{array_table};
ghost use Rattle.merging.specs.inner.Rounds.{Named, Ended, Rounded, Merged};
ghost use Rattle.packed_steps.specs.inner.Packed.{entry_at, Packed, Sized};
ghost use Rattle.merging.specs.inner.Alike.{Ready, SameIn, Alike, IsBlock, First};

use deterministic::sizes::{NEXT, SETS};
use packed_steps::{entry_at, pack};
use table_steps::wide;

// A block for each state, and one for what is no state.
const NAMES: usize = SETS + 1;

// The old block of the target in column i of state k.
fn block_at(work: &[u8], old: &[u16; NAMES], i: usize, k: usize) -> u16
    requires k_in_bounds { (i * most_sets + k) * 2 + 2 ≤ length work.now }
    requires i_lt_most_letters { (i < most_letters) × ((k < most_sets) × (entry_at work.now (i * most_sets + k) ≤ most_sets)) }
    ensures { result ≡ get_or old.now (entry_at work.now (i * most_sets + k)) 0 }
{
    old[entry_at(work, i * SETS + k)]
}

fn same_targets(work: &[u8], old: &[u16; NAMES], many: usize, j: usize, k: usize) -> bool
    requires { (n : ℕ) × (Ready work.now n many old.now × ((j < n) × (k < n))) }
    ensures { Decides (SameIn work.now old.now many j k) result }
{
    for i in 0..many {
        if block_at(work, old, i, j) != block_at(work, old, i, k) {
            return false;
        }
    }
    true
}

// Whether two states have one old block, one mark, and targets of one block in each column.
fn alike(
    work: &[u8],
    marks: &[bool; SETS],
    old: &[u16; NAMES],
    many: usize,
    j: usize,
    k: usize,
) -> bool
    requires { (n : ℕ) × (Ready work.now n many old.now × ((j < n) × (k < n))) }
    ensures { Decides (Alike work.now marks.now old.now many j k) result }
{
    if old[j] != old[k] {
        return false;
    }
    if marks[j] != marks[k] {
        return false;
    }
    same_targets(work, old, many, j, k)
}

// Whether j is the lowest state of a new block and like k.
fn is_block(
    work: &[u8],
    marks: &[bool; SETS],
    old: &[u16; NAMES],
    new: &[u16; NAMES],
    many: usize,
    j: usize,
    k: usize,
) -> bool
    requires { (n : ℕ) × (Ready work.now n many old.now × ((j < n) × (k < n))) }
    ensures { Decides (IsBlock work.now marks.now old.now new.now many k j) result }
{
    if wide(new[j]) != j {
        return false;
    }
    alike(work, marks, old, many, j, k)
}

// The first block like state k, from its old block on; k itself if there is none before it.
fn first_like(
    work: &[u8],
    marks: &[bool; SETS],
    old: &[u16; NAMES],
    new: &[u16; NAMES],
    many: usize,
    k: usize,
) -> usize
    requires { (n : ℕ) × (Ready work.now n many old.now × (k < n)) }
    ensures { First (IsBlock work.now marks.now old.now new.now many k) (get_or old.now k 0) k result }
{
    for j in wide(old[k])..k {
        if is_block(work, marks, old, new, many, j, k) {
            return j;
        }
    }
    k
}

fn still(steady: bool, block: usize, before: usize) -> bool
    ensures { result ≡ (steady && eqb block before) }
{
    steady && block == before
}

// One round, and whether it changed nothing.
fn round(
    work: &[u8],
    marks: &[bool; SETS],
    old: &[u16; NAMES],
    new: &mut [u16; NAMES],
    n: usize,
    many: usize,
) -> bool
    requires { Ready work.now n many old.now × (Named n old.now × Ended n new.old) }
    ensures by_index { (next : List ℕ) (columns : ℕ) → Sized next n columns → Packed next n columns work.now many
        → Rounded (array_table next marks.now n columns) (take n old.now) (take n new.new) result }
    ensures ended { Ended n new.new }
{
    let mut steady = true;
    for k in 0..n {
        let block = first_like(work, marks, old, new, many, k);
        new[k] = block as u16;
        steady = still(steady, block, wide(old[k]));
    }
    steady
}

// Each turn is two rounds, there and back. After n rounds nothing changes.
fn settle(work: &[u8], marks: &[bool; SETS], n: usize, many: usize) -> [u16; NAMES]
    requires by_index { (next : List ℕ) × (columns : ℕ) × (Sized next n columns × Packed next n columns work.now many) }
    requires work_length_in_bounds { work_length ≤ length work.now }
    ensures by_index_2 { (next : List ℕ) (columns : ℕ) → Sized next n columns → Packed next n columns work.now many
        → Merged (array_table next marks.now n columns) result }
    ensures result_len { length result ≡ suc most_sets }
{
    let mut here = [0u16; NAMES];
    let mut there = [0u16; NAMES];
    here[SETS] = n as u16;
    there[SETS] = n as u16;
    let mut r: usize = 0;
    while r < n {
        if round(work, marks, &here, &mut there, n, many) {
            return here;
        }
        if round(work, marks, &there, &mut here, n, many) {
            return there;
        }
        r += 2;
    }
    here
}

// The blocks of the states alone.
fn of_states(names: &[u16; NAMES]) -> [u16; SETS]
    requires { length names.now ≡ suc most_sets }
    ensures { result ≡ take most_sets names.now }
{
    let mut blocks = [0u16; SETS];
    for k in 0..SETS {
        blocks[k] = names[k];
    }
    blocks
}

// The lent bytes are written over.
pub fn merge(
    next: &[u16; NEXT],
    marks: &[bool; SETS],
    n: usize,
    columns: usize,
    work: &mut [u8],
) -> [u16; SETS]
    requires n_le_most_sets { n ≤ most_sets }
    requires le_columns { (1 ≤ columns) × (columns ≤ most_letters) }
    requires work_length_in_bounds { work_length ≤ length work.old }
    ensures result_value { take n result ≡ blocks (array_table next.now marks.now n columns) }
    ensures by_index { (k : ℕ) → k < n → get_or result k 0 ≤ k }
    ensures work_len_unchanged { (length work.new ≡ length work.old) × (drop work_length work.new ≡ drop work_length work.old) }
{
    let many = pack(&next[..], n, columns, work);
    let names = settle(work, marks, n, many);
    of_states(&names)
}
