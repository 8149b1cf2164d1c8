// What a word has reached: the places of each state as a mask, and in four masks behind these the states that have any, so that a letter
// goes over no other states and clears no others.
ghost use Rattle.std.specs.Prelude.{◌≡◌, cond, ◌<◌, ◌≤◌};
ghost use Rattle.lts.specs.Sizes.{most_states};
ghost use Rattle.bits.specs.inner.Bits.{bit_at};
ghost use Rattle.frontier.specs.inner.Frontier.{has_state, emptied, brought, all_places, FirstFrom};

use bits::{bit, has};
use frontier::sizes::{FOURTH_MARKS, FRONTIER, MARKS_AT, SECOND_MARKS, THIRD_MARKS};
use lts::sizes::STATES;

// The first bit of a mask that is set, from k on; 64 or more if there is none.
pub fn next_bit(mask: u64, k: usize) -> usize
    requires { k < 64 }
    ensures { FirstFrom (bit_at mask) k 64 result }
{
    k + (mask >> k).trailing_zeros() as usize
}

// The first state that has places, from s on; 256 or more if there is none.
pub fn next_state(frontier: &[u64; FRONTIER], s: usize) -> usize
    requires { s ≤ most_states }
    ensures { FirstFrom (has_state frontier.now) s most_states result }
{
    let mut v = s;
    while v < STATES {
        let k = next_bit(frontier[MARKS_AT + v / 64], v % 64);
        if k < 64 {
            return v / 64 * 64 + k;
        }
        v = v / 64 * 64 + 64;
    }
    v
}

pub fn clear(frontier: &mut [u64; FRONTIER])
    ensures { frontier.new ≡ emptied frontier.old }
{
    frontier[MARKS_AT] = 0;
    frontier[SECOND_MARKS] = 0;
    frontier[THIRD_MARKS] = 0;
    frontier[FOURTH_MARKS] = 0;
}

fn kept(marked: bool, places: u64) -> u64
    ensures { result ≡ cond marked places 0 }
{
    if marked { places } else { 0 }
}

// Brings places to state s. What its mask says from an earlier letter is no place of it.
pub fn bring(frontier: &mut [u64; FRONTIER], s: usize, places: u64)
    requires { s < most_states }
    ensures { frontier.new ≡ brought s places frontier.old }
{
    let marks = frontier[MARKS_AT + s / 64];
    let had = kept(has(marks, s % 64), frontier[s]);
    frontier[s] = had | places;
    frontier[MARKS_AT + s / 64] = marks | bit(s % 64);
}

// The places of all states together.
pub fn all_places(frontier: &[u64; FRONTIER]) -> u64
    ensures { result ≡ all_places frontier.now }
{
    let mut found = 0u64;
    let mut s = next_state(frontier, 0);
    while s < STATES {
        found = found | frontier[s];
        s = next_state(frontier, s + 1);
    }
    found
}
