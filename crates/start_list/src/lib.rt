// The search for the first wrong entry of a list of starts.
#![tactic(auto)]

ghost use Rattle.std.specs.Prelude.{◌≡◌, cond, ◌≤◌, min, length};
ghost use Rattle.std.proofs.Math.Option.{none, some};
ghost use Rattle.lts.specs.Sizes.{most_states};
ghost use Rattle.tables.specs.inner.Access.{found_in};
ghost use Rattle.starts.specs.Starts.{is_right, wrong_start};
ghost use Rattle.starts.specs.inner.Search.{earlier, enough_starts};

use lts::sizes::STATES;
use tables::prepared::byte;

// So many entries cannot all be right.
const ENOUGH_STARTS: usize = STATES + 1;

fn is_right(states: usize, least: usize, s: usize) -> bool
    ensures { result ≡ is_right states least s }
{
    least <= s && s < states
}

// What is found once entry i was looked at.
fn found_with(found: Option<usize>, right: bool, i: usize) -> Option<usize>
    ensures { found_in result ≡ earlier (found_in found) (cond right none (some i)) }
{
    if right { found } else { found.or(Some(i)) }
}

// How many entries are looked at.
fn entries(starts: &[u8]) -> usize
    ensures { result ≡ min (length starts.now) enough_starts }
{
    starts.len().min(ENOUGH_STARTS)
}

// 02: "an entry not above the one before it or naming a state the table lacks, the first such index"
pub fn wrong_start(states: usize, starts: &[u8]) -> Option<usize>
    requires { states ≤ most_states }
    ensures { found_in result ≡ wrong_start states starts.now }
{
    let end = entries(starts);
    let mut found = None;
    let mut least: usize = 0;
    for i in 0..end {
        let s = byte(starts, i);
        found = found_with(found, is_right(states, least, s), i);
        least = s + 1;
    }
    found
}
