// The open places by state, of slots that are filled.
ghost use Rattle.std.specs.Prelude.{◌≡◌, ℕ, ◌+◌, ◌*◌, ◌≤◌, length, get_or};
ghost use Rattle.actl.specs.Sizes.{most_nodes};
ghost use Rattle.lts.specs.Sizes.{most_states};
ghost use Rattle.breadth_first.specs.inner.Finding.{Live, LiveBelow};

use crate::less_closed;
use automaton::sizes::POSITIONS;
use lts::sizes::STATES;

// Place q of every state.
fn live_place(slots: &[u16; POSITIONS], live: &mut [u64; STATES], q: usize)
    requires q_le_most_nodes { q ≤ most_nodes }
    requires live_below { LiveBelow (q * most_states) slots.now live.old }
    ensures { LiveBelow ((q + 1) * most_states) slots.now live.new }
{
    for s in 0..STATES {
        live[s] = less_closed(live[s], slots[q * STATES + s], q);
    }
}

// The open places by state, from all 41: the nodes are `count`, and what lies past them is open.
pub fn live_places(slots: &[u16; POSITIONS], count: usize) -> [u64; STATES]
    requires { (count ≤ most_nodes) × ((p : ℕ) → count * most_states ≤ p → get_or slots.now p 0 ≡ 0) }
    ensures { (length result ≡ most_states) × Live slots.now result }
{
    let mut live = [2199023255551u64; STATES];
    for q in 0..count {
        live_place(slots, &mut live, q);
    }
    live
}
