// The number and the figure of each reply of the entry `smallest`.
#![tactic(auto)]

ghost use Rattle.std.specs.Prelude.{◌≡◌};
ghost use Rattle.smallest.specs.Replies.{smallest_reply};
ghost use Rattle.replies.specs.inner.Says.{Says};
ghost use Rattle.replies.specs.Interface.{edges_in};

use automaton::Totals;
use deterministic::sizes::SETS;
use replies::{Answer, numbered, unprepared_answer};
use smallest::SmallestRefusal;

// The figure of refusal 20.
const SETS_FIGURE: usize = SETS + 1;

pub fn smallest_answer(reply: Result<Totals, SmallestRefusal>) -> Answer
    ensures { Says (λ counts. counts.rows) (smallest_reply reply) result }
{
    match reply {
        Ok(totals) => numbered(0, totals.rows),
        Err(SmallestRefusal::RowsShort(needed)) => numbered(11, needed),
        Err(SmallestRefusal::EdgesShort(needed)) => numbered(12, needed),
        Err(SmallestRefusal::SetsMany) => numbered(20, SETS_FIGURE),
        Err(SmallestRefusal::Unprepared(why)) => unprepared_answer(why),
    }
}

// The count of edges of a build with the smallest automaton beside it; what stood there if it was refused.
pub fn smallest_edges(reply: Result<Totals, SmallestRefusal>, before: u64) -> u64
    ensures { result ≡ edges_in before (smallest_reply reply) }
{
    match reply {
        Ok(totals) => totals.edges as u64,
        Err(_) => before,
    }
}
