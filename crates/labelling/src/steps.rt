// What holds at a state by the steps that leave it, idle steps included. The arms' rows stand among the flags of all nodes, and are not copied.
ghost use Rattle.std.specs.Prelude.{◌≡◌, ◌&&◌, ◌<◌, ◌≤◌};
ghost use Rattle.lts.specs.Sizes.{most_states};
ghost use Rattle.lts.specs.inner.Steps.{Carried};
ghost use Rattle.table_steps.specs.inner.StepArray.{steps_in, StepsFit};
ghost use Rattle.actl.specs.Actions as actions;
ghost use Rattle.formulas.specs.inner.Access.{cond_in};
ghost use Rattle.until_search.specs.inner.Flags.{as_wanted, some_step, at_once, Flags};
ghost use Rattle.labelling.specs.inner.Rows.{row_at, RowIn};

use actl::sizes::NODE_POSITIONS;
use formulas::node::{Condition, Node};
use lts::sizes::{FIRSTS, STATES, STEPS};
use table_steps::{label_of, leaving, state_of};

// The flag of state s in the row that begins at `at`.
fn flag(flags: &[bool; NODE_POSITIONS], at: usize, s: usize) -> bool
    requires { RowIn at × (s < most_states) }
    ensures { result ≡ row_at flags.now at s }
{
    flags[at + s]
}

fn leads(wanted: bool, condition: Condition, label: usize, there: bool) -> bool
    requires { Carried label }
    ensures { result ≡ as_wanted wanted (actions.meets (cond_in condition) label && there) }
{
    if there {
        formulas::conditions::meets(condition, label) == wanted
    } else {
        !wanted
    }
}

// Whether some step from s leads to the arm under the condition; or, if that is not wanted, whether some step does not.
fn some_step(
    steps: &[u16; STEPS],
    firsts: &[u16; FIRSTS],
    wanted: bool,
    condition: Condition,
    flags: &[bool; NODE_POSITIONS],
    arm: usize,
    s: usize,
) -> bool
    requires steps_fit { StepsFit steps.now firsts.now }
    requires s_lt_most_states { (s < most_states) × RowIn arm }
    ensures { result ≡ some_step wanted (cond_in condition) (row_at flags.now arm) (steps_in steps.now firsts.now s) }
{
    let span = leaving(firsts, s);
    let end = span.to;
    for k in span.from..end {
        let step = steps[k];
        let to = state_of(step);
        let there = flag(flags, arm, to);
        if leads(wanted, condition, label_of(step), there) {
            return true;
        }
    }
    false
}

// What holds at s of a node, from where its arms hold. Of an until: whether s is an end of its paths.
fn at_once(
    steps: &[u16; STEPS],
    firsts: &[u16; FIRSTS],
    node: Node,
    flags: &[bool; NODE_POSITIONS],
    arm: usize,
    other: usize,
    s: usize,
) -> bool
    requires steps_fit { StepsFit steps.now firsts.now }
    requires s_lt_most_states { (s < most_states) × RowIn arm × RowIn other }
    ensures { result ≡ at_once node (row_at flags.now arm) (row_at flags.now other) s (steps_in steps.now firsts.now s) }
{
    match node {
        Node::True => true,
        Node::Not => !flag(flags, arm, s),
        Node::Or => flag(flags, arm, s) || flag(flags, other, s),
        Node::Ex(condition) => some_step(steps, firsts, true, condition, flags, arm, s),
        Node::Ax(condition) => !some_step(steps, firsts, false, condition, flags, arm, s),
        Node::Until(_) => flag(flags, arm, s),
        Node::UntilThen(_, last) => {
            some_step(steps, firsts, true, Condition::Labels(last), flags, arm, s)
        }
    }
}

// The same of every state of a table that has so many.
pub fn label_at_once(
    steps: &[u16; STEPS],
    firsts: &[u16; FIRSTS],
    states: usize,
    node: Node,
    flags: &[bool; NODE_POSITIONS],
    arm: usize,
    other: usize,
) -> [bool; STATES]
    requires steps_fit { StepsFit steps.now firsts.now }
    requires states_le_most_states { (states ≤ most_states) × RowIn arm × RowIn other }
    ensures { Flags states (λ s. at_once node (row_at flags.now arm) (row_at flags.now other) s (steps_in steps.now firsts.now s)) result }
{
    let mut found = [false; STATES];
    for s in 0..states {
        found[s] = at_once(steps, firsts, node, flags, arm, other, s);
    }
    found
}
