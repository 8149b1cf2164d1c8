// Whether a step's label meets a step condition, and whether an until's path passes it.
ghost use Rattle.std.specs.Prelude.{◌≡◌};
ghost use Rattle.lts.specs.inner.Steps.{Carried};
ghost use Rattle.actl.specs.Actions as actions;
ghost use Rattle.formulas.specs.inner.Access.{cond_in};

use crate::node::Condition;
use table_steps::is_silent;

pub fn in_set(set: u64, label: usize) -> bool
    requires { Carried label }
    ensures { result ≡ actions.in_set set label }
{
    if is_silent(label) {
        false
    } else {
        (set >> label) % 2 == 1
    }
}

pub fn meets(condition: Condition, label: usize) -> bool
    requires { Carried label }
    ensures { result ≡ actions.meets (cond_in condition) label }
{
    match condition {
        Condition::Silent => is_silent(label),
        Condition::Labels(set) => in_set(set, label),
    }
}

pub fn passes(set: u64, label: usize) -> bool
    requires { Carried label }
    ensures { result ≡ actions.passes set label }
{
    if is_silent(label) {
        true
    } else {
        in_set(set, label)
    }
}
