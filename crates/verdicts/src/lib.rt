// One formula, many starts: the verdict at each state of a list, from one labelling of the table.
#![tactic(auto)]

ghost use Rattle.std.specs.Prelude.{◌≡◌, ◌≤◌, length};
ghost use Rattle.std.proofs.Math.Option.{none};
ghost use Rattle.lts.specs.Sizes.{most_states};
ghost use Rattle.lts.specs.Steps.{labels};
ghost use Rattle.lts.specs.inner.HoldsTable.{HoldsTable};
ghost use Rattle.lts.specs.inner.Prepared.{table_in};
ghost use Rattle.actl.specs.inner.HoldsFormula.{HoldsFormula};
ghost use Rattle.starts.specs.Starts.{wrong_start};
ghost use Rattle.starts.specs.VerdictsAsked.{verdicts_replied, verdicts_left, VerdictsAnswered};
ghost use Rattle.verdicts.specs.Replies.{verdicts_reply};
ghost use Rattle.verdicts.specs.declared.VerdictsRefusal.{VerdictsRefusal};
ghost use Rattle.verdicts.specs.inner.Answered.{Answered, ListAnswered};

use actl::sizes::{FORMULA_LENGTH, NODE_POSITIONS};
use formula_check::inputs::{Unprepared, check_inputs};
use labelling::label_table;
use lts::sizes::{STATES, TABLE_LENGTH};
use start_list::wrong_start;
use tables::prepared::{byte, state_count};

// Why `verdicts` refuses. specs/Replies.antt lists the number and the figure of each case.
#[derive(Drop)]
pub enum VerdictsRefusal {
    StartWrong(usize),
    Unprepared(Unprepared),
}

impl From<Unprepared> for VerdictsRefusal {
    ghost from_gives = { λ why refusal. refusal ≡ VerdictsRefusal.Unprepared why };

    fn from(why: Unprepared) -> VerdictsRefusal {
        VerdictsRefusal::Unprepared(why)
    }
}

// Puts the verdict at each listed state into the byte at its index, and tells whether all of them are 1. The table is labelled once, for all of them.
fn answer_each(table: &[u8], formula: &[u8], starts: &[u8], answers: &mut [u8]) -> bool
    requires holds_table { HoldsTable table.now }
    requires holds_formula { HoldsFormula (labels (table_in table.now)) formula.now }
    requires starts_value { (wrong_start (table_in table.now).states starts.now ≡ none) × (most_states ≤ length answers.old) }
    ensures { Answered table.now formula.now starts.now answers.old answers.new result }
{
    let mut flags = [false; NODE_POSITIONS];
    label_table(table, formula, &mut flags);
    let mut joint = true;
    for i in 0..starts.len() {
        let state = byte(starts, i);
        let flag = flags[state];
        answers[i] = u8::from(flag);
        joint &= flag;
    }
    joint
}

// The same of a list that may have a wrong entry.
fn answer_list(
    table: &[u8],
    formula: &[u8],
    starts: &[u8],
    answers: &mut [u8],
) -> Result<bool, VerdictsRefusal>
    requires holds_table { HoldsTable table.now × (most_states ≤ length answers.old) }
    requires holds_formula { HoldsFormula (labels (table_in table.now)) formula.now }
    ensures { ListAnswered table.now formula.now starts.now answers.old answers.new result }
{
    let wrong = wrong_start(state_count(table), starts);
    if let Some(i) = wrong {
        return Err(VerdictsRefusal::StartWrong(i));
    }
    Ok(answer_each(table, formula, starts, answers))
}

// 02: "tell for each whether the formula holds there, and whether it holds at all of them". 14 for each buffer, 10, then 16.
pub fn verdicts(
    table: &[u8],
    formula: &[u8],
    starts: &[u8],
    answers: &mut [u8],
) -> Result<bool, VerdictsRefusal>
    ensures result_value { verdicts_reply result ≡ verdicts_replied table.now formula.now starts.now answers.old }
    ensures answers_after { answers.new ≡ verdicts_left table.now formula.now starts.now answers.old }
    ensures verdicts_answered { VerdictsAnswered table.now formula.now starts.now (verdicts_reply result) answers.new }
{
    if table.len() < TABLE_LENGTH {
        return Err(VerdictsRefusal::Unprepared(Unprepared::BufferShort(TABLE_LENGTH)));
    }
    if formula.len() < FORMULA_LENGTH {
        return Err(VerdictsRefusal::Unprepared(Unprepared::BufferShort(FORMULA_LENGTH)));
    }
    if answers.len() < STATES {
        return Err(VerdictsRefusal::Unprepared(Unprepared::BufferShort(STATES)));
    }
    check_inputs(table, formula)?;
    answer_list(table, formula, starts, answers)
}
