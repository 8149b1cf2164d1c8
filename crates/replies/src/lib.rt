// The number and the figure of each reply, which the C interface hands out: of reading, of verdicts, of building and of words.
#![tactic(auto)]

ghost use Rattle.std.specs.Prelude.{◌≡◌, ◌≢◌, MatchResult};
ghost use Rattle.table_text.specs.Replies.{table_reply};
ghost use Rattle.formula_text.specs.Replies.{formula_reply};
ghost use Rattle.formula_check.specs.Inputs.{unprepared_number, unprepared_figure};
ghost use Rattle.labelling.specs.Replies.{verdict_reply};
ghost use Rattle.verdicts.specs.Replies.{verdicts_reply};
ghost use Rattle.building.specs.Replies.{build_reply};
ghost use Rattle.words.specs.Replies.{word_reply};
ghost use Rattle.replies.specs.inner.Says.{Says};
ghost use Rattle.replies.specs.Interface.{edges_in};

use automaton::Totals;
use building::BuildRefusal;
use formula_check::inputs::Unprepared;
use formula_text::FormulaRefusal;
use table_text::TableRefusal;
use verdicts::VerdictsRefusal;
use words::WordRefusal;

// What is said of a reply: the number of a refusal, or 0; and the figure.
#[derive(Clone, Copy)]
pub struct Answer {
    pub number: u32,
    pub figure: u64,
}

// The figure of what was accepted; a refusal is an error.
pub fn accepted(answer: Answer) -> Result<u64, Answer>
    ensures { MatchResult result
        (λ figure. (answer.number ≡ 0) × (figure ≡ answer.figure))
        (λ refused. (answer.number ≢ 0) × (refused ≡ answer)) }
{
    if answer.number == 0 {
        Ok(answer.figure)
    } else {
        Err(answer)
    }
}

pub fn numbered(number: u32, figure: usize) -> Answer
    ensures { (result.number ≡ number) × (result.figure ≡ figure) }
{
    Answer {
        number,
        figure: figure as u64,
    }
}

pub fn unprepared_answer(why: Unprepared) -> Answer
    ensures { (result.number ≡ unprepared_number why) × (result.figure ≡ unprepared_figure why) }
{
    match why {
        Unprepared::TableForeign => numbered(10, 0),
        Unprepared::FormulaForeign => numbered(10, 1),
        Unprepared::BufferShort(needed) => numbered(14, needed),
    }
}

pub fn table_answer(reply: Result<(), TableRefusal>) -> Answer
    ensures { Says (λ _. 0) (table_reply reply) result }
{
    match reply {
        Ok(()) => numbered(0, 0),
        Err(TableRefusal::NotLaidOut(line)) => numbered(1, line),
        Err(TableRefusal::OutOfRange(line)) => numbered(2, line),
        Err(TableRefusal::NameRepeated(line)) => numbered(3, line),
        Err(TableRefusal::NotRising(line)) => numbered(4, line),
        Err(TableRefusal::BufferShort(needed)) => numbered(14, needed),
    }
}

pub fn formula_answer(reply: Result<(), FormulaRefusal>) -> Answer
    ensures { Says (λ _. 0) (formula_reply reply) result }
{
    match reply {
        Ok(()) => numbered(0, 0),
        Err(FormulaRefusal::TableForeign) => numbered(10, 0),
        Err(FormulaRefusal::TooLong(length)) => numbered(5, length),
        Err(FormulaRefusal::NotGrammatical(longest)) => numbered(6, longest),
        Err(FormulaRefusal::NameUnknown(offset)) => numbered(7, offset),
        Err(FormulaRefusal::TooManyNodes(nodes)) => numbered(8, nodes),
        Err(FormulaRefusal::NoClass(node)) => numbered(9, node),
        Err(FormulaRefusal::BufferShort(needed)) => numbered(14, needed),
    }
}

pub fn verdict_answer(reply: Result<bool, Unprepared>) -> Answer
    ensures { Says (λ holds. holds) (verdict_reply reply) result }
{
    match reply {
        Ok(holds) => numbered(0, usize::from(holds)),
        Err(why) => unprepared_answer(why),
    }
}

pub fn verdicts_answer(reply: Result<bool, VerdictsRefusal>) -> Answer
    ensures { Says (λ joint. joint) (verdicts_reply reply) result }
{
    match reply {
        Ok(joint) => numbered(0, usize::from(joint)),
        Err(VerdictsRefusal::StartWrong(index)) => numbered(16, index),
        Err(VerdictsRefusal::Unprepared(why)) => unprepared_answer(why),
    }
}

pub fn build_answer(reply: Result<Totals, BuildRefusal>) -> Answer
    ensures { Says (λ counts. counts.rows) (build_reply reply) result }
{
    match reply {
        Ok(totals) => numbered(0, totals.rows),
        Err(BuildRefusal::RowsShort(needed)) => numbered(11, needed),
        Err(BuildRefusal::EdgesShort(needed)) => numbered(12, needed),
        Err(BuildRefusal::Unprepared(why)) => unprepared_answer(why),
    }
}

// The count of edges of a build; what stood there if it was refused.
pub fn build_edges(reply: Result<Totals, BuildRefusal>, before: u64) -> u64
    ensures { result ≡ edges_in before (build_reply reply) }
{
    match reply {
        Ok(totals) => totals.edges as u64,
        Err(_) => before,
    }
}

pub fn word_answer(reply: Result<bool, WordRefusal>) -> Answer
    ensures { Says (λ accepted. accepted) (word_reply reply) result }
{
    match reply {
        Ok(accepted) => numbered(0, usize::from(accepted)),
        Err(WordRefusal::WordBad(index)) => numbered(13, index),
        Err(WordRefusal::Unprepared(why)) => unprepared_answer(why),
    }
}
