// The number and the figure of each reply of the entries that write a text or a table.
#![tactic(auto)]

ghost use Rattle.write_formula.specs.Replies.{write_reply};
ghost use Rattle.combine.specs.Replies.{combine_reply};
ghost use Rattle.write_table.specs.Replies.{text_reply};
ghost use Rattle.replies.specs.inner.Says.{Says};

use combine::CombineRefusal;
use replies::{Answer, numbered, unprepared_answer};
use write_formula::WriteRefusal;
use write_table::TextRefusal;

pub fn write_answer(reply: Result<usize, WriteRefusal>) -> Answer
    ensures { Says (λ length. length) (write_reply reply) result }
{
    match reply {
        Ok(length) => numbered(0, length),
        Err(WriteRefusal::TooLong(needed)) => numbered(15, needed),
        Err(WriteRefusal::Unprepared(why)) => unprepared_answer(why),
    }
}

pub fn combine_answer(reply: Result<(), CombineRefusal>) -> Answer
    ensures { Says (λ _. 0) (combine_reply reply) result }
{
    match reply {
        Ok(()) => numbered(0, 0),
        Err(CombineRefusal::TooManyPairs(pairs)) => numbered(17, pairs),
        Err(CombineRefusal::TooManyLabels(labels)) => numbered(18, labels),
        Err(CombineRefusal::TooManyTransitions(transitions)) => numbered(19, transitions),
        Err(CombineRefusal::TableForeign) => numbered(10, 0),
        Err(CombineRefusal::BufferShort(needed)) => numbered(14, needed),
    }
}

pub fn text_answer(reply: Result<usize, TextRefusal>) -> Answer
    ensures { Says (λ length. length) (text_reply reply) result }
{
    match reply {
        Ok(length) => numbered(0, length),
        Err(TextRefusal::TableForeign) => numbered(10, 0),
        Err(TextRefusal::BufferShort(needed)) => numbered(14, needed),
    }
}
