// What `explain` answers, and what the C interface returns and writes of it.
ghost use Rattle.replies.specs.inner.Says.{Says};
ghost use Rattle.explaining.specs.Replies.{explain_reply};
ghost use Rattle.explaining.specs.inner.Values.{ValuesLeft};

use replies::Answer;

// What `explain` answers of two texts that it explains: the verdict, the class, and how many rows and edges there are.
#[derive(Clone, Copy)]
pub struct Explained {
    pub verdict: u64,
    pub class: u64,
    pub rows: u64,
    pub edges: u64,
}

// What an accepted call writes beside the figure.
#[derive(Drop)]
pub struct Values {
    pub verdict: u64,
    pub class: u64,
    pub edges: u64,
}

pub fn explain_answer(reply: Result<Explained, Answer>) -> Answer
    ensures { Says (λ s. s.rows) (explain_reply reply) result }
{
    match reply {
        Ok(explained) => Answer {
            number: 0,
            figure: explained.rows,
        },
        Err(refused) => refused,
    }
}

// The values afterwards, by those before: a refusal leaves them.
pub fn explain_values(reply: Result<Explained, Answer>, before: Values) -> Values
    ensures { ValuesLeft (explain_reply reply) before result }
{
    match reply {
        Ok(explained) => Values {
            verdict: explained.verdict,
            class: explained.class,
            edges: explained.edges,
        },
        Err(_) => before,
    }
}
