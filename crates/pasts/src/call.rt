// The calls on a board, and what they answer.
use crate::refusal::Refusal;
use model::Rule;
use scales::Written;
use std::fmt;

// `Add(k, rule)` and `Withdraw(k)` go by the mark `k` of a rule, the number of its place; `Want(s)` and `Read(s)` by a
// statement's number.
#[derive(Clone, Copy)]
pub enum Call<G> {
    Add(u16, Rule<G>),
    Withdraw(u16),
    Want(u16),
    Step,
    Finish,
    Read(u16),
}

// `Stepped` has the statement that was taken and whether it rose, `Finished` the number of steps, and `Graded` a grade
// and whether no statement is active: the flags stay beside their values, as step and read answer them.
#[derive(Clone, Copy)]
pub enum Answer<G> {
    Added,
    Withdrawn,
    NowWanted,
    Stepped(u16, bool),
    Finished(u64),
    Graded(G, bool),
    Refused(Refusal),
}

// What an answer says, a grade by its code.
impl<G: Written> fmt::Display for Answer<G> {
    ghost use Rattle.std.specs.Prelude.{Some};
    ghost use Rattle.pasts.specs.Spoken.{answer_text};

    ghost output = { λ a. Some (answer_text G.coding a) };

    fn fmt<W: fmt::Write>(&self, f: &mut fmt::Formatter<W>) -> fmt::Result {
        match *self {
            Answer::Added => f.write_str("added"),
            Answer::Withdrawn => f.write_str("withdrawn"),
            Answer::NowWanted => f.write_str("wanted"),
            Answer::Stepped(s, true) => write!(f, "{s} rose"),
            Answer::Stepped(s, false) => write!(f, "{s} unchanged"),
            Answer::Finished(count) => write!(f, "{count} evaluations"),
            Answer::Graded(grade, true) => write!(f, "{} settled", grade.code()),
            Answer::Graded(grade, false) => write!(f, "{} unsettled", grade.code()),
            Answer::Refused(refusal) => write!(f, "{refusal}"),
        }
    }
}

// A call and its answer.
#[derive(Clone, Copy)]
pub struct Entry<G> {
    pub call: Call<G>,
    pub answer: Answer<G>,
}
