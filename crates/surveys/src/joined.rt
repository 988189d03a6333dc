// Joined: two surveys of one scale, of which the better counts.
ghost use Rattle.surveys.specs.Joins.{joined as joined_degrees};

use crate::survey::Survey;
use scales::Scale;

#[derive(Drop)]
pub struct Joined<A, B> {
    pub first: A,
    pub second: B,
}

impl<G: Scale, A: Survey<Grade = G>, B: Survey<Grade = G>> Survey for Joined<A, B> {
    type Grade = G;

    ghost degrees = { λ s. joined_degrees G.Scale.meaning (A.Survey.degrees s.first) (B.Survey.degrees s.second) };

    fn degree(&self, statement: u16) -> G {
        self.first
            .degree(statement)
            .join(self.second.degree(statement))
    }
}
