// Listed: a table of grades of any scale.
ghost use Rattle.surveys.specs.Tables.{listed as listed_degrees};

use crate::survey::Survey;
use crate::table::entry_or;
use scales::Scale;

// Entry s of the table, counted from 1, is the degree of statement s. An empty table is no survey at all.
#[derive(Drop)]
pub struct Listed<G> {
    pub grades: Vec<G>,
}

impl<G: Scale> Survey for Listed<G> {
    type Grade = G;

    ghost degrees = { listed_degrees G.Scale.meaning.lowest };

    // Lowest beyond the table, and at 0.
    fn degree(&self, statement: u16) -> G {
        entry_or(&self.grades, statement, G::lowest())
    }
}
