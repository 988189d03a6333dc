// A board with its survey and its tables, as a script makes it.
ghost use Rattle.std.specs.Prelude.{◌≡◌, count_by, replicate, IfOk};
ghost use Rattle.model.specs.Rules.{blank};
ghost use Rattle.pasts.specs.Calls.{Outcome};
ghost use Rattle.pasts.specs.Marks.{active};
ghost use Rattle.pasts.specs.Tables.{tables, unopened};

use board::perform;
use model::Rule;
use pasts::{Answer, Call, Statement};
use scales::Scale;
use std::alloc::{AllocError, Global};
use surveys::Survey;

// How long the tables of a board are to be.
#[derive(Clone, Copy, Debug, PartialEq, Eq)]
pub struct Size {
    pub statements: usize,
    pub places: usize,
}

#[derive(Drop)]
pub struct Desk<G, V> {
    pub survey: V,
    pub statements: Vec<Statement<G>>,
    pub rules: Vec<Rule<G>>,
}

impl<G: Scale, V: Survey<Grade = G> + Drop> Desk<G, V> {
    // Tables of this size over the survey: nothing is asked for, and no rule is kept.
    pub fn new(heap: Global, survey: V, size: Size) -> Result<Desk<G, V>, AllocError>
        ensures statements { IfOk result (λ d. d.statements.items ≡ replicate size.statements (unopened G.Scale.meaning)) }
        ensures rules { IfOk result (λ d. d.rules.items ≡ replicate size.places (blank G.Scale.meaning)) }
        ensures survey { IfOk result (λ d. d.survey ≡ survey) }
    {
        let statements = copies(heap, Statement::unopened(), size.statements)?;
        let rules = copies(heap, Rule::blank(), size.places)?;
        Ok(Desk {
            survey,
            statements,
            rules,
        })
    }
}

impl<G: Scale, V: Survey<Grade = G>> Desk<G, V> {
    // Performs one call on the board.
    pub fn call(&mut self, call: &Call<G>) -> Answer<G>
        ensures outcome { Outcome G.Scale.meaning (V.Survey.degrees self.old.survey) call.now (tables self.old.statements.items self.old.rules.items) result (tables self.new.statements.items self.new.rules.items) }
        ensures survey { self.new.survey ≡ self.old.survey }
    {
        perform(&self.survey, &mut self.statements, &mut self.rules, call)
    }
}

impl<G, V> Desk<G, V> {
    // How many statements are still to be evaluated.
    pub fn waiting(&self) -> usize
        ensures { result ≡ count_by (λ x. active x.mark) self.now.statements.items }
    {
        self.statements
            .iter()
            .filter(|x| x.mark.is_active())
            .count()
    }
}

// A table of this many copies of the item. `vec!` clones, and no bound says that a clone is its source.
fn copies<T: Copy>(heap: Global, item: T, len: usize) -> Result<Vec<T>, AllocError>
    ensures { IfOk result (λ v. v.items ≡ replicate len item) }
{
    (0..len).map(|_| item).collect(heap)
}
