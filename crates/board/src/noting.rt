// A table of statements with the active ones noted in a set beside it, so that the lowest-numbered one is found in a few words. A statement
// that is active no more may stay in the set until it is met there.
ghost use Rattle.std.specs.Prelude.{◌≡◌, ◌-◌, ◌*◌, ◌<◌, ◌≤◌, true, length, set, slice_index_or, slice_set};
ghost use Rattle.pasts.specs.Marks.{active, answered};
ghost use Rattle.pasts.specs.Tables.{entered, told, unopened};
ghost use Rattle.pasts.specs.declared.statement.Event.TheVariants.{Taken};
ghost use Rattle.board.specs.Advances.{Picks};
ghost use Rattle.board.specs.Indexed.{Noted, Resting};

use crate::blanks::statement_at;
use crate::numbered::put;
use crate::stepping::take;
use index::NumberSet;
use pasts::{Event, Statement};
use scales::Scale;

// No statement is active in the words before `from`, so that the search for the lowest begins there, and not at the first word each time.
// Each method says that the table is still the lent one (`same_reference`): a ghost field speaks of one moment, and cannot.
#[derive(Drop)]
pub(crate) struct Agenda<'a, G: Scale> {
    pub(crate) statements: &'a mut [Statement<G>],
    pub(crate) active: NumberSet,
    from: usize,
    ghost few: { length statements.now ≤ 1024 },
    ghost noted: { Noted G.meaning active statements.now },
    ghost rests: { Resting G.meaning (64 * from) statements.now },
}

impl<'a, G: Scale> Agenda<'a, G> {
    // Notes every active statement.
    pub(crate) fn new(statements: &'a mut [Statement<G>]) -> Agenda<'a, G>
        requires { length statements.old ≤ 1024 }
        ensures same_reference { result.statements.ghost_name ≡ statements.entry.ghost_name }
        ensures same { result.statements.now ≡ statements.old }
    {
        let active = active_in(statements);
        Agenda {
            statements,
            active,
            from: 0,
        }
    }

    // The statement `s`, if there is one, answers the event, and is noted if that changed its mark.
    pub(crate) fn tell(&mut self, s: u16, event: Event)
        requires { 1 ≤ s }
        ensures same_reference { self.new.statements.ghost_name ≡ self.old.statements.ghost_name }
        ensures hears { self.new.statements.now ≡ slice_set self.old.statements.now (s - 1) (told event (entered G.meaning self.old.statements.now s)) }
    {
        let statements = &mut *self.statements;
        let before = statement_at(statements, s);
        let after = before.told(event);
        if after.mark == before.mark {
            return;
        }
        let i = s as usize - 1;
        self.active.insert(i);
        self.from = self.from.min(i / 64);
        put(self.statements, s, after);
    }

    // The statement `s`, if there is one, is taken, with this grade.
    pub(crate) fn take(&mut self, s: u16, grade: G)
        requires { 1 ≤ s }
        ensures same_reference { self.new.statements.ghost_name ≡ self.old.statements.ghost_name }
        ensures taken { self.new.statements.now ≡ set self.old.statements.now (s - 1) (record { grade = grade; mark = answered (entered G.meaning self.old.statements.now s).mark Taken }) }
    {
        take(self.statements, s, grade);
    }

    // Whether the place `i` holds an active statement.
    fn is_active_at(&self, i: usize) -> bool
        ensures is { result ≡ active (slice_index_or self.now.statements.now i (unopened G.meaning)).mark }
        ensures within { result ≡ true → i < length self.now.statements.now }
    {
        i < self.statements.len() && self.statements[i].mark.is_active()
    }

    // The active statement with the lowest number. What is met before it is active no more, and leaves the set.
    pub(crate) fn first(&mut self) -> Option<u16>
        ensures same_reference { self.new.statements.ghost_name ≡ self.old.statements.ghost_name }
        ensures same { self.new.statements.now ≡ self.old.statements.now }
        ensures picks { Picks G.meaning self.old.statements.now result }
    {
        let mut q = self.from;
        while let Some(i) = self.active.lowest_from(q) {
            if self.is_active_at(i) {
                self.from = i / 64;
                return Some(i as u16 + 1);
            }
            q = i / 64;
            self.active.remove_lowest(q);
        }
        None
    }
}

// The places of the active statements.
fn active_in<G: Scale>(statements: &[Statement<G>]) -> NumberSet
    requires { length statements.now ≤ 1024 }
    ensures { Noted G.meaning result statements.now }
{
    let mut active = NumberSet::new();
    for (i, x) in statements.iter().enumerate() {
        if x.mark.is_active() {
            active.insert(i);
        }
    }
    active
}
