// What a scan over all rules does, by the chains of one statement: each that is told is noted too. Why there are both ways is said in
// finishing.rt.
ghost use Rattle.std.specs.Prelude.{◌≡◌, ℕ, ◌-◌, ◌≤◌, ◌≢◌};
ghost use Rattle.model.specs.Rules.{present};
ghost use Rattle.model.specs.Least.{worth as worth_of};
ghost use Rattle.index.specs.Words.{Has};
ghost use Rattle.pasts.specs.Tables.{grades};
ghost use Rattle.pasts.specs.declared.statement.Event.TheVariants.{Opened, SonRose};
ghost use Rattle.board.specs.Telling.{sons, parents, all_told};
ghost use Rattle.board.specs.Indexed.{SonsOpen};

use crate::chaining::{Heads, Uses};
use crate::noting::Agenda;
use crate::valuing::value;
use index::NumberSet;
use pasts::{Event, Statement};
use scales::Scale;
use surveys::Survey;

// The worth of `s`, by the chain of its rules.
pub(crate) fn chain_worth<V: Survey>(
    survey: &V,
    statements: &[Statement<V::Grade>],
    own: &Heads<'_, V::Grade>,
    s: u16,
) -> V::Grade
    requires { s ≤ 1024 }
    ensures { result ≡ worth_of V.Grade.Scale.meaning (V.degrees survey.now) own.now.rules.now (grades V.Grade.Scale.meaning statements.now) s }
{
    let mut total = survey.degree(s);
    for rule in own.of(s) {
        total = total.join(value(statements, rule));
    }
    total
}

impl<G: Scale> Agenda<'_, G> {
    // The bodies that are there are opened.
    fn open_bodies(&mut self, bodies: [u16; 4])
        ensures same_reference { self.new.statements.ghost_name ≡ self.old.statements.ghost_name }
        ensures hears { self.new.statements.now ≡ all_told G.meaning Opened self.old.statements.now (present bodies) }
    {
        for b in bodies {
            if b != 0 {
                self.tell(b, Event::Opened);
            }
        }
    }

    // The sons of `s` are opened, by the chain of its rules.
    fn open_sons(&mut self, own: &Heads<'_, G>, s: u16)
        requires { s ≤ 1024 }
        ensures same_reference { self.new.statements.ghost_name ≡ self.old.statements.ghost_name }
        ensures hears { self.new.statements.now ≡ all_told G.meaning Opened self.old.statements.now (sons own.now.rules.now s) }
    {
        for rule in own.of(s) {
            self.open_bodies(rule.bodies);
        }
    }

    // The sons of `s` are opened, unless that was done before.
    pub(crate) fn open_once(&mut self, opened: &mut NumberSet, own: &Heads<'_, G>, s: u16)
        requires named { 1 ≤ s }
        requires on { s ≤ 1024 }
        requires before { Has opened.old (s - 1) → SonsOpen G.meaning own.now.rules.now self.old.statements.now s }
        ensures same_reference { self.new.statements.ghost_name ≡ self.old.statements.ghost_name }
        ensures hears { self.new.statements.now ≡ all_told G.meaning Opened self.old.statements.now (sons own.now.rules.now s) }
        ensures opened { (i : ℕ) → (i ≢ s - 1) → Has opened.new i → Has opened.old i }
    {
        let i = s as usize - 1;
        if opened.has(i) {
            return;
        }
        self.open_sons(own, s);
        opened.insert(i);
    }

    // The parents of `s` are told that a son rose, by the chain of its uses.
    pub(crate) fn tell_parents(&mut self, uses: &Uses<'_, G>, s: u16)
        requires named { 1 ≤ s }
        requires on { s ≤ 1024 }
        ensures same_reference { self.new.statements.ghost_name ≡ self.old.statements.ghost_name }
        ensures hears { self.new.statements.now ≡ all_told G.meaning SonRose self.old.statements.now (parents uses.now.rules.now s) }
    {
        for rule in uses.of(s) {
            self.tell(rule.head, Event::SonRose);
        }
    }
}
