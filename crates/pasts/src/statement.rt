// A statement of a board, and what it can be told.
ghost use Rattle.std.specs.Prelude.{◌≡◌};
ghost use Rattle.pasts.specs.Marks.{answered, active, open_mark};
ghost use Rattle.pasts.specs.Tables.{told as after_event, unopened as no_one_asked};

use scales::Scale;
use std::fmt;

// The mark of a statement: no one asked for it yet; it is open and nothing is to be done for it before a son rises; or it
// is open and to be taken. The mark of a rule is another thing: the number of its place.
#[derive(Clone, Copy, Debug, PartialEq, Eq)]
pub enum Mark {
    Unopened,
    Quiet,
    Active,
}

// What a statement can be told.
#[derive(Clone, Copy, Debug, PartialEq, Eq)]
pub enum Event {
    Wanted,
    Opened,
    SonRose,
    Taken,
}

impl Mark {
    // The mark after an event: the one way in which marks change.
    pub fn after(self, event: Event) -> Mark
        ensures { result ≡ answered self event }
    {
        match (self, event) {
            (Mark::Unopened, Event::Wanted) => Mark::Active,
            (Mark::Unopened, Event::Opened) => Mark::Active,
            (Mark::Quiet, Event::SonRose) => Mark::Active,
            (Mark::Active, Event::Taken) => Mark::Quiet,
            (other, _) => other,
        }
    }

    pub fn is_active(self) -> bool
        ensures { result ≡ active self }
    {
        matches!(self, Mark::Active)
    }

    pub fn is_open(self) -> bool
        ensures { result ≡ open_mark self }
    {
        !matches!(self, Mark::Unopened)
    }
}

impl fmt::Display for Mark {
    ghost use Rattle.std.specs.Prelude.{Some};
    ghost use Rattle.pasts.specs.Spoken.{mark_text};

    ghost output = { λ x. Some (mark_text x) };

    fn fmt<W: fmt::Write>(&self, f: &mut fmt::Formatter<W>) -> fmt::Result {
        f.write_str(match self {
            Mark::Unopened => "unopened",
            Mark::Quiet => "quiet",
            Mark::Active => "active",
        })
    }
}

#[derive(Clone, Copy)]
pub struct Statement<G> {
    pub grade: G,
    pub mark: Mark,
}

impl<G: Scale> Statement<G> {
    // A statement that no one asked for.
    pub fn unopened() -> Statement<G>
        ensures { result ≡ no_one_asked G.meaning }
    {
        Statement {
            grade: G::lowest(),
            mark: Mark::Unopened,
        }
    }

    // The statement after an event, which changes its mark alone.
    pub fn told(self, event: Event) -> Statement<G>
        ensures { result ≡ after_event event self }
    {
        Statement {
            mark: self.mark.after(event),
            ..self
        }
    }
}
