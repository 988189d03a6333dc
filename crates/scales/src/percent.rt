// Percent: the whole numbers 0 to 100 in their usual order.
ghost use Rattle.std.specs.Prelude.{◌≡◌, ◌≤◌};
ghost use Rattle.scales.specs.Percents.{percents, percent_coding, points as points_of};
ghost use Rattle.scales.specs.PercentLaws.{percent_laws, percent_short_codes, percent_written_codes, percent_low};

use crate::scale::{Scale, Short, Written};

// A grade from 0 to 100, held as any byte: 101 to 255 hold the grade 100 too. So a table of bytes is a table of grades, with no invariant,
// and equality of bytes, which a derive would give, is not equality of grades.
#[derive(Clone, Copy, Debug)]
pub struct Percent {
    pub value: u8,
}

const FULL: u8 = 100;

impl Percent {
    // The number of the grade that is held.
    pub fn points(self) -> u8
        ensures value { result ≡ points_of self }
        ensures bound { result ≤ 100 }
    {
        self.value.min(FULL)
    }
}

impl Scale for Percent {
    ghost meaning = { percents };

    ghost laws = { percent_laws };

    fn lowest() -> Percent {
        Percent { value: 0 }
    }

    fn highest() -> Percent {
        Percent { value: FULL }
    }

    fn join(self, other: Percent) -> Percent {
        Percent {
            value: self.points().max(other.points()),
        }
    }

    fn meet(self, other: Percent) -> Percent {
        Percent {
            value: self.points().min(other.points()),
        }
    }

    fn blend(self, other: Percent) -> Percent {
        let product = u16::from(self.points()) * u16::from(other.points());
        Percent {
            // at most 100, since both are: the cast loses nothing
            value: (product / 100) as u8,
        }
    }

    fn at_or_below(self, other: Percent) -> bool {
        self.points() <= other.points()
    }

    fn level(self) -> u16 {
        u16::from(self.points())
    }

    fn height() -> u16 {
        u16::from(FULL)
    }
}

impl Short for Percent {
    ghost coding = { percent_coding };

    ghost codes = { percent_short_codes };

    ghost low = { percent_low };

    fn short_code(self) -> u8 {
        self.points()
    }

    fn decode_short(code: u8) -> Option<Percent> {
        (code <= FULL).then_some(Percent { value: code })
    }
}

impl Written for Percent {
    ghost coding = { percent_coding };

    ghost codes = { percent_written_codes };

    fn code(self) -> u16 {
        u16::from(self.points())
    }

    fn decode(code: u16) -> Option<Percent> {
        Percent::decode_short(u8::try_from(code).ok()?)
    }
}
