// Turned: any scale with its order the other way round.
ghost use Rattle.scales.specs.Turning.{turned, turned_coding};
ghost use Rattle.scales.specs.TurnedLaws.{turned_laws, turned_codes};

use crate::scale::{Scale, Short, Written};

// A grade of the scale `S`, on the scale that is `S` turned round.
#[derive(Clone, Copy, Debug)]
pub struct Turned<S> {
    pub grade: S,
}

impl<S: Scale> Scale for Turned<S> {
    ghost meaning = { turned S.Scale.meaning };

    ghost laws = { turned_laws S.Scale.laws };

    fn lowest() -> Self {
        Turned {
            grade: S::highest(),
        }
    }

    fn highest() -> Self {
        Turned { grade: S::lowest() }
    }

    fn join(self, other: Self) -> Self {
        Turned {
            grade: self.grade.meet(other.grade),
        }
    }

    fn meet(self, other: Self) -> Self {
        Turned {
            grade: self.grade.join(other.grade),
        }
    }

    // By its own meet, whatever the blend of `S` is.
    fn blend(self, other: Self) -> Self {
        self.meet(other)
    }

    fn at_or_below(self, other: Self) -> bool {
        other.grade.at_or_below(self.grade)
    }

    fn level(self) -> u16 {
        S::height() - self.grade.level()
    }

    fn height() -> u16 {
        S::height()
    }
}

impl<S: Short> Short for Turned<S> {
    ghost coding = { turned_coding S.Short.coding };

    ghost codes = { turned_codes S.Short.codes };

    ghost low = { S.Short.low };

    fn short_code(self) -> u8 {
        self.grade.short_code()
    }

    fn decode_short(code: u8) -> Option<Self> {
        S::decode_short(code).map(|grade| Turned { grade })
    }
}

impl<S: Written> Written for Turned<S> {
    ghost coding = { turned_coding S.Written.coding };

    ghost codes = { turned_codes S.Written.codes };

    fn code(self) -> u16 {
        self.grade.code()
    }

    fn decode(code: u16) -> Option<Self> {
        S::decode(code).map(|grade| Turned { grade })
    }
}
