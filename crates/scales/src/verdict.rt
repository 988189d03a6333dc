// Verdict: what two witnesses make of a statement, on four grades.
ghost use Rattle.std.specs.Prelude.{◌≡◌, ◌≤◌, Some};
ghost use Rattle.scales.specs.Verdicts.{decode, verdicts, verdict_coding};
ghost use Rattle.scales.specs.VerdictLaws.{verdict_laws, verdict_short_codes, verdict_written_codes, verdict_low};

use crate::scale::{Scale, Short, Written};

// False lies below unknown (nobody says so) and inconsistent (they contradict), which lie below true and are not comparable.
// Each has its code as its number, of two binary digits: the first is set where someone says so, the second where nobody says not. Both
// rise with the grade, so join and meet are those of the digits, with no branches.
#[derive(Clone, Copy, Debug, PartialEq, Eq)]
pub enum Verdict {
    False = 0,
    Unknown = 1,
    Inconsistent = 2,
    True = 3,
}

impl Verdict {
    // The verdict with this code.
    fn of_code(code: u8) -> Verdict
        requires { code ≤ 3 }
        ensures { decode code ≡ Some result }
    {
        match code {
            0 => Verdict::False,
            1 => Verdict::Unknown,
            2 => Verdict::Inconsistent,
            _ => Verdict::True,
        }
    }
}

impl Scale for Verdict {
    ghost meaning = { verdicts };

    ghost laws = { verdict_laws };

    fn lowest() -> Verdict {
        Verdict::False
    }

    fn highest() -> Verdict {
        Verdict::True
    }

    fn join(self, other: Verdict) -> Verdict {
        Verdict::of_code(self as u8 | other as u8)
    }

    fn meet(self, other: Verdict) -> Verdict {
        Verdict::of_code(self as u8 & other as u8)
    }

    fn blend(self, other: Verdict) -> Verdict {
        self.meet(other)
    }

    fn at_or_below(self, other: Verdict) -> bool {
        self as u8 & other as u8 == self as u8
    }

    fn level(self) -> u16 {
        match self {
            Verdict::False => 0,
            Verdict::Unknown | Verdict::Inconsistent => 1,
            Verdict::True => 2,
        }
    }

    fn height() -> u16 {
        2
    }
}

impl Short for Verdict {
    ghost coding = { verdict_coding };

    ghost codes = { verdict_short_codes };

    ghost low = { verdict_low };

    fn short_code(self) -> u8 {
        self as u8
    }

    // The error of a `TryFrom` would say no more than `None`.
    fn decode_short(code: u8) -> Option<Verdict> {
        (code <= 3).then(|| Verdict::of_code(code))
    }
}

impl Written for Verdict {
    ghost coding = { verdict_coding };

    ghost codes = { verdict_written_codes };

    fn code(self) -> u16 {
        u16::from(self.short_code())
    }

    fn decode(code: u16) -> Option<Verdict> {
        Verdict::decode_short(u8::try_from(code).ok()?)
    }
}
