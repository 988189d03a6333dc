// What a scale is. Its meaning is a ghost member, its laws are owed by every `impl`, and every function answers exactly by the meaning.
ghost use Rattle.std.specs.Prelude.{◌≡◌, ℕ, ◌≤◌};
ghost use Rattle.scales.specs.Codes.{Codes, Coding};
ghost use Rattle.scales.specs.Laws.{Laws};
ghost use Rattle.scales.specs.Meaning.{Meaning};

// The order is a test of its own, not a `PartialOrd`: the meaning has it beside the bounds and levels that its laws are about, and two held
// values may be one grade.
pub trait Scale: Copy {
    ghost meaning: { Meaning Self };

    fn lowest() -> Self
        ensures { result ≡ meaning.lowest };

    fn highest() -> Self
        ensures { result ≡ meaning.highest };

    fn join(self, other: Self) -> Self
        ensures { result ≡ meaning.join self other };

    fn meet(self, other: Self) -> Self
        ensures { result ≡ meaning.meet self other };

    // Blends `other`, as right operand, into `self`.
    fn blend(self, other: Self) -> Self
        ensures { result ≡ meaning.blend self other };

    fn at_or_below(self, other: Self) -> bool
        ensures { result ≡ meaning.below self other };

    fn level(self) -> u16
        ensures { result ≡ meaning.level self };

    fn height() -> u16
        ensures value { result ≡ meaning.height }
        ensures bound { result ≤ 65535 };

    ghost laws: { Laws meaning };
}

// A scale with at most 256 grades and a height of at most 255, so that two of them make a pair.
// `Short` and `Written` are two traits: supplier sets and pairs are written and not short.
pub trait Short: Scale {
    ghost coding: { Coding Self };

    fn short_code(self) -> u8
        ensures value { result ≡ coding.code self }
        ensures bound { result ≤ 255 };

    fn decode_short(code: u8) -> Option<Self>
        ensures { result ≡ coding.decode code };

    ghost codes: { Codes Self.Scale.meaning coding 255 };

    ghost low: { Self.Scale.meaning.height ≤ 255 };
}

// A scale whose grades board text can spell.
pub trait Written: Scale {
    ghost coding: { Coding Self };

    fn code(self) -> u16
        ensures value { result ≡ coding.code self }
        ensures bound { result ≤ 65535 };

    fn decode(code: u16) -> Option<Self>
        ensures { result ≡ coding.decode code };

    ghost codes: { Codes Self.Scale.meaning coding 65535 };
}
