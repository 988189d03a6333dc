// Why a call is refused.
ghost use Rattle.std.specs.Prelude.{◌≡◌};
ghost use Rattle.pasts.specs.Refusals.{number as numbered};

use std::error::Error;
use std::fmt;

// Each with its number. The last seven are refusals of board text.
#[derive(Clone, Copy, Debug, PartialEq, Eq)]
pub enum Refusal {
    // A table's length lies outside its limits.
    TableLength = 1,
    // A place that is not blank has a head or body above the statement count, or a body after an absent one.
    MalformedPlace = 2,
    // A statement number is 0 or above the count; a body may be 0.
    NoSuchStatement = 3,
    // A mark is 0 or above the rule table's length.
    NoSuchMark = 4,
    // Add finds its place not blank.
    PlaceTaken = 5,
    // Withdraw finds its place blank.
    PlaceBlank = 6,
    // A body follows an absent one.
    BodyAfterAbsent = 7,
    // Step finds no active statement.
    NothingActive = 8,
    // Read meets an unopened statement.
    NotOpen = 9,
    // Too few bytes are left for the line, or its line feed is not in place.
    LineShort = 10,
    // Column 1 is not the due B or R, or column 12 is none of A, O, L.
    Letter = 11,
    // A number field is not as described.
    Field = 12,
    // A weight code decodes to none.
    WeightCode = 13,
    // The statement count is not the table's length, the rule count is above the rule table's, or bytes follow.
    Count = 14,
    // A mark is not above that of the line before.
    MarkOrder = 15,
    // The buffer is shorter than the text to be written.
    BufferShort = 16,
}

impl Refusal {
    pub fn number(self) -> u8
        ensures { result ≡ numbered self }
    {
        self as u8
    }
}

impl fmt::Display for Refusal {
    ghost use Rattle.std.specs.Prelude.{Some};
    ghost use Rattle.pasts.specs.Spoken.{refusal_text};

    ghost output = { λ r. Some (refusal_text r) };

    fn fmt<W: fmt::Write>(&self, f: &mut fmt::Formatter<W>) -> fmt::Result {
        write!(f, "refused {}", self.number())
    }
}

impl Error for Refusal {}
