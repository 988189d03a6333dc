// The fields of a script's line.
ghost use Rattle.std.specs.Prelude.{◌≡◌};
ghost use Rattle.spelling.specs.Spoken.{expected_text};
ghost use Rattle.spelling.specs.Fields.{end as end_of, form as form_of, grade as grade_of, number_to_limit, only, reading as reading_of};

use model::Form;
use plaintext::{is_blank, next_word, number, small_number};
use scales::Written;
use std::fmt;

// What should have stood on a line that is malformed.
#[derive(Clone, Copy, Debug, PartialEq, Eq)]
pub enum Expected {
    LineEnd,
    Number,
    Reading,
    GradeCode,
    FormLetter,
    FourBodies,
    Verb,
    BoardFirst,
    ScaleName,
    SurveyPart,
    NoRamp,
}

impl Expected {
    // What should have stood there, in words.
    pub fn words(self) -> &'static str
        ensures { result.now ≡ expected_text self }
    {
        match self {
            Expected::LineEnd => "the end of the line",
            Expected::Number => "a decimal number",
            Expected::Reading => "a number up to 65535",
            Expected::GradeCode => "the code of a grade of this scale",
            Expected::FormLetter => "a form: A, O or L",
            Expected::FourBodies => "at most four bodies",
            Expected::Verb => {
                "board, add, withdraw, want, step, finish, read, tables, grades, load PATH or write"
            }
            Expected::BoardFirst => "a `board` line first",
            Expected::ScaleName => "a scale: percent, verdict, suppliers or belief",
            Expected::SurveyPart => "`listed`, `ramp` or the end of the line",
            Expected::NoRamp => "no ramp, since only percent has one",
        }
    }
}

impl fmt::Display for Expected {
    ghost use Rattle.std.specs.Prelude.{Some};
    ghost use Rattle.spelling.specs.Spoken.{expected_text};

    ghost output = { λ x. Some (expected_text x) };

    fn fmt<W: fmt::Write>(&self, f: &mut fmt::Formatter<W>) -> fmt::Result {
        f.write_str(self.words())
    }
}

pub fn end(line: &[u8]) -> Result<(), Expected>
    ensures { result ≡ end_of line.now }
{
    // a plain choice, which then_some and ok_or would only hide
    if is_blank(line) {
        Ok(())
    } else {
        Err(Expected::LineEnd)
    }
}

// A decimal number, as far as 65,535: every table is shorter, so larger ones are judged alike.
pub fn number_field(word: &[u8]) -> Result<u16, Expected>
    ensures { result ≡ number_to_limit word.now }
{
    let n = number(word).ok_or(Expected::Number)?;
    Ok(u16::try_from(n).unwrap_or(u16::MAX))
}

pub fn only_number(line: &[u8]) -> Result<u16, Expected>
    ensures { result ≡ only line.now }
{
    let (word, rest) = next_word(line);
    end(rest)?;
    number_field(word)
}

pub fn reading_field(word: &[u8]) -> Result<u16, Expected>
    ensures { result ≡ reading_of word.now }
{
    small_number(word).ok_or(Expected::Reading)
}

pub fn grade_field<G: Written>(word: &[u8]) -> Result<G, Expected>
    ensures { result ≡ grade_of G.Written.coding word.now }
{
    let code = small_number(word).ok_or(Expected::GradeCode)?;
    G::decode(code).ok_or(Expected::GradeCode)
}

pub fn form_field(word: &[u8]) -> Result<Form, Expected>
    ensures { result ≡ form_of word.now }
{
    let [letter] = word else {
        return Err(Expected::FormLetter);
    };
    Form::from_letter(char::from(*letter)).ok_or(Expected::FormLetter)
}
