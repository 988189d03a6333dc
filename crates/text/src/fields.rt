// The fields of a line: numbers, the letter of a form, and the code of a weight.
ghost use Rattle.std.specs.Prelude.{◌≡◌};
ghost use Rattle.text.specs.Faults.{field_risen, judged};
ghost use Rattle.text.specs.Fields.{number_of, number_checks, form_of, form_checks, weight_of, weight_checks};

use crate::decimal::parse;
use crate::faults::{FieldFault, Place};
use model::Form;
use pasts::Refusal;
use scales::Written;

pub fn read_number(field: &[u8; 5], place: Place) -> Result<u32, FieldFault>
    ensures { field_risen result ≡ judged (number_checks field.now place.line place.column) (number_of field.now) }
{
    // with ok_or in place of the match a load takes nearly twice as long
    match parse(field) {
        Some(number) => Ok(number),
        None => Err(FieldFault {
            refusal: Refusal::Field,
            place,
        }),
    }
}

pub fn read_form(letter: u8, place: Place) -> Result<Form, FieldFault>
    ensures { field_risen result ≡ judged (form_checks letter place.line place.column) (form_of letter) }
{
    Form::from_letter(char::from(letter)).ok_or(FieldFault {
        refusal: Refusal::Letter,
        place,
    })
}

// The weight whose code the field holds.
pub fn read_weight<G: Written>(field: &[u8; 5], place: Place) -> Result<G, FieldFault>
    ensures { field_risen result ≡ judged (weight_checks G.coding field.now place.line place.column) (weight_of G.Scale.meaning G.coding field.now) }
{
    let code = read_number(field, place)?;
    u16::try_from(code)
        .ok()
        .and_then(|code| G::decode(code))
        .ok_or(FieldFault {
            refusal: Refusal::WeightCode,
            place,
        })
}
