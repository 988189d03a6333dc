// A line of a script to the call that it spells.
ghost use Rattle.std.specs.Prelude.{◌≡◌, MatchResult};
ghost use Rattle.plaintext.specs.Bytes.{after_word};
ghost use Rattle.spelling.specs.Spelled.{added, body as body_of, bodies as bodies_of, spelled};

use crate::fields::{Expected, end, form_field, grade_field, number_field, only_number};
use model::Rule;
use pasts::Call;
use plaintext::{is_blank, next_word, same_word};
use scales::Written;

// The first body of the line and what follows it; absent where the line is blank.
fn body(line: &[u8]) -> Result<(u16, &[u8]), Expected>
    ensures { MatchResult result (λ x. (body_of line.now ≡ Ok x.0) × (x.1.now ≡ after_word line.now)) (λ e. body_of line.now ≡ Err e) }
{
    let (word, rest) = next_word(line);
    if is_blank(line) {
        return Ok((0, rest));
    }
    Ok((number_field(word)?, rest))
}

fn bodies(line: &[u8]) -> Result<[u16; 4], Expected>
    ensures { result ≡ bodies_of line.now }
{
    // four steps and no loop over the array: the meaning names the four bodies, and so each step is one line
    let (a, rest) = body(line)?;
    let (b, rest) = body(rest)?;
    let (c, rest) = body(rest)?;
    let (d, rest) = body(rest)?;
    // a plain choice, as in `end`
    if is_blank(rest) {
        Ok([a, b, c, d])
    } else {
        Err(Expected::FourBodies)
    }
}

fn add_of<G: Written>(line: &[u8]) -> Result<Call<G>, Expected>
    ensures { result ≡ added G.Written.coding line.now }
{
    let (word, rest) = next_word(line);
    let mark = number_field(word)?;
    let (word, rest) = next_word(rest);
    let head = number_field(word)?;
    let (word, rest) = next_word(rest);
    let form = form_field(word)?;
    let (word, rest) = next_word(rest);
    let weight = grade_field(word)?;
    let bodies = bodies(rest)?;
    let rule = Rule {
        head,
        form,
        weight,
        bodies,
    };
    Ok(Call::Add(mark, rule))
}

// The call that the word `verb` and the rest of its line spell.
pub fn spelled_call<G: Written>(verb: &[u8], rest: &[u8]) -> Result<Call<G>, Expected>
    ensures { result ≡ spelled G.Written.coding verb.now rest.now }
{
    // a match on byte strings left the goals of all arms open: what it tests byte by byte is not joined to bytes_eq
    if same_word(verb, b"add") {
        add_of(rest)
    } else if same_word(verb, b"withdraw") {
        Ok(Call::Withdraw(only_number(rest)?))
    } else if same_word(verb, b"want") {
        Ok(Call::Want(only_number(rest)?))
    } else if same_word(verb, b"read") {
        Ok(Call::Read(only_number(rest)?))
    } else if same_word(verb, b"step") {
        end(rest)?;
        Ok(Call::Step)
    } else if same_word(verb, b"finish") {
        end(rest)?;
        Ok(Call::Finish)
    } else {
        Err(Expected::Verb)
    }
}
