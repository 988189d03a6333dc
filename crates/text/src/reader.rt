// A place in a lent text, from which its lines are taken one by one.
ghost use Rattle.std.specs.Prelude.{◌≡◌};
ghost use Rattle.std.specs.Option.{option_map};
ghost use Rattle.text.specs.Lines.{line as front_line, after};

use std::marker::Model;

// By a rule of the project a reader is a struct with an invariant: its place lies within the text.
#[derive(Drop)]
pub struct Reader<'a> {
    text: &'a [u8],
    at: usize,
}

// A contract sees a reader as the bytes that are left.
impl<'a> Model for Reader<'a> {
    ghost use Rattle.std.specs.Prelude.{ℕ, ◌≤◌, List, length, drop};

    ghost Value = { List ℕ };

    ghost view = { λ r. drop r.at r.text.now };

    ghost invariant = { λ r. r.at ≤ length r.text.now };
}

impl<'a> Reader<'a> {
    pub fn new(text: &'a [u8]) -> Reader<'a>
        ensures { result ≡ text.now }
    {
        Reader { text, at: 0 }
    }

    // What is left of the text.
    pub fn rest(&self) -> &'a [u8]
        ensures { result.now ≡ self.now }
    {
        &self.text[self.at..]
    }

    // The next line without its line feed, if it has `W` bytes before it; else the reader stays.
    pub fn line<const W: usize>(&mut self) -> Option<&'a [u8; W]>
        ensures line { option_map (λ x. x.now) result ≡ front_line W self.old }
        ensures rest { self.new ≡ after W self.old }
    {
        let rest = self.rest();
        if rest.get(W) != Some(&b'\n') {
            return None;
        }
        let text = self.text;
        let at = self.at + W + 1;
        *self = Reader { text, at };
        rest.first_chunk()
    }
}
