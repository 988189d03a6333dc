// The lines of a text and the words of a line, one after another. In a clause either is the text that it has left.
ghost use Rattle.std.specs.Prelude.{◌≡◌, ℕ, List};
ghost use Rattle.std.specs.Iterator.{YieldsFirstRef, item_count};
ghost use Rattle.plaintext.specs.Bytes.{GivesWord, lines, words};

use crate::cuts::{next_line, some_word};
use std::marker::Model;

// The lines, without their line feeds.
#[derive(Drop)]
pub struct Lines<'a> {
    pub(crate) rest: &'a [u8],
}

impl<'a> Model for Lines<'a> {
    ghost Value = { List ℕ };

    ghost view = { λ s. s.rest.now };
}

impl<'a> Iterator for Lines<'a> {
    type Item = &'a [u8];

    ghost next_gives = { YieldsFirstRef lines };

    ghost remaining = { item_count lines };

    fn next(&mut self) -> Option<&'a [u8]> {
        let (line, after) = next_line(self.rest)?;
        self.rest = after;
        Some(line)
    }
}

// The words, without the blanks between them.
#[derive(Drop)]
pub struct Words<'a> {
    pub(crate) rest: &'a [u8],
}

impl<'a> Model for Words<'a> {
    ghost Value = { List ℕ };

    ghost view = { λ s. s.rest.now };
}

impl<'a> Words<'a> {
    // What is not read yet.
    pub fn rest(&self) -> &'a [u8]
        ensures { result.now ≡ self.now }
    {
        self.rest
    }
}

impl<'a> Iterator for Words<'a> {
    type Item = &'a [u8];

    ghost next_gives = { λ s r t. YieldsFirstRef words s r t × GivesWord s r t };

    ghost remaining = { item_count words };

    fn next(&mut self) -> Option<&'a [u8]> {
        let (word, rest) = some_word(self.rest)?;
        self.rest = rest;
        Some(word)
    }
}
