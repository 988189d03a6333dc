// A set of numbers below 1,024: as many as a board has statements at the most.
ghost use Rattle.std.specs.Prelude.{◌≡◌, ℕ, ◌*◌, ◌<◌, ◌≤◌, MatchOption, replicate, slice_index, slice_set};
ghost use Rattle.index.specs.Words.{digit, Has, member, with, trimmed};

use crate::words::{has, insert, lowest, trim};
use std::marker::Model;

// As many words as the numbers of a board's statements fill. No parameter: of any number of words a digit's place may not fit its type.
const WORDS: usize = 16;

#[derive(Drop)]
pub struct NumberSet {
    words: [u64; WORDS],
}

impl Model for NumberSet {
    ghost use Rattle.std.specs.Prelude.{List, ℕ};

    ghost Value = { List ℕ };

    ghost view = { λ s. s.words };
}

// The place of the lowest digit that is 1.
fn place_of_lowest(word: u64) -> u32
    requires { 0 < word }
    ensures place { result < 64 }
    ensures one { digit result word ≡ 1 }
    ensures below { (k : ℕ) → k < result → digit k word ≡ 0 }
{
    lowest(word)
}

impl NumberSet {
    // The empty set.
    pub fn new() -> Self
        ensures { result ≡ replicate 16 0 }
    {
        NumberSet { words: [0; WORDS] }
    }

    // Whether `i` is in the set.
    pub fn has(&self, i: usize) -> bool
        ensures { result ≡ member self.now i }
    {
        has(&self.words, i)
    }

    // Puts `i` in, if there is a word for it.
    pub fn insert(&mut self, i: usize)
        ensures with { self.new ≡ with self.old i }
        ensures has { i < 1024 → Has self.new i }
    {
        insert(&mut self.words, i);
    }

    // The lowest number in the set, but for those in the words before `q`.
    pub fn lowest_from(&self, q: usize) -> Option<usize>
        ensures { MatchOption result ((j : ℕ) → 64 * q ≤ j → Has self.now j → ⊥) (λ i. (64 * q ≤ i) × Has self.now i × ((j : ℕ) → 64 * q ≤ j → Has self.now j → i ≤ j)) }
    {
        let words = &self.words;
        let k = (q..WORDS).find(|k| words[*k] != 0)?;
        // `as`: a `usize` has no `From` of a `u32`, and the place is below 64
        Some(64 * k + place_of_lowest(words[k]) as usize)
    }

    // Takes out the lowest number of those in the word `q`.
    pub fn remove_lowest(&mut self, q: usize)
        ensures { self.new ≡ slice_set self.old q (trimmed (slice_index self.old q)) }
    {
        if q < WORDS {
            // by index, as in `insert`
            self.words[q] = trim(self.words[q]);
        }
    }
}
