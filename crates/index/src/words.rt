// A set of numbers, held as the binary digits of words of 64, of which there may be any number. `NumberSet` has as many as a board's
// statements fill, and works by these functions.
ghost use Rattle.std.specs.Prelude.{◌≡◌};
ghost use Rattle.std.specs.Int.Count.{count_trailing_zeros};
ghost use Rattle.index.specs.Words.{member, with, trimmed};

// Whether `i` is in the set.
pub fn has(words: &[u64], i: usize) -> bool
    ensures { result ≡ member words.now i }
{
    let q = i / 64;
    q < words.len() && (words[q] >> (i % 64)) & 1 == 1
}

// Puts `i` in, if there is a word for it.
pub fn insert(words: &mut [u64], i: usize)
    ensures { words.new ≡ with words.old i }
{
    let q = i / 64;
    if q < words.len() {
        // by index: of the other items no proof knows anything after a `get_mut`
        words[q] |= 1 << (i % 64);
    }
}

// How many digits of 64 stand below the lowest that is 1: all of them if none is.
pub fn lowest(word: u64) -> u32
    ensures { result ≡ count_trailing_zeros 64 word }
{
    word.trailing_zeros()
}

// The word without its lowest digit that is 1.
pub fn trim(word: u64) -> u64
    ensures { result ≡ trimmed word }
{
    word & word.saturating_sub(1)
}
