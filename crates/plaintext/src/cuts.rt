// Lines and words at the front of a text.
ghost use Rattle.std.specs.Prelude.{◌≡◌, ◌+◌, ◌<◌, ◌≤◌, length, IfSome};
ghost use Rattle.std.specs.Str.{bytes_eq};
ghost use Rattle.plaintext.specs.Bytes.{Cuts, all_blank, after_word, first_word, lines, next_line, next_word};

use crate::classes::{blank_len, line_len, word_len};
use crate::iters::{Lines, Words};

pub fn lines(text: &[u8]) -> Lines<'_>
    ensures all { result ≡ text.now }
    ensures bound { length (lines text.now) ≤ length text.now }
{
    Lines { rest: text }
}

pub fn words(line: &[u8]) -> Words<'_>
    ensures { result ≡ line.now }
{
    Words { rest: line }
}

// The first line without its line feed, and the text after it; none at the end of the text.
pub fn next_line(text: &[u8]) -> Option<(&[u8], &[u8])>
    ensures parts { Cuts result (next_line text.now) }
    ensures shorter { IfSome result (λ x. length x.1.now < length text.now) }
{
    if text.is_empty() {
        return None;
    }
    let n = line_len(text);
    if n < text.len() {
        Some((&text[..n], &text[n + 1..]))
    } else {
        Some((text, &[]))
    }
}

// The first word, which is empty where the line is blank, and what follows it.
pub fn next_word(line: &[u8]) -> (&[u8], &[u8])
    ensures word { result.0.now ≡ first_word line.now }
    ensures rest { result.1.now ≡ after_word line.now }
    ensures bound { length result.0.now + length result.1.now ≤ length line.now }
{
    let (_, start) = line.split_at(blank_len(line));
    start.split_at(word_len(start))
}

// The same where there is a word, and none where the line is blank.
pub fn some_word(line: &[u8]) -> Option<(&[u8], &[u8])>
    ensures parts { Cuts result (next_word line.now) }
    ensures shorter { IfSome result (λ x. length x.1.now < length line.now) }
{
    let (word, rest) = next_word(line);
    (!word.is_empty()).then_some((word, rest))
}

// Whether the line has no word.
pub fn is_blank(line: &[u8]) -> bool
    ensures { result ≡ all_blank line.now }
{
    blank_len(line) == line.len()
}

// Whether two words are the same: `==` under a name, since its clause says by `bytes_eq` what it tests, as calls are specified.
pub fn same_word(word: &[u8], other: &[u8]) -> bool
    ensures { result ≡ bytes_eq word.now other.now }
{
    word == other
}
