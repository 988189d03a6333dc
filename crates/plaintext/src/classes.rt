// Classes of bytes, and how many bytes of one begin a text. The library's `take_while` takes the class as a closure.
ghost use Rattle.std.specs.Prelude.{◌≡◌, ◌≤◌, length};
ghost use Rattle.std.specs.List.{prefix_len};
ghost use Rattle.plaintext.specs.Bytes.{blank, in_line, in_word};

fn is_between_words(byte: u8) -> bool
    ensures { result ≡ blank byte }
{
    matches!(byte, b' ' | b'\t' | b'\r')
}

pub fn blank_len(text: &[u8]) -> usize
    ensures value { result ≡ prefix_len blank text.now }
    ensures bound { result ≤ length text.now }
{
    text.iter()
        .take_while(|byte| is_between_words(**byte))
        .count()
}

pub fn word_len(text: &[u8]) -> usize
    ensures value { result ≡ prefix_len in_word text.now }
    ensures bound { result ≤ length text.now }
{
    text.iter()
        .take_while(|byte| !is_between_words(**byte))
        .count()
}

pub fn line_len(text: &[u8]) -> usize
    ensures value { result ≡ prefix_len in_line text.now }
    ensures bound { result ≤ length text.now }
{
    text.iter().take_while(|byte| **byte != b'\n').count()
}
