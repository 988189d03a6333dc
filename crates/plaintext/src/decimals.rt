// Decimal numbers.
ghost use Rattle.std.specs.Prelude.{◌≡◌};
ghost use Rattle.plaintext.specs.Numbers.{digit as digit_of, decimal, small};

// One above every number that a table or a record holds: larger ones are judged alike.
const TOP: u32 = 65536;

fn digit(byte: u8) -> Option<u32>
    ensures { result ≡ digit_of byte }
{
    char::from(byte).to_digit(10)
}

// The number that the digits of `word` spell, up to 65,536; none where a byte is no digit or there is none.
pub fn number(word: &[u8]) -> Option<u32>
    ensures { result ≡ decimal word.now }
{
    if word.is_empty() {
        return None;
    }
    // a loop and no try_fold: that the next sum fits is known only of the value so far, which is the invariant
    let mut value = 0;
    for byte in word {
        value = TOP.min(10 * value + digit(*byte)?);
    }
    Some(value)
}

// The same, where it is at most 65,535.
pub fn small_number(word: &[u8]) -> Option<u16>
    ensures { result ≡ small (decimal word.now) }
{
    number(word).and_then(|value| u16::try_from(value).ok())
}
