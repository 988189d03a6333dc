// Numbers in five columns: blanks, then decimal digits with no leading zero but 0 itself.
ghost use Rattle.std.specs.Prelude.{◌≡◌, ◌<◌, length};
ghost use Rattle.std.specs.Option.{unwrap_or};
ghost use Rattle.text.specs.Decimal.{parsed, step, written, column};

// One more column, where those before it came to `value` or were blank.
fn next(value: Option<u32>, b: u8) -> Option<Option<u32>>
    requires { unwrap_or value 0 < 10000 }
    ensures { result ≡ step value b }
{
    match (value, b) {
        (None, b' ') => Some(None),
        (None, b'0'..=b'9') => Some(Some((b - b'0') as u32)),
        (Some(0), _) => None,
        (Some(v), b'0'..=b'9') => Some(Some(v * 10 + (b - b'0') as u32)),
        _ => None,
    }
}

// The number that the columns spell, if they spell one.
pub fn parse(field: &[u8; 5]) -> Option<u32>
    ensures { result ≡ parsed field.now }
{
    let mut value: Option<u32> = None;
    for b in field {
        value = next(value, *b)?;
    }
    value
}

fn digit(n: u32, power: u32) -> u8
    requires { 0 < power }
    ensures { result ≡ column n power }
{
    if n < power {
        b' '
    } else {
        b'0' + (n / power % 10) as u8
    }
}

// The number in five columns, blanks before it. Of one above 99,999 only the last five digits are written.
pub fn write_number(n: u32, out: &mut [u8])
    requires { length out.old ≡ 5 }
    ensures { out.new ≡ written n }
{
    // one by one: five columns copied from an array of their own take twice as long
    out[0] = digit(n, 10000);
    out[1] = digit(n, 1000);
    out[2] = digit(n, 100);
    out[3] = digit(n, 10);
    out[4] = b'0' + (n % 10) as u8;
}
