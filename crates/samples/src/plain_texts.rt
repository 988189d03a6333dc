// Plain texts: their lines and words, and bytes put at their end.
use plaintext::{lines, push_bytes, words};
use std::test::Fail;

#[test]
fn bytes_as_characters(rt: HostRuntime) -> Result<(), Fail> {
    let mut text = String::from_str(rt.alloc(), "a ")?;
    push_bytes(&mut text, b"b\xe9\n")?;
    assert_eq!(rt; text.as_str(), "a b\u{e9}\n");
    Ok(())
}

#[test]
fn lines_of_a_text(rt: HostRuntime) {
    let mut seen = lines(b"ramp 1 2\n\n7");
    assert_eq!(rt; seen.next(), Some(&b"ramp 1 2"[..]));
    assert_eq!(rt; seen.next(), Some(&b""[..]));
    assert_eq!(rt; seen.next(), Some(&b"7"[..]));
    assert_eq!(rt; seen.next(), None);
    assert_eq!(rt; lines(b"7\n").count(), 1);
    assert_eq!(rt; lines(b"").count(), 0);
}

#[test]
fn words_of_a_line(rt: HostRuntime) {
    let mut seen = words(b" ramp\t10 \r");
    assert_eq!(rt; seen.next(), Some(&b"ramp"[..]));
    assert_eq!(rt; seen.rest(), &b"\t10 \r"[..]);
    assert_eq!(rt; seen.next(), Some(&b"10"[..]));
    assert_eq!(rt; seen.next(), None);
    assert_eq!(rt; words(b" \t\r").count(), 0);
}
