// Bytes put at the end of a text.
ghost use Rattle.std.specs.Prelude.{◌≡◌, ◌++◌, OnOk, encode_utf8_all, string_bytes};

use std::alloc::AllocError;

// Appends each byte as the character with its code.
pub fn push_bytes(text: &mut String, bytes: &[u8]) -> Result<(), AllocError>
    ensures { OnOk result (string_bytes text.new ≡ string_bytes text.old ++ encode_utf8_all bytes.now) }
{
    text.extend(bytes.iter().map(|byte| char::from(*byte)))
}
