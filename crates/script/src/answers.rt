// The line that answers a call.
use pasts::Answer;
use plaintext::push_bytes;
use scales::Written;
use std::alloc::{AllocError, Global};

// The call's word, its number as it was written where it has one, and what was answered.
pub fn answer_line<G: Written>(
    heap: Global,
    verb: &[u8],
    number: &[u8],
    answer: Answer<G>,
) -> Result<String, AllocError> {
    let mut line = String::new(heap);
    push_bytes(&mut line, verb)?;
    if !number.is_empty() {
        line.push(' ')?;
        push_bytes(&mut line, number)?;
    }
    writeln!(line, ": {answer}")?;
    Ok(line)
}
