// Board text in scripts: a text read into the current board, and the board written as text.
use crate::desks::Desk;
use plaintext::{lines, push_bytes};
use scales::Written;
use std::alloc::{AllocError, Global};
use text::{Place, load, write};

// What a load prints, and what it tells a person besides.
#[derive(Drop)]
pub struct Loaded {
    pub answer: String,
    pub note: String,
}

// The offending line with a mark below its column; empty where the fault stands on no line.
fn marked_line(heap: Global, text: &[u8], place: Place) -> Result<String, AllocError> {
    let mut note = String::new(heap);
    if let Some(before) = place.line.checked_sub(1) {
        let column = place.column;
        push_bytes(&mut note, lines(text).nth(before).unwrap_or(&[]))?;
        writeln!(note, "\n{:>column$}", "^")?;
    }
    Ok(note)
}

// Loads the text into the board, and says how that went.
pub fn load_line<G: Written, V>(
    heap: Global,
    desk: &mut Desk<G, V>,
    path: &[u8],
    text: &[u8],
) -> Result<Loaded, AllocError> {
    let mut answer = String::from_str(heap, "load ")?;
    push_bytes(&mut answer, path)?;
    let note = match load(text, &mut desk.statements, &mut desk.rules) {
        Ok(count) => {
            writeln!(answer, ": {count} rules")?;
            String::new(heap)
        }
        Err(fault) => {
            writeln!(answer, ": {fault}")?;
            marked_line(heap, text, fault.report().place)?
        }
    };
    Ok(Loaded { answer, note })
}

// The board as text, or why it is not written. `write` spells into a buffer that it is lent.
pub fn write_line<G: Written, V>(heap: Global, desk: &Desk<G, V>) -> Result<String, AllocError> {
    let room = desk.rules.len().saturating_mul(38).saturating_add(12);
    let mut buffer = vec![in heap; 0u8; room]?;
    match write(&desk.statements, &desk.rules, &mut buffer) {
        Ok(len) => {
            buffer.truncate(len);
            let mut text = String::new(heap);
            push_bytes(&mut text, &buffer)?;
            Ok(text)
        }
        Err(refusal) => format!(in heap; "write: {refusal}\n"),
    }
}
