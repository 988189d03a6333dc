// Calls on a loaded board, over any scale, timed by the program's own clock. There is no survey.
use crate::failure::Failure;
use crate::stopwatch::Stopwatch;
use board::{finish, want, withdraw};
use plaintext::{small_number, words};
use scales::Written;
use script::{Desk, Size};
use std::alloc::Global;
use std::num::NonZeroU16;
use surveys::Listed;
use text::{load, write};

// What is timed: a finish, a load and a write, or a withdraw. No closure in its place could serve every scale.
#[derive(Clone, Copy)]
pub(crate) enum Benchmark {
    Finish,
    Text,
    Withdraw,
}

// Runs the benchmark on the board that the text spells, this often, and says how long it took.
pub(crate) fn timed<G: Written>(
    rt: &HostRuntime,
    benchmark: Benchmark,
    text: &[u8],
    turns: NonZeroU16,
) -> Result<String, Failure> {
    let mut desk = loaded::<G>(rt.alloc(), text)?;
    match benchmark {
        Benchmark::Finish => time_finish(rt, &mut desk, turns),
        Benchmark::Text => time_text(rt, &mut desk, text, turns),
        Benchmark::Withdraw => time_withdraw(rt, &mut desk, turns),
    }
}

// The number in five columns of the first line, from 1 up; where it is none, loading the text says so.
fn count_in(columns: Option<&[u8]>) -> usize {
    let count = columns
        .and_then(|columns| words(columns).next())
        .and_then(|word| small_number(word))
        .unwrap_or(1);
    usize::from(count.max(1))
}

// The board that the text spells, on tables as long as its first line says.
fn loaded<G: Written>(heap: Global, text: &[u8]) -> Result<Desk<G, Listed<G>>, Failure> {
    let survey = Listed {
        grades: Vec::new(heap),
    };
    let size = Size {
        statements: count_in(text.get(1..6)),
        places: count_in(text.get(6..11)),
    };
    let mut desk = Desk::new(heap, survey, size)?;
    fill(&mut desk, text)?;
    Ok(desk)
}

fn fill<G: Written>(desk: &mut Desk<G, Listed<G>>, text: &[u8]) -> Result<(), Failure> {
    let answer = load(text, &mut desk.statements, &mut desk.rules);
    answer.map_err(|fault| Failure::Load(fault.report()))?;
    Ok(())
}

// Puts the table back as it was, in the memory that it has.
fn copy_back<T: Copy>(table: &mut [T], from: &[T]) {
    if table.len() == from.len() {
        table.copy_from_slice(from);
    }
}

fn want_all<G: Written>(desk: &mut Desk<G, Listed<G>>) -> Result<(), Failure> {
    // after `min` the cast loses nothing
    let count = desk.statements.len().min(1024) as u16;
    for s in 1..=count {
        want(&mut desk.statements, &desk.rules, s).map_err(Failure::Want)?;
    }
    Ok(())
}

// Finishes the cleared board with all statements wanted. It is no twin of the withdraws: each copies what its call changes, and
// asks for another answer, so that one function of both would take four closures.
fn time_finish<G: Written>(
    rt: &HostRuntime,
    desk: &mut Desk<G, Listed<G>>,
    turns: NonZeroU16,
) -> Result<String, Failure> {
    want_all(desk)?;
    let mut watch = Stopwatch::new();
    let mut count = 0;
    let mut statements = desk.statements.clone()?;
    for _turn in 0..turns.get() {
        copy_back(&mut statements, &desk.statements);
        let answer = watch.time(rt, || finish(&desk.survey, &mut statements, &desk.rules))?;
        count = answer.map_err(Failure::Finish)?;
    }
    let time = watch.nanos(turns);
    Ok(format!(in rt.alloc(); "bench: {count} evaluations, {time} ns per finish")?)
}

// Loads the text, and writes the board again.
fn time_text<G: Written>(
    rt: &HostRuntime,
    desk: &mut Desk<G, Listed<G>>,
    text: &[u8],
    turns: NonZeroU16,
) -> Result<String, Failure> {
    let heap = rt.alloc();
    let bytes = text.len();
    let mut buffer = vec![in heap; 0u8; bytes]?;
    let mut loads = Stopwatch::new();
    let mut writes = Stopwatch::new();
    for _turn in 0..turns.get() {
        let filled = loads.time(rt, || fill(desk, text))?;
        filled?;
        let answer = writes.time(rt, || write(&desk.statements, &desk.rules, &mut buffer))?;
        answer.map_err(Failure::Write)?;
    }
    let load = loads.nanos(turns);
    let write = writes.nanos(turns);
    Ok(format!(in heap; "bench-text: {bytes} bytes, {load} ns per load, {write} ns per write")?)
}

// Withdraws the rule of the last place from the finished board.
fn time_withdraw<G: Written>(
    rt: &HostRuntime,
    desk: &mut Desk<G, Listed<G>>,
    turns: NonZeroU16,
) -> Result<String, Failure> {
    want_all(desk)?;
    finish(&desk.survey, &mut desk.statements, &desk.rules).map_err(Failure::Finish)?;
    // after `min` the cast loses nothing
    let last = desk.rules.len().min(4096) as u16;
    let mut watch = Stopwatch::new();
    let mut statements = desk.statements.clone()?;
    let mut rules = desk.rules.clone()?;
    for _turn in 0..turns.get() {
        copy_back(&mut statements, &desk.statements);
        copy_back(&mut rules, &desk.rules);
        let answer = watch.time(rt, || withdraw(&mut statements, &mut rules, last))?;
        answer.map_err(Failure::Withdraw)?;
    }
    let time = watch.nanos(turns);
    Ok(format!(in rt.alloc(); "bench-withdraw: {time} ns per withdraw")?)
}
