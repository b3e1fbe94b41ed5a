// The comparison at the end of the words: an operator and its one or two constants.
ghost use Rattle.std.specs.Prelude.{◌<◌, ◌≤◌, IfOk, IfSome, length};
ghost use Rattle.scan_question.specs.Comparisons.{Understood};

use scan_says::Sentence;
use scan_says::system::System;
use scan_words::names::{BETWEEN, read_digit, read_operator};
use scan_words::numbers::read_constant;
use std::env::Env;
use std::fs::{Files, OpenOptions};

// Operator number and constants, and how many words they took.
#[derive(Clone, Copy)]
pub struct Comparison {
    pub op: u32,
    pub a: i64,
    pub b: i64,
    pub words: usize,
}

fn named_at<R: Env>(system: &System<R>, at: usize) -> Option<u32>
    ensures { IfSome result (λ op. op < 8) }
{
    let mut word = io::buffer();
    let n = system.arg(at, &mut word);
    read_operator(&word[..n])
}

fn numbered_at<R: Env>(system: &System<R>, at: usize) -> Option<u32>
    ensures { IfSome result (λ op. op < 8) }
{
    let mut word = io::buffer();
    let n = system.arg(at, &mut word);
    read_digit(&word[..n])
}

fn constant_at<R: Env>(system: &System<R>, at: usize) -> Result<i64, Sentence> {
    let mut word = io::buffer();
    let n = system.arg(at, &mut word);
    read_constant(&word[..n]).ok_or(Sentence::NoConstant(at))
}

// Can the file that a word names be opened.
fn is_there<R: Env + Files>(system: &System<R>, at: usize) -> bool {
    let mut name = io::buffer();
    let n = system.arg(at, &mut name);
    system
        .open(OpenOptions::new().read(true), &name[..n])
        .is_ok()
}

fn with_one<R: Env>(system: &System<R>, op: u32, first: usize) -> Result<Comparison, Sentence>
    requires { op < 6 }
    ensures { IfOk result (λ c. Understood 2 c) }
{
    let a = constant_at(system, first)?;
    Ok(Comparison {
        op,
        a,
        b: 0,
        words: 2,
    })
}

fn with_two<R: Env>(
    system: &System<R>,
    op: u32,
    first: usize,
    second: usize,
) -> Result<Comparison, Sentence>
    requires { (6 ≤ op) × (op < 8) }
    ensures { IfOk result (λ c. Understood 3 c) }
{
    let a = constant_at(system, first)?;
    let b = constant_at(system, second)?;
    Ok(Comparison { op, a, b, words: 3 })
}

// The last two of some words, or their last three; or what is wrong with them.
pub fn at_end<R: Env + Files>(system: &System<R>, words: &[usize]) -> Result<Comparison, Sentence>
    ensures { IfOk result (λ c. Understood (length words.now) c) }
{
    let [before @ .., first, second] = words else {
        return Err(Sentence::NoComparison);
    };
    if let Some(op) = named_at(system, *first)
        && op < BETWEEN
    {
        return with_one(system, op, *second);
    }
    match before.last() {
        None => by_number(system, None, *first, *second),
        Some(before) => longer(system, *before, *first, *second),
    }
}

// Three words, of which the second is no operator of one constant by its word.
fn longer<R: Env + Files>(
    system: &System<R>,
    before: usize,
    first: usize,
    second: usize,
) -> Result<Comparison, Sentence>
    ensures { IfOk result (λ c. Understood 3 c) }
{
    if let Some(op) = named_at(system, before) {
        if op < BETWEEN {
            return Err(Sentence::OneConstant(before));
        }
        return with_two(system, op, first, second);
    }
    match numbered_at(system, before) {
        Some(op) if BETWEEN <= op => with_two(system, op, first, second),
        _ => by_number(system, Some(before), first, second),
    }
}

// By its number an operator might be a constant of a mistyped one: what stands before it must then be a
// file.
fn by_number<R: Env + Files>(
    system: &System<R>,
    before: Option<usize>,
    first: usize,
    second: usize,
) -> Result<Comparison, Sentence>
    ensures { IfOk result (λ c. Understood 2 c) }
{
    if let Some(op) = numbered_at(system, first)
        && op < BETWEEN
        && before.is_none_or(|at| is_there(system, at))
    {
        return with_one(system, op, second);
    }
    Err(wrong(system, before, first, second))
}

// What is wrong with the word that is most likely meant as the operator.
fn wrong<R: Env + Files>(
    system: &System<R>,
    before: Option<usize>,
    first: usize,
    second: usize,
) -> Sentence {
    if named_at(system, second).is_some() {
        return Sentence::BareOperator(second);
    }
    if named_at(system, first).is_some() {
        return Sentence::TwoConstants(first);
    }
    if let Some(before) = before
        && constant_at(system, first).is_ok()
        && !is_there(system, before)
    {
        return Sentence::WrongOperator(before);
    }
    if numbered_at(system, first).is_some() {
        return Sentence::TwoConstants(first);
    }
    Sentence::WrongOperator(first)
}
