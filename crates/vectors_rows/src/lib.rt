// Rows of a table of vectors: what was asked, what came of it, and a word at the end where that is not as
// published.
#![tactic(auto)]

ghost use Rattle.std.specs.Prelude.{◌≡◌, ◌&&◌, eqb};
ghost use Rattle.std.specs.Bool.{Decides};
ghost use Rattle.std.proofs.lemmas.Bool.Decides.{Decides-eqb, Decides-int_eq};
ghost use Rattle.lines.specs.Text.{held};
ghost use Rattle.vectors_rows.specs.Asked.{asked_for};
ghost use Rattle.vectors_rows.specs.Read.{Begins, Read};

use lines::Line;
use lines::spelled::Spelled;
use lines::streams::Streams;
use rules::Answer;

// Where a row's answer stands, and the word behind it.
pub const GAVE: usize = 42;

const WORD: usize = 70;

// A page, the width of its entries, and how many are asked for.
pub fn asked(page: &[u8], width: u32, n: usize) -> Line
    ensures { held result ≡ asked_for page.now width n }
{
    let line = Line::new().words(b" ").entries(page, page.len()).column(24);
    let line = line.words(b"width ").number(width as u64);
    line.words(b", n ").number(n as u64).column(GAVE)
}

// Says whether the answer is as published, and gives it back.
pub fn told(streams: &Streams, line: Line, agrees: bool) -> bool
    ensures { result ≡ agrees }
{
    let ended = if agrees {
        line
    } else {
        line.column(WORD).words(b"DIFFERS")
    };
    ended.end(streams);
    agrees
}

// A refusal: its code, the number 0.
pub fn refused(streams: &Streams, line: Line, answer: Answer, code: u32) -> bool
    ensures { result ≡ (eqb answer.code code && eqb answer.number 0) }
{
    let agrees = answer.code == code && answer.number == 0;
    told(
        streams,
        line.words(b"refused with ").number(answer.code as u64),
        agrees,
    )
}

// Is the answer an acceptance of n entries.
pub fn accepted(answer: Answer, n: usize) -> bool
    ensures { result ≡ (eqb answer.code 0 && eqb answer.number n) }
{
    answer.code == 0 && answer.number as usize == n
}

// What entries of a row are: spelled one behind another, and equal only where they are the same.
pub trait Entry: Spelled + PartialEq {
    ghost exact: { (x y : Self) → Decides (Self.eq x y) (x ≡ y) };
}

impl Entry for u32 {
    ghost exact = { Decides-eqb };
}

impl Entry for i32 {
    ghost exact = { Decides-int_eq };
}

// The entries that were read.
pub fn read<T: Entry>(
    streams: &Streams,
    line: Line,
    answer: Answer,
    places: &[T],
    published: &[T],
) -> bool
    ensures { Decides result (Read answer places.now published.now) }
{
    let shown = line.words(b"reads").entries(places, answer.number as usize);
    let is_counted = accepted(answer, published.len());
    let is_begun = begins(places, published);
    told(streams, shown, is_counted && is_begun)
}

// Does a list of entries begin with another.
fn begins<T: Entry>(list: &[T], front: &[T]) -> bool
    ensures { Decides result (Begins list.now front.now) }
{
    if list.len() < front.len() {
        return false;
    }
    for (i, entry) in front.iter().enumerate() {
        if list[i] != *entry {
            return false;
        }
    }
    true
}
