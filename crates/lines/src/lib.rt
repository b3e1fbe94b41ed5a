// A line of text: laid out first, then written. What is past its 120 places is left out.
#![tactic(auto)]

pub mod spelled;
pub mod streams;

ghost use Rattle.std.specs.Prelude.{◌≡◌, [], ◌∷◌, ◌<◌, ◌-◌, min, take};
ghost use Rattle.lines.specs.Text.{held, laid, decimal, spelled, padding};

use crate::spelled::Spelled;
use crate::streams::{Stream, Streams};

#[derive(Drop)]
pub struct Line {
    text: [u8; 120],
    used: usize,
    // was a line before this one not taken where it was written
    pub lost: bool,
}

impl Line {
    pub fn new() -> Line
        ensures { held result ≡ [] }
    {
        Line::behind(false)
    }

    // An empty line behind others.
    fn behind(lost: bool) -> Line
        ensures { held result ≡ [] }
    {
        Line {
            text: [b' '; 120],
            used: 0,
            lost,
        }
    }

    fn place(mut self, b: u8) -> Line
        ensures { held result ≡ laid (held self) (b ∷ []) }
    {
        if self.used < 120 {
            self.text[self.used] = b;
            self.used += 1;
        }
        self
    }

    pub fn words(self, words: &[u8]) -> Line
        ensures { held result ≡ laid (held self) words.now }
    {
        let mut line = self;
        for b in words {
            line = line.place(*b);
        }
        line
    }

    pub fn number(self, n: u64) -> Line
        ensures { held result ≡ laid (held self) (decimal n) }
    {
        let mut digits = [0u8; 20];
        let k = io::decimal(n, &mut digits);
        self.words(&digits[..k])
    }

    // The first n of a list, a blank before each.
    pub fn entries<T: Spelled>(self, list: &[T], n: usize) -> Line
        ensures { held result ≡ laid (held self) (spelled T.spelling (take n list.now)) }
    {
        let mut line = self;
        for x in list.iter().take(n) {
            line = x.spell(line.place(b' '));
        }
        line
    }

    // What follows stands from place `at` on.
    pub fn column(self, at: usize) -> Line
        ensures { held result ≡ laid (held self) (padding at (held self)) }
    {
        let k = gap(self.used, at);
        self.words(&[b' '; 120][..k])
    }

    // Writes what is laid out so far, and gives back an empty line in which it goes on.
    pub fn part(self, streams: &Streams, to: Stream) -> Line
        ensures { held result ≡ [] }
    {
        let is_taken = streams.write_all(to, self.front());
        Line::behind(self.lost || !is_taken)
    }

    // Writes the line, and gives back the next one, empty.
    pub fn write(self, streams: &Streams, to: Stream) -> Line
        ensures { held result ≡ [] }
    {
        let is_taken = streams.write_all(to, self.front()) && streams.write_all(to, b"\n");
        Line::behind(self.lost || !is_taken)
    }

    // The same, on standard output.
    pub fn end(self, streams: &Streams) -> Line
        ensures { held result ≡ [] }
    {
        self.write(streams, Stream::Output)
    }

    // What is laid out so far.
    fn front(&self) -> &[u8] {
        &self.text[..self.used.min(120)]
    }
}

// How many blanks bring a line to place `at`, or to its end.
fn gap(used: usize, at: usize) -> usize
    ensures { result ≡ min at 120 - used }
{
    at.min(120).saturating_sub(used)
}
