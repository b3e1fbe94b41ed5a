// The stretches of a column's pages, page by page: each is written on standard output when it has ended.
ghost use Rattle.std.specs.Prelude.{◌≡◌, true, false, cond, ◌+◌, ◌<◌, ltb};
ghost use Rattle.scan_stretches.specs.Going.{fresh, stretching, losing};
ghost use Rattle.scan_stretches.specs.Pages.{stretched, spans_of};

use crate::going::{Going, Stretch};
use crate::told;
use lines::streams::{Stream, Streams};
use spans_list::from_bitmap::from_bitmap;

#[derive(Clone, Copy)]
pub struct Listing {
    pub going: Going,
    // has the column several days
    pub has_days: bool,
    // was every line taken; behind one that was not, no other is written
    pub is_written: bool,
}

// Numbers of a page's stretches, two for each: at most one for an entry.
const PLACES: usize = 16384;

// At the beginning of a column, of one day or several, in which gaps of up to so many seconds are closed.
pub fn begun(gap: u32, has_days: bool) -> Listing
    ensures { result.going ≡ fresh gap }
{
    Listing {
        going: Going::new(gap as usize),
        has_days,
        is_written: true,
    }
}

fn is_line_written(
    streams: &Streams,
    has_days: bool,
    day: u32,
    stretch: Stretch,
    may_end_later: bool,
) -> bool {
    let line = told::stretch(has_days, day, stretch, may_end_later);
    !line.part(streams, Stream::Output).lost
}

// The stretch that may go on has ended, if there is one: is every line written with it.
pub fn ended(streams: &Streams, listing: Listing, day: u32, may_end_later: bool) -> bool
    ensures { listing.is_written ≡ false → result ≡ false }
{
    match listing.going.current {
        Some(stretch) if listing.is_written => {
            is_line_written(streams, listing.has_days, day, stretch, may_end_later)
        }
        _ => listing.is_written,
    }
}

// The next stretch, from entry `first` to entry `last`, which are counted from second `start` on.
fn pair_passed(
    streams: &Streams,
    listing: Listing,
    day: u32,
    start: usize,
    first: u32,
    last: u32,
) -> Listing
    requires { start < 1099511627776 }
    ensures { result.going ≡ stretching (start + first) (start + last + 1) listing.going }
{
    let second = start + first as usize;
    let next = listing.going.stretch(second, start + last as usize + 1);
    let is_written = if listing.going.reaches(second) {
        listing.is_written
    } else {
        ended(streams, listing, day, false)
    };
    Listing {
        going: next,
        is_written,
        ..listing
    }
}

// The stretches of a list of such pairs.
fn list_passed(streams: &Streams, before: Listing, day: u32, start: usize, list: &[u32]) -> Listing
    requires { start < 1099511627776 }
    ensures { result.going ≡ stretched start list.now before.going }
{
    let mut listing = before;
    for pair in list.chunks_exact(2) {
        listing = pair_passed(streams, listing, day, start, pair[0], pair[1]);
    }
    listing
}

// The n seconds of an answered page, from second `start` on.
pub fn page_passed(
    streams: &Streams,
    before: Listing,
    day: u32,
    start: usize,
    n: usize,
    bitmap: &[u8],
) -> Listing
    requires { start < 1099511627776 }
    ensures { result.going
        ≡ stretched start (spans_of bitmap.now n) before.going }
{
    let mut places = [0u32; PLACES];
    let count = from_bitmap(bitmap, n, &mut places).unwrap_or(0);
    let numbers = 2 * (count as usize).min(PLACES / 2);
    list_passed(streams, before, day, start, &places[..numbers])
}

// Seconds from one to before another that were not answered.
pub fn page_lost(streams: &Streams, before: Listing, day: u32, start: usize, end: usize) -> Listing
    ensures { result.going ≡ cond (ltb start end) (losing end before.going) before.going }
{
    if end <= start {
        return before;
    }
    Listing {
        going: before.going.loses(end),
        is_written: ended(streams, before, day, before.going.reaches(start)),
        ..before
    }
}
