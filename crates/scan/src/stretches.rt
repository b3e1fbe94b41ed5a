// The stretches of selected seconds, a line each, on standard output; a line that cannot be written is said.
ghost use Rattle.std.specs.Prelude.{◌<◌};

use crate::telling::Span;
use scan_says::system::System;
use scan_says::{Sentence, tell};
use scan_stretches::pages;
use scan_stretches::pages::Listing;
use std::env::Env;

// Those that end on an answered page, whose n seconds begin with second `start`.
pub fn page_listed<R: Env>(
    system: &System<R>,
    listing: Listing,
    day: u32,
    start: usize,
    n: usize,
    bitmap: &[u8],
) -> Listing
    requires { start < 1099511627776 }
{
    let after = pages::page_passed(&system.streams, listing, day, start, n, bitmap);
    told(system, listing.is_written, after)
}

// The one that may go on ends where a page was not answered, for the seconds from `start` to before `end`.
pub fn page_lost<R: Env>(
    system: &System<R>,
    listing: Listing,
    day: u32,
    start: usize,
    end: usize,
) -> Listing {
    let after = pages::page_lost(&system.streams, listing, day, start, end);
    told(system, listing.is_written, after)
}

// And where the column or its named pages end.
pub fn ended<R: Env>(system: &System<R>, listing: Listing, span: Span) -> Listing {
    let lost = page_lost(system, listing, span.day, span.shown, span.end);
    let is_written = pages::ended(&system.streams, lost, span.day, false);
    told(system, lost.is_written, Listing { is_written, ..lost })
}

// Says that a line was not taken, the first time.
fn told<R: Env>(system: &System<R>, was_written: bool, after: Listing) -> Listing {
    if was_written && !after.is_written {
        tell(system, Sentence::Unwritten);
    }
    after
}
