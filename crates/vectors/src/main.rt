// Published vectors, run through the proved functions and compared: document 01's examples that are not in
// the proved table, and Parquet's own.
#![tactic(auto)]

mod delta;
mod dictionary;
mod horizontal;
mod rows;
mod runs;

use lines::Line;
use lines::streams::Streams;

// Says what comes next, a blank line before it.
fn topic(streams: &Streams, words: &[u8]) {
    Line::new().end(streams).words(words).end(streams);
}

fn main(rt: HostRuntime) {
    let streams = Streams::new(rt.stdout(), rt.stderr());
    Line::new()
        .words(b"Published vectors: what was asked, what the proved function gave")
        .end(&streams);
    if horizontal::shown(&streams)
        & runs::shown(&streams)
        & delta::shown(&streams)
        & dictionary::shown(&streams)
    {
        topic(&streams, b"Every answer is as published.");
    } else {
        topic(&streams, b"NOT every answer is as published.");
    }
}
