// Bare horizontal pages: Parquet's bit packing example, the numbers 0 to 7 at width 3.
use crate::rows::{PLACES, reads};
use crate::topic;
use lines::streams::Streams;
use unpack::horizontal::unpack;
use vectors_rows::asked;

pub fn shown(streams: &Streams) -> bool {
    topic(streams, b"Horizontal pages");
    let page = [0x88, 0xC6, 0xFA];
    let entries = [0, 1, 2, 3, 4, 5, 6, 7];
    let line = asked(&page, 3, entries.len());
    reads(streams, line, &entries, &mut [0; PLACES], |n, places| {
        unpack(&page, 3, n, places)
    })
}
