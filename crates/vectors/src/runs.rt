// Run streams: document 01's examples, and a header of more groups than 32 bits of entries.
use crate::rows::{PLACES, all_told, reads, refuses};
use crate::topic;
use lines::streams::Streams;
use unpack::runs::unpack;
use vectors_rows::asked;

// Of the entries of all pages here.
const WIDTH: u32 = 3;

const MIXED: [u8; 6] = [0x06, 0x04, 0x03, 0x88, 0xC6, 0xFA];

pub fn shown(streams: &Streams) -> bool {
    topic(streams, b"Run streams");
    accepted(streams) & refusals(streams)
}

fn accepted(streams: &Streams) -> bool {
    let rows: [(&[u8], &[u32]); 5] = [
        (&[0x94, 0x00, 0x05], &[5, 5, 5, 5, 5, 5, 5, 5, 5, 5]),
        (&MIXED, &[4, 4, 4, 0, 1, 2, 3, 4, 5, 6, 7]),
        (&MIXED, &[4, 4, 4, 0]),
        (&[0x03, 0x88, 0xC6, 0xFA], &[0, 1, 2, 3, 4, 5, 6, 7]),
        (&[], &[]),
    ];
    all_told(&rows, |(page, entries)| {
        let line = asked(page, WIDTH, entries.len());
        reads(streams, line, entries, &mut [0; PLACES], |n, places| {
            unpack(page, WIDTH, n, places)
        })
    })
}

// Pages, how many entries are asked for, and the codes.
fn refusals(streams: &Streams) -> bool {
    let rows: [(&[u8], usize, u32); 8] = [
        (&MIXED, 2, 11),
        (&MIXED, 3, 6),
        (&MIXED, 12, 5),
        (&[0x06, 0x08], 3, 8),
        (&[0x00, 0x05], 3, 10),
        (&[0xFF, 0xFF, 0xFF, 0xFF, 0x10], 3, 9),
        (&[0x83, 0x80, 0x80, 0x80, 0x04], 8, 11),
        (&[0x00], 0, 6),
    ];
    all_told(&rows, |(page, n, code)| {
        let line = asked(page, WIDTH, *n);
        refuses(streams, line, *n, *code, &mut [0; PLACES], |n, places| {
            unpack(page, WIDTH, n, places)
        })
    })
}
