// Dictionary columns: document 01's example, with the value 310 and without it, and what other writers may
// write.
use crate::rows::{PLACES, all_told, reads, refuses};
use crate::topic;
use lines::Line;
use lines::streams::Streams;
use unpack::dictionary::unpack;
use vectors_rows::GAVE;

// -120, 0, 85, 310.
const VALUES: [u8; 16] = [
    0x88, 0xFF, 0xFF, 0xFF, 0, 0, 0, 0, 0x55, 0, 0, 0, 0x36, 0x01, 0, 0,
];

pub fn shown(streams: &Streams) -> bool {
    topic(streams, b"Dictionary columns");
    accepted(streams) & refusals(streams)
}

// Dictionaries and pages, and their entries.
fn accepted(streams: &Streams) -> bool {
    let rows: [(&[u8], &[u8], &[i32]); 5] = [
        (&VALUES, &[0x02, 0x06, 0x03], &[310, 310, 310]),
        (
            &VALUES,
            &[0x02, 0x03, 0x1B, 0x1B],
            &[310, 85, 0, -120, 310, 85, 0, -120],
        ),
        (&VALUES[..8], &[0x02, 0x03, 0x14, 0xFF], &[-120, 0, 0, -120]),
        (&VALUES[8..12], &[0x00, 0x08], &[85, 85, 85, 85]),
        (&[], &[0x00], &[]),
    ];
    all_told(&rows, |(dict, page, entries)| {
        let line = asked(streams, dict, page, entries.len());
        reads(streams, line, entries, &mut [0; PLACES], |n, places| {
            unpack(dict, page, n, places)
        })
    })
}

// Dictionaries and pages, how many entries are asked for, and the codes.
fn refusals(streams: &Streams) -> bool {
    let rows: [(&[u8], &[u8], usize, u32); 9] = [
        (&VALUES[..12], &[0x02, 0x06, 0x03], 3, 15),
        (&VALUES[..15], &[0x02, 0x06, 0x03], 3, 14),
        (&[0, 0, 0, 0, 0xFF, 0xFF, 0xFF, 0xFF], &[0x00, 0x06], 3, 14),
        (&VALUES[..12], &[0x02, 0x06, 0x04], 3, 8),
        (&VALUES[..12], &[0x02, 0x06, 0x03, 0x00], 3, 6),
        (&VALUES, &[0x21, 0x06, 0x03], 3, 1),
        (&VALUES, &[], 3, 5),
        (&[], &[0x00, 0x06], 3, 15),
        (&[], &[], 0, 5),
    ];
    all_told(&rows, |(dict, page, n, code)| {
        let line = asked(streams, dict, page, *n);
        refuses(streams, line, *n, *code, &mut [0; PLACES], |n, places| {
            unpack(dict, page, n, places)
        })
    })
}

// The dictionary on a line of its own, and below it the page and how many entries are asked for.
fn asked(streams: &Streams, dict: &[u8], page: &[u8], n: usize) -> Line {
    Line::new()
        .words(b"  dict")
        .entries(dict, dict.len())
        .end(streams);
    let line = Line::new().words(b"  page").entries(page, page.len());
    line.column(24).words(b"n ").number(n as u64).column(GAVE)
}
