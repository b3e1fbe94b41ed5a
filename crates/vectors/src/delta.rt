// Delta pages: Parquet's two examples in blocks of 128 with 4 miniblocks, and with their own block size of
// 8, which is refused; pages that other writers may write.
use crate::rows::{PLACES, all_told, reads, refuses};
use crate::topic;
use lines::Line;
use lines::streams::Streams;
use unpack::delta::unpack;
use vectors_rows::GAVE;

pub fn shown(streams: &Streams) -> bool {
    topic(streams, b"Delta pages");
    published(streams) & own_blocks(streams) & others(streams) & refusals(streams)
}

fn published(streams: &Streams) -> bool {
    let falling = [
        0x80, 0x01, 0x04, 0x08, 0x0E, 0x03, 0x02, 0, 0, 0, 0xC0, 0x3F, 0, 0, 0, 0, 0, 0,
    ];
    let rising = [0x80, 0x01, 0x04, 0x05, 0x02, 0x02, 0, 0, 0, 0];
    all_read(
        streams,
        &[
            (&rising, &[1, 2, 3, 4, 5]),
            (&falling, &[7, 5, 3, 1, 2, 3, 4, 5]),
        ],
    )
}

fn own_blocks(streams: &Streams) -> bool {
    all_refused(
        streams,
        &[
            (&[0x08, 0x01, 0x05, 0x02, 0x02, 0x00], 5, 12),
            (&[0x08, 0x01, 0x08, 0x0E, 0x03, 0x02, 0xC0, 0x3F], 8, 12),
        ],
    )
}

// A longer spelling, a block of 256 in one miniblock, old numbers as widths that are not needed, and no
// block at all.
fn others(streams: &Streams) -> bool {
    let longer = [0x80, 0x81, 0x00, 0x04, 0x85, 0x00, 0x02, 0x02, 0, 0, 0, 0];
    let old_widths = [0x80, 0x01, 0x04, 0x02, 0x09, 0x02, 0x00, 0xFF, 0x40, 0x07];
    let lowest = [0x80, 0x01, 0x04, 0x01, 0xFF, 0xFF, 0xFF, 0xFF, 0x0F];
    all_read(
        streams,
        &[
            (&longer, &[1, 2, 3, 4, 5]),
            (&[0x80, 0x02, 0x01, 0x02, 0x09, 0x03, 0x00], &[-5, -7]),
            (&old_widths, &[-5, -4]),
            (&lowest, &[-2147483648]),
            (&[0x80, 0x01, 0x04, 0x00, 0x00], &[]),
        ],
    )
}

fn refusals(streams: &Streams) -> bool {
    let cut = [0x80, 0x01, 0x04, 0x02, 0x09, 0x02, 0x00, 0xFF, 0x40];
    let short = [0x80, 0x01, 0x04, 0x02, 0x09, 0x02, 0x20, 0, 0, 0];
    all_refused(
        streams,
        &[
            (&[0x80, 0x01, 0x04, 0x02, 0x09], 1, 13),
            (&[0x80, 0x01, 0x04, 0x02, 0x09, 0x02, 0x21], 2, 1),
            (&cut, 2, 5),
            (&short, 2, 5),
            (&[0x80, 0x01, 0x04, 0x01, 0x09, 0x00], 1, 6),
            (&[0x08, 0x01, 0x01, 0xFF, 0xFF, 0xFF, 0xFF, 0x10], 1, 9),
            (&[0x80, 0x01, 0x04, 0x00], 0, 5),
        ],
    )
}

// Pages, and their entries.
fn all_read(streams: &Streams, rows: &[(&[u8], &[i32])]) -> bool {
    all_told(rows, |(page, entries)| {
        let line = asked(streams, page, entries.len());
        reads(
            streams,
            line,
            entries,
            &mut [0; PLACES],
            |n, places| unpack(page, n, places),
        )
    })
}

// Pages, how many entries are asked for, and the codes.
fn all_refused(streams: &Streams, rows: &[(&[u8], usize, u32)]) -> bool {
    all_told(rows, |(page, n, code)| {
        let line = asked(streams, page, *n);
        refuses(streams, line, *n, *code, &mut [0; PLACES], |n, places| {
            unpack(page, n, places)
        })
    })
}

// The page on a line of its own, and below it how many entries are asked for.
fn asked(streams: &Streams, page: &[u8], n: usize) -> Line {
    Line::new()
        .words(b" ")
        .entries(page, page.len())
        .end(streams);
    Line::new()
        .column(24)
        .words(b"n ")
        .number(n as u64)
        .column(GAVE)
}
