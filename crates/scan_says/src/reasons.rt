// Why something that was tried failed, as the system says it.
use lines::streams::{Stream, Streams};
use scan_words::finding::find;
use std::fmt;
use std::fmt::Write;
use std::io::Error;

// More than any of the system's texts has.
const MOST: usize = 96;

#[derive(Drop)]
struct Reason {
    text: [u8; MOST],
    used: usize,
}

impl fmt::Write for Reason {
    // What is past the places is left out.
    fn write_str(&mut self, words: &str) -> fmt::Result {
        for b in words.as_bytes() {
            if self.used < MOST {
                self.text[self.used] = *b;
                self.used += 1;
            }
        }
        Ok(())
    }
}

// Writes a line on standard error: what failed, a colon, and why.
pub fn fail(streams: &Streams, what: &[u8], error: Option<Error>) {
    streams.write_all(Stream::Errors, what);
    streams.write_all(Stream::Errors, b": ");
    if let Some(error) = error {
        say(streams, error);
    }
    streams.write_all(Stream::Errors, b"\n");
}

// The text of an error, without the number that stands behind it in brackets.
fn say(streams: &Streams, error: Error) {
    let mut reason = Reason {
        text: [0; MOST],
        used: 0,
    };
    let _is_whole = write!(reason, "{error}");
    let used = reason.used.min(MOST);
    let end = find(&reason.text, 0, used, b'(');
    let last = if end < used {
        end.saturating_sub(1)
    } else {
        used
    };
    streams.write_all(Stream::Errors, &reason.text[..last]);
}
