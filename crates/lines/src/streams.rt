// The two streams that a program writes, and why one was last not taken.
use std::cell::Cell;
use std::io::{Error, ErrorKind, Print, Stderr, Stdout};

#[derive(Clone, Copy)]
pub enum Stream {
    Output,
    Errors,
}

#[derive(Drop)]
pub struct Streams {
    output: Stdout,
    errors: Stderr,
    failure: Cell<Option<Error>>,
}

impl Streams {
    pub fn new(output: Stdout, errors: Stderr) -> Streams {
        Streams {
            output,
            errors,
            failure: Cell::new(None),
        }
    }

    // Writes all bytes, or stops where they are not taken: were they.
    pub fn write_all(&self, to: Stream, bytes: &[u8]) -> bool {
        if self.is_closed() {
            return false;
        }
        let written = match to {
            Stream::Output => self.output.write_all(bytes),
            Stream::Errors => self.errors.write_all(bytes),
        };
        if let Err(error) = written {
            self.fails(error);
        }
        written.is_ok()
    }

    // Keeps why bytes were not taken.
    pub fn fails(&self, error: Error) {
        self.failure.set(Some(error));
    }

    // Has the reader of what is written gone: nothing more is written then.
    pub fn is_closed(&self) -> bool {
        self.failure
            .get()
            .is_some_and(|error| error.kind() == ErrorKind::BrokenPipe)
    }

    // Why bytes were last not taken.
    pub fn failure(&self) -> Option<Error> {
        self.failure.get()
    }
}
