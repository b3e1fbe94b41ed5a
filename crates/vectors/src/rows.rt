// Tables of rows: a page that is unpacked as some function does, and what is published of it.
use lines::Line;
use lines::streams::Streams;
use rules::{Answer, Refusal};
use vectors_rows::{Entry, read, refused};

// Where entries are put: more than any row has.
pub const PLACES: usize = 16;

// Tells all rows, also those behind one that is not as published: is each as published.
pub fn all_told<R, F: Fn(&R) -> bool>(rows: &[R], told: F) -> bool
    requires { F.IsAlwaysCallable told }
{
    rows.iter().fold(true, |agree, row| told(row) & agree)
}

// A page that is accepted, and its entries.
pub fn reads<T: Entry, F: FnOnce(usize, &mut [T]) -> Result<u32, Refusal>>(
    streams: &Streams,
    asked: Line,
    published: &[T],
    places: &mut [T],
    unpack: F,
) -> bool
    requires { F.IsAlwaysCallable unpack }
{
    let answer = Answer::from(unpack(published.len(), places));
    read(streams, asked, answer, places, published)
}

// A page that is refused, and the code.
pub fn refuses<T: Entry, F: FnOnce(usize, &mut [T]) -> Result<u32, Refusal>>(
    streams: &Streams,
    asked: Line,
    n: usize,
    code: u32,
    places: &mut [T],
    unpack: F,
) -> bool
    requires { F.IsAlwaysCallable unpack }
{
    let answer = Answer::from(unpack(n, places));
    refused(streams, asked, answer, code)
}
