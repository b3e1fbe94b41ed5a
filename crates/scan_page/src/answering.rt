// A page's file, answered.
ghost use Rattle.scan_page.specs.Answered.{Answered};

use crate::layouts;
use crate::layouts::Question;
use scan_question::files;
use scan_says::system::System;
use scan_says::{Sentence, tell};
use std::env::Env;
use std::fs::Files;

// No accepted page has as many bytes.
const BYTES: usize = 163840;

// The page's bitmap; false where the page is refused or cannot be read, which is said.
pub fn answered<R: Env + Files>(
    system: &System<R>,
    q: Question,
    dictionary: &[u8],
    at: usize,
    n: usize,
    bitmap: &mut [u8],
) -> bool
    ensures { Answered q dictionary.now n bitmap.old result bitmap.new }
{
    let mut page = [0u8; BYTES];
    let Some(size) = files::read(system, at, &mut page) else {
        return false;
    };
    if q.layout.in_words() && size % 8 != 0 {
        return tell(system, Sentence::NoWords(at));
    }
    match layouts::scan(q, dictionary, &page[..size], n, bitmap) {
        Ok(_) => true,
        Err(refusal) => tell(system, Sentence::Refused(at, refusal)),
    }
}
