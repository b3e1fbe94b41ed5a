// What a page is asked, and the scan of one page of each layout.
ghost use Rattle.std.specs.Prelude.{◌≡◌, ◌/◌, min, length};
ghost use Rattle.rules.specs.Answer.Outcome.{outcome};
ghost use Rattle.rules.specs.Bits.{put, tabulate};
ghost use Rattle.rules.specs.Refusals.{answer_of};
ghost use Rattle.rules.specs.Vertical as Vertical;
ghost use Rattle.scan_page.specs.Layouts.{in_words, word_at, words_of, scan_of};

use rules::Refusal;
use words::loads::load_any;

// How a page is laid out, and the width of its entries where the layout needs one.
#[derive(Clone, Copy, PartialEq, Eq)]
pub enum PageLayout {
    Horizontal(u32),
    Planes(u32),
    Runs(u32),
    Delta,
    Dictionary,
}

impl PageLayout {
    // Are its pages words of 8 bytes.
    pub fn in_words(self) -> bool
        ensures { result ≡ in_words self }
    {
        matches!(self, PageLayout::Planes(_))
    }
}

// What every page of a column is asked: how it is laid out, and the comparison.
#[derive(Clone, Copy)]
pub struct Question {
    pub layout: PageLayout,
    pub op: u32,
    pub a: i64,
    pub b: i64,
}

// One page of n entries scanned; the dictionary is empty in all layouts but its own.
pub fn scan(
    q: Question,
    dictionary: &[u8],
    page: &[u8],
    n: usize,
    bitmap: &mut [u8],
) -> Result<u32, Refusal>
    ensures { outcome (answer_of result) bitmap.new
        ≡ scan_of q dictionary.now page.now n bitmap.old }
{
    match q.layout {
        PageLayout::Horizontal(width) => {
            horizontal_scan::scanning::scan(page, width, n, q.op, q.a, q.b, bitmap)
        }
        PageLayout::Planes(width) => scan_planes(q, width, page, n, bitmap),
        PageLayout::Runs(width) => {
            runs_scan::scanning::scan(page, width, n, q.op, q.a, q.b, bitmap)
        }
        PageLayout::Delta => delta_scan::scanning::scan(page, n, q.op, q.a, q.b, bitmap),
        PageLayout::Dictionary => {
            dictionary_scan::scanning::scan(dictionary, page, n, q.op, q.a, q.b, bitmap)
        }
    }
}

// As many words as a page's room has.
const WORDS: usize = 20480;

fn scan_planes(
    q: Question,
    width: u32,
    page: &[u8],
    n: usize,
    bitmap: &mut [u8],
) -> Result<u32, Refusal>
    ensures { outcome (answer_of result) bitmap.new
        ≡ Vertical.scan (words_of page.now) width n q.op q.a q.b
        bitmap.old }
{
    let mut words = [0u64; WORDS];
    let k = words_of(page, &mut words);
    vertical_scan::scanning::scan(&words[0..k], width, n, q.op, q.a, q.b, bitmap)
}

// The page's words, low byte first, and how many there are.
fn words_of(page: &[u8], words: &mut [u64]) -> usize
    ensures value { result ≡ min (length page.now / 8) (length words.old) }
    ensures words_after { words.new
        ≡ put words.old 0 (tabulate result (word_at page.now)) }
{
    let all = (page.len() / 8).min(words.len());
    for k in 0..all {
        words[k] = load_any(page, 8 * k);
    }
    all
}
