// What the program says besides its answer, in sentences that say what to do: all but its help and its
// version on standard error.
#![tactic(auto)]

pub mod reasons;
pub mod system;

ghost use Rattle.std.specs.Prelude.{◌≡◌, false, ◌≤◌};

use lines::Line;
use lines::streams::{Stream, Streams};
use reasons::fail;
use rules::Refusal;
use scan_day::clocks::clock;
use scan_day::seconds;
use scan_words::names::Setting;
use std::env::Env;
use std::io::Error;
use system::System;

// Where nothing else is said, a number is a word's place on the command line.
#[derive(Drop)]
pub enum Sentence {
    // how the program is used: where nothing is asked, and where the words are not as they should be
    Usage,
    ManyWords,
    LongWord(usize),
    NoLayout,
    WrongLayout(usize),
    UnknownOption(usize),
    Twice(usize),
    // the place of what is not taken, if there is anything, and the option
    Takes(Option<usize>, Setting),
    TwoCounts,
    TwoLists,
    LoneJoin,
    NoWidth,
    OwnWidths,
    // of the comparison
    NoComparison,
    WrongOperator(usize),
    BareOperator(usize),
    OneConstant(usize),
    TwoConstants(usize),
    NoConstant(usize),
    // of pages and dictionaries: how many dictionaries stand before the pages
    NoPages(usize),
    TooLong(usize),
    NoWords(usize),
    // a word's place, and why
    Refused(usize, Refusal),
    NoDictionary,
    // a page that is the bitmap's file too
    OverPage(usize),
    // the entries, and more pages than they need
    ManyPages(usize, usize),
    // how many pages are not in the answer
    Lost(usize),
    // the day of the column's first second, and the second from which on no page is named
    Missing(u32, usize),
    // standard output is not taken
    Unwritten,
}

// The first word that was typed stands here: behind the word by which whoever runs the program asks for its
// status, which is on descriptor 3, since the program itself ends with 0.
pub fn first_word<R: Env>(system: &System<R>) -> usize
    ensures { (1 ≤ result) × (result ≤ 2) }
{
    let mut word = io::buffer();
    let n = system.arg(1, &mut word);
    if &word[..n] == b"--status-fd=3".as_slice() {
        2
    } else {
        1
    }
}

// A refusal or an error was said.
fn noted<R: Env>(system: &System<R>) {
    if first_word(system) == 2 && !system.streams.is_closed() {
        io::write_all(3, b"1");
    }
}

// Says it; the answer is no, for whoever has to give up.
pub fn tell<R: Env>(system: &System<R>, sentence: Sentence) -> bool
    ensures { result ≡ false }
{
    let streams = &system.streams;
    match sentence {
        Sentence::Unwritten => fail(
            streams,
            b"scan: standard output cannot be written",
            streams.failure(),
        ),
        Sentence::Usage => {
            usage(streams, Stream::Errors);
        }
        Sentence::ManyWords => say(
            streams,
            b"scan: at most 1023 words are taken after the program's name.",
        ),
        Sentence::LongWord(at) => long_word(system, at),
        Sentence::NoLayout => {
            say(streams, b"scan: no layout: the first word is one of these.");
            layouts(streams, Stream::Errors);
        }
        Sentence::WrongLayout(at) => {
            about(
                system,
                at,
                b" is no layout: the first word is one of these.",
            );
            layouts(streams, Stream::Errors);
        }
        _ => tell_of_options(system, sentence),
    }
    noted(system);
    false
}

// What the system says of a name or of what was tried; the answer is no.
pub fn failed<R: Env>(system: &System<R>, what: &[u8], error: Error) -> bool
    ensures { result ≡ false }
{
    fail(&system.streams, what, Some(error));
    noted(system);
    false
}

// How the program is used, on standard output; the answer is no.
pub fn help<R: Env>(system: &System<R>) -> bool
    ensures { result ≡ false }
{
    if usage(&system.streams, Stream::Output) {
        return false;
    }
    tell(system, Sentence::Unwritten)
}

// The program's version, on standard output; the answer is no.
pub fn version<R: Env>(system: &System<R>) -> bool
    ensures { result ≡ false }
{
    if system.streams.write_all(Stream::Output, b"scan 0.4.0\n") {
        return false;
    }
    tell(system, Sentence::Unwritten)
}

fn tell_of_options<R: Env>(system: &System<R>, sentence: Sentence) {
    let streams = &system.streams;
    match sentence {
        Sentence::UnknownOption(at) => {
            about(system, at, b" is no option: these are.");
            options(streams, Stream::Errors);
        }
        Sentence::Twice(at) => about(
            system,
            at,
            b": this option was given before: leave one of them out.",
        ),
        Sentence::Takes(at, setting) => takes(system, at, setting),
        Sentence::TwoCounts => say(
            streams,
            b"scan: --entries and --last both say how many entries there are: leave one of them out.",
        ),
        Sentence::TwoLists => say(
            streams,
            b"scan: --numbers and --spans both write standard output: leave one of them out.",
        ),
        Sentence::LoneJoin => say(
            streams,
            b"scan: --join closes gaps between the stretches that --spans prints: add --spans.",
        ),
        Sentence::NoWidth => say(
            streams,
            b"scan: this layout needs the width of its entries: add --width and 0 to 32.",
        ),
        Sentence::OwnWidths => say(
            streams,
            b"scan: --width is for horizontal, planes and runs: pages of this layout say their widths themselves.",
        ),
        _ => tell_of_comparison(system, sentence),
    }
}

fn tell_of_comparison<R: Env>(system: &System<R>, sentence: Sentence) {
    let streams = &system.streams;
    match sentence {
        Sentence::NoComparison => {
            say(
                streams,
                b"scan: name the page files and then the comparison, as in: between 110 420",
            );
            operators(streams, Stream::Errors);
        }
        Sentence::WrongOperator(at) => about_operator(
            system,
            at,
            b" is no operator: the words end with one and its constants, as in: between 110 420",
        ),
        Sentence::BareOperator(at) => about_operator(system, at, b" needs its constant behind it."),
        Sentence::OneConstant(at) => about_operator(
            system,
            at,
            b" takes one constant: leave out the other.",
        ),
        Sentence::TwoConstants(at) => about_operator(
            system,
            at,
            b" takes two constants: add the other.",
        ),
        Sentence::NoConstant(at) => about(
            system,
            at,
            b" is no constant: that is a whole number from -9223372036854775808 to 9223372036854775807.",
        ),
        _ => tell_of_pages(system, sentence),
    }
}

// The one that is left is NoDictionary.
fn tell_of_pages<R: Env>(system: &System<R>, sentence: Sentence) {
    let streams = &system.streams;
    match sentence {
        Sentence::NoPages(dictionaries) => no_pages(streams, dictionaries),
        Sentence::TooLong(at) => about(
            system,
            at,
            b": longer than any page or dictionary, and not read.",
        ),
        Sentence::NoWords(at) => about(
            system,
            at,
            b": not read: bit planes are words of 8 bytes, and its length is no multiple of 8.",
        ),
        Sentence::Refused(at, refusal) => refused(system, at, refusal),
        Sentence::OverPage(at) => about(
            system,
            at,
            b": a file to be read is not written over: name another one for --bitmap.",
        ),
        Sentence::ManyPages(entries, pages) => many_pages(streams, entries, pages),
        Sentence::Lost(pages) => lost(streams, pages),
        Sentence::Missing(day, second) => missing(streams, day, second),
        _ => say(streams, b"Without its dictionary no page is answered."),
    }
}

fn say(streams: &Streams, words: &[u8]) {
    streams.write_all(Stream::Errors, words);
    streams.write_all(Stream::Errors, b"\n");
}

// A word as it was typed.
fn typed<R: Env>(system: &System<R>, at: usize) {
    let streams = &system.streams;
    let mut word = io::buffer();
    let n = system.arg(at, &mut word);
    streams.write_all(Stream::Errors, &word[..n]);
}

// A word, and what is said of it.
fn about<R: Env>(system: &System<R>, at: usize, words: &[u8]) {
    let streams = &system.streams;
    typed(system, at);
    say(streams, words);
}

fn about_operator<R: Env>(system: &System<R>, at: usize, words: &[u8]) {
    let streams = &system.streams;
    about(system, at, words);
    operators(streams, Stream::Errors);
}

// Which of the words that were typed stands at a place, the first being 1.
fn typed_as<R: Env>(system: &System<R>, at: usize) -> usize {
    let first = first_word(system);
    if at < first {
        return 0;
    }
    at - first + 1
}

// Which word it is, by its beginning and its place.
fn long_word<R: Env>(system: &System<R>, at: usize) {
    let streams = &system.streams;
    let mut word = io::buffer();
    system.arg(at, &mut word);
    streams.write_all(Stream::Errors, &word[0..40]);
    Line::new()
        .words(b"..: word ")
        .number(typed_as(system, at) as u64)
        .words(b" is too long: a word has at most 4096 bytes.")
        .write(streams, Stream::Errors);
}

// What an option takes, and before it what it was given.
fn takes<R: Env>(system: &System<R>, at: Option<usize>, setting: Setting) {
    let streams = &system.streams;
    match at {
        None => {
            streams.write_all(Stream::Errors, b"scan");
        }
        Some(at) => typed(system, at),
    }
    say(streams, taken(setting));
}

fn taken(setting: Setting) -> &'static [u8] {
    match setting {
        Setting::Width => b": --width takes a whole number from 0 to 32.",
        Setting::Entries => {
            b": --entries takes a whole number from 0 to 16777216, which is 1024 full pages."
        }
        Setting::Last => {
            b": --last takes a whole number from 0 to 16384, the entries of a full page."
        }
        Setting::Bitmap => b": --bitmap takes the name of a file.",
        Setting::Numbers => b": --numbers takes nothing behind it.",
        Setting::Start => b": --start takes a time from 00:00:00 to 23:59:59.",
        Setting::Day => b": --day takes a whole number from 1 to 99999.",
        Setting::Spans => b": --spans takes nothing behind it.",
        Setting::Join => { b": --join takes a whole number from 1 to 86400, the seconds of a day." }
    }
}

fn no_pages(streams: &Streams, dictionaries: usize) {
    if dictionaries == 0 {
        say(
            streams,
            b"scan: no page files: name them in order before the comparison.",
        );
    } else {
        say(
            streams,
            b"scan: no page files: name the dictionary, then the pages in order, then the comparison.",
        );
    }
}

fn refused<R: Env>(system: &System<R>, at: usize, refusal: Refusal) {
    let streams = &system.streams;
    typed(system, at);
    streams.write_all(Stream::Errors, b": refused with code ");
    let mut digits = [0u8; 20];
    let n = io::decimal(refusal.code() as u64, &mut digits);
    streams.write_all(Stream::Errors, &digits[..n]);
    streams.write_all(Stream::Errors, b": ");
    say(streams, meaning(refusal));
}

fn many_pages(streams: &Streams, entries: usize, pages: usize) {
    Line::new()
        .words(b"scan: ")
        .number(entries as u64)
        .words(b" entries are on ")
        .number(seconds::needed(entries) as u64)
        .words(b" pages at most, and ")
        .number(pages as u64)
        .words(b" files are named.")
        .write(streams, Stream::Errors);
    say(
        streams,
        b"Give the column's entries with --entries, or the last page's with --last.",
    );
}

fn lost(streams: &Streams, pages: usize) {
    if pages == 1 {
        say(
            streams,
            b"1 page was refused or not read: its seconds are not in the answer.",
        );
    } else {
        Line::new()
            .number(pages as u64)
            .words(b" pages were refused or not read: their seconds are not in the answer.")
            .write(streams, Stream::Errors);
    }
}

fn missing(streams: &Streams, day: u32, second: usize) {
    let line = Line::new().words(b"No page is named for the seconds from ");
    clock(line, day, second)
        .words(b" on: they are not in the answer.")
        .write(streams, Stream::Errors);
}

// What a refusal means: of the arguments, of a page or its runs, of a layout's own; a scan gives no other.
fn meaning(refusal: Refusal) -> &'static [u8] {
    match refusal {
        Refusal::WidthAboveLimit => b"width above 32",
        Refusal::TooManyEntries => b"more than 16,384 entries",
        Refusal::OperatorAbove7 => b"operator above 7",
        Refusal::OutputTooShort => b"output too short",
        Refusal::InputEndsTooEarly => b"the page ends too early",
        Refusal::InputLeftOver => b"bytes of the page are left over",
        Refusal::UnusedBitsNot0 => b"unused bits not 0",
        Refusal::ValueTooLarge => b"run value not below 2^width",
        Refusal::NumberBeyondItsBits => b"variable-length number beyond 32 bits",
        Refusal::RunOfLength0 => b"run of length 0",
        Refusal::RunPastN => b"run goes too far past the page's entries",
        Refusal::DeltaShape => b"delta shape: block size or miniblock count not as allowed",
        Refusal::DeltaCountNotN => b"delta count is not the entries asked of this page",
        Refusal::MalformedDictionary => {
            b"dictionary: length no multiple of 4, over 65,536 bytes, or values not strictly ascending"
        }
        Refusal::IndexTooLarge => b"index not below the dictionary's count",
        Refusal::SpansMisplaced => b"a code without a meaning here",
    }
}

// How the program is used, and parts of it; each answers whether it was written.
fn usage(streams: &Streams, to: Stream) -> bool {
    let is_begun = streams.write_all(
        to,
        b"usage: scan LAYOUT [OPTION...] PAGE... OPERATOR CONSTANT [CONSTANT]\n\
        Says which seconds of a column satisfy a comparison, and draws each day. As in\n\
        \x20 scan delta level-*.delta between 110 420\n\
        \x20 scan dictionary landing.dict landing-*.idx equal 4\n\
        \x20 scan runs --width 3 calls-*.runs at-least 1\n",
    );
    is_begun
        && layouts(streams, to)
        && operators(streams, to)
        && options(streams, to)
        && status(streams, to)
}

fn layouts(streams: &Streams, to: Stream) -> bool {
    streams.write_all(
        to,
        b"Layouts: horizontal, planes, runs (these need --width), delta, dictionary (its\n\
        \x20 first file is the dictionary).\n",
    )
}

fn operators(streams: &Streams, to: Stream) -> bool {
    streams.write_all(
        to,
        b"Operators: equal, not-equal, less, at-most, greater, at-least with one constant,\n\
        \x20 between, not-between with two; or their numbers, 0 to 7.\n",
    )
}

fn options(streams: &Streams, to: Stream) -> bool {
    streams.write_all(
        to,
        b"Options, anywhere before -- if it is there, and as --width N or --width=N:\n\
        \x20 --width N         bits of an entry, 0 to 32\n\
        \x20 --entries N       entries of the whole column, 86400 if not given; a page has 16384\n\
        \x20 --last N          entries of the last page instead; all others have 16384\n\
        \x20 --start HH:MM:SS  the time of the first second, 00:00:00 if not given\n\
        \x20 --day N           its day, 1 if not given\n\
        \x20 --bitmap FILE     writes the bitmap of all pages there\n\
        \x20 --numbers         the numbers of the selected seconds instead of the picture\n\
        \x20 --spans           the stretches of selected seconds instead: first, last and length\n\
        \x20 --join N          closes gaps of up to N seconds between them; the lengths hold the gaps\n\
        \x20 --help, -h        this text\n\
        \x20 --version         the program's version\n",
    )
}

fn status(streams: &Streams, to: Stream) -> bool {
    streams.write_all(
        to,
        b"The program itself always ends with status 0. Installed, or run by tools/run-program,\n\
        it ends with 1 where it told of a refusal or an error.\n",
    )
}
