// Operators, layouts and options by the words that are typed for them.
ghost use Rattle.std.specs.Prelude.{◌≡◌, ◌<◌, IfSome, map, slice_get};
ghost use Rattle.scan_words.specs.Names.{place, operators, operator_number, layouts, options};
ghost use Rattle.scan_words.specs.Names.{dashed, insteads, numbers, openings, settings, pleas};

// The first operator that takes two constants.
pub const BETWEEN: u32 = 6;

#[derive(Clone, Copy, PartialEq, Eq)]
pub enum Layout {
    Horizontal,
    Planes,
    Runs,
    Delta,
    Dictionary,
}

// What may be typed where a layout stands.
#[derive(Clone, Copy, PartialEq, Eq)]
pub enum Opening {
    Layout(Layout),
    Help,
}

// The options.
#[derive(Clone, Copy, PartialEq, Eq)]
pub enum Setting {
    Width,
    Entries,
    Last,
    Bitmap,
    Numbers,
    Start,
    Day,
    Spans,
    Join,
}

// What is asked for instead of a scan.
#[derive(Clone, Copy, PartialEq, Eq)]
pub enum Instead {
    Version,
    Help,
}

// What a word stands for, of some words.
fn named<T: Copy>(word: &[u8], names: &[(&[u8], T)]) -> Option<T>
    ensures { result
        ≡ slice_get (map (λ n. n.1) names.now) (place word.now (map (λ n. n.0.now) names.now)) }
{
    let (_, meaning) = names.iter().find(|name| word == name.0)?;
    Some(*meaning)
}

// The operator of a word.
pub fn read_operator(word: &[u8]) -> Option<u32>
    ensures value { result ≡ slice_get numbers (place word.now operators) }
    ensures known { IfSome result (λ op. op < 8) }
{
    named(
        word,
        &[
            (b"equal", 0),
            (b"not-equal", 1),
            (b"less", 2),
            (b"at-most", 3),
            (b"greater", 4),
            (b"at-least", 5),
            (b"between", 6),
            (b"not-between", 7),
        ],
    )
}

// The operator of a digit.
pub fn read_digit(word: &[u8]) -> Option<u32>
    ensures value { result ≡ slice_get numbers (operator_number word.now) }
    ensures known { IfSome result (λ op. op < 8) }
{
    if word.len() != 1 || word[0] < b'0' || b'7' < word[0] {
        return None;
    }
    Some((word[0] - b'0') as u32)
}

// The layout of a word, or help.
pub fn read_opening(word: &[u8]) -> Option<Opening>
    ensures { result ≡ slice_get openings (place word.now layouts) }
{
    named(
        word,
        &[
            (b"horizontal", Opening::Layout(Layout::Horizontal)),
            (b"planes", Opening::Layout(Layout::Planes)),
            (b"runs", Opening::Layout(Layout::Runs)),
            (b"delta", Opening::Layout(Layout::Delta)),
            (b"dictionary", Opening::Layout(Layout::Dictionary)),
            (b"help", Opening::Help),
        ],
    )
}

// Does a word open an option.
pub fn is_option(word: &[u8]) -> bool
    ensures { result ≡ dashed word.now }
{
    word.starts_with(b"--")
}

// The option of a word.
pub fn read_setting(word: &[u8]) -> Option<Setting>
    ensures { result ≡ slice_get settings (place word.now options) }
{
    named(
        word,
        &[
            (b"--width", Setting::Width),
            (b"--entries", Setting::Entries),
            (b"--last", Setting::Last),
            (b"--bitmap", Setting::Bitmap),
            (b"--numbers", Setting::Numbers),
            (b"--start", Setting::Start),
            (b"--day", Setting::Day),
            (b"--spans", Setting::Spans),
            (b"--join", Setting::Join),
        ],
    )
}

// What a word asks for instead of a scan.
pub fn read_instead(word: &[u8]) -> Option<Instead>
    ensures { result ≡ slice_get pleas (place word.now insteads) }
{
    named(
        word,
        &[
            (b"--version", Instead::Version),
            (b"--help", Instead::Help),
            (b"-h", Instead::Help),
        ],
    )
}
