// What is asked besides the layout and the comparison: the options, and the places of the words left.
ghost use Rattle.std.specs.Prelude.{◌≡◌, ◌≤◌, IfOk};
ghost use Rattle.scan_question.specs.Options.{Left};

use scan_says::system::System;
use scan_says::{Sentence, first_word};
use scan_words::finding::find;
use scan_words::names::{Setting, is_option, read_setting};
use scan_words::numbers::read_count;
use scan_words::times::read_time;
use std::env::Env;

// At most so many words are taken, the program's name among them.
pub const MOST: usize = 1024;

// The word with a file's name, and the name's first byte in it.
#[derive(Clone, Copy)]
pub struct Name {
    pub at: usize,
    pub from: usize,
}

#[derive(Clone, Copy)]
pub struct Asked {
    pub width: Option<u32>,
    pub entries: Option<u32>,
    pub last: Option<u32>,
    // the column's first second: the time, and the day
    pub start: Option<u32>,
    pub day: Option<u32>,
    // the bitmap's file
    pub bitmap: Option<Name>,
    pub numbers: bool,
    pub spans: bool,
    // gaps of up to so many seconds are closed
    pub join: Option<u32>,
    // after `--` no word is an option
    is_ended: bool,
    // the option whose number or name comes next
    waits: Option<Setting>,
    pub words: usize,
}

impl Asked {
    fn new() -> Asked
        ensures { result.words ≡ 0 }
    {
        Asked {
            width: None,
            entries: None,
            last: None,
            start: None,
            day: None,
            bitmap: None,
            numbers: false,
            spans: false,
            join: None,
            is_ended: false,
            waits: None,
            words: 0,
        }
    }

    // A word that is no option and no option's.
    fn word(mut self, at: usize, words: &mut [usize]) -> Asked
        requires le_at { 1 ≤ at }
        requires left { Left self.words words.old }
        ensures { Left result.words words.new }
    {
        let k = self.words;
        if words.len() <= k {
            return self;
        }
        words[k] = at;
        self.words = k + 1;
        self
    }

    // Was an option given before.
    fn has(self, setting: Setting) -> bool {
        match setting {
            Setting::Width => self.width.is_some(),
            Setting::Entries => self.entries.is_some(),
            Setting::Last => self.last.is_some(),
            Setting::Bitmap => self.bitmap.is_some(),
            Setting::Numbers => self.numbers,
            Setting::Start => self.start.is_some(),
            Setting::Day => self.day.is_some(),
            Setting::Spans => self.spans,
            Setting::Join => self.join.is_some(),
        }
    }

    // A word that opens an option: alone, or with `=` and what the option takes behind it.
    fn opened(mut self, at: usize, word: &[u8]) -> Result<Asked, Sentence>
        ensures { IfOk result (λ asked. asked.words ≡ self.words) }
    {
        if word.len() == 2 {
            self.is_ended = true;
            return Ok(self);
        }
        let end = find(word, 0, word.len(), b'=');
        let setting = read_setting(&word[..end]).ok_or(Sentence::UnknownOption(at))?;
        if self.has(setting) {
            return Err(Sentence::Twice(at));
        }
        if end < word.len() {
            return self.given(setting, at, end + 1, &word[end + 1..]);
        }
        match setting {
            Setting::Numbers => self.numbers = true,
            Setting::Spans => self.spans = true,
            _ => self.waits = Some(setting),
        }
        Ok(self)
    }

    // What an option was given: word `at` from byte `from` on.
    fn given(
        mut self,
        setting: Setting,
        at: usize,
        from: usize,
        word: &[u8],
    ) -> Result<Asked, Sentence>
        ensures { IfOk result (λ asked. asked.words ≡ self.words) }
    {
        match setting {
            Setting::Width => self.width = Some(number(setting, at, word, 0, 32)?),
            Setting::Entries => self.entries = Some(number(setting, at, word, 0, 16777216)?),
            Setting::Last => self.last = Some(number(setting, at, word, 0, 16384)?),
            Setting::Join => self.join = Some(number(setting, at, word, 1, 86400)?),
            Setting::Day => self.day = Some(number(setting, at, word, 1, 99999)?),
            Setting::Start => {
                let second = read_time(word).ok_or(Sentence::Takes(Some(at), setting))?;
                self.start = Some(second);
            }
            Setting::Bitmap => {
                if word.is_empty() {
                    return Err(Sentence::Takes(None, setting));
                }
                self.bitmap = Some(Name { at, from });
            }
            Setting::Numbers | Setting::Spans => return Err(Sentence::Takes(Some(at), setting)),
        }
        Ok(self)
    }

    // No option may be left without what it takes, the entries are told once, and one list is written.
    fn finished(self) -> Result<Asked, Sentence>
        ensures { IfOk result (λ asked. asked ≡ self) }
    {
        if let Some(setting) = self.waits {
            return Err(Sentence::Takes(None, setting));
        }
        if self.entries.is_some() && self.last.is_some() {
            return Err(Sentence::TwoCounts);
        }
        if self.numbers && self.spans {
            return Err(Sentence::TwoLists);
        }
        if self.join.is_some() && !self.spans {
            return Err(Sentence::LoneJoin);
        }
        Ok(self)
    }
}

// The number that an option was given, from the least to the most that its sentence says.
fn number(
    setting: Setting,
    at: usize,
    word: &[u8],
    least: u32,
    most: u32,
) -> Result<u32, Sentence> {
    match read_count(word) {
        Some(n) if least <= n && n <= most => Ok(n),
        _ => Err(Sentence::Takes(Some(at), setting)),
    }
}

// All words, one after the other; or what is first wrong with them.
pub fn sorted_out<R: Env>(system: &System<R>, words: &mut [usize]) -> Result<Asked, Sentence>
    ensures { IfOk result (λ asked. Left asked.words words.new) }
{
    let all = system.arg_count();
    let first = first_word(system);
    if MOST - 1 + first < all {
        return Err(Sentence::ManyWords);
    }
    let mut asked = Asked::new();
    for at in first..all {
        asked = argument(system, asked, at, words)?;
    }
    asked.finished()
}

fn argument<R: Env>(
    system: &System<R>,
    mut asked: Asked,
    at: usize,
    words: &mut [usize],
) -> Result<Asked, Sentence>
    requires le_at { 1 ≤ at }
    requires left { Left asked.words words.old }
    ensures { IfOk result (λ after. Left after.words words.new) }
{
    let mut word = io::buffer();
    let Ok(n) = system.rt.arg(at, &mut word) else {
        return Err(Sentence::LongWord(at));
    };
    if let Some(setting) = asked.waits {
        asked.waits = None;
        return asked.given(setting, at, 0, &word[..n]);
    }
    if asked.is_ended || !is_option(&word[..n]) {
        return Ok(asked.word(at, words));
    }
    asked.opened(at, &word[..n])
}
