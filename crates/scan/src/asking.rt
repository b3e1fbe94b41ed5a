// What is asked of a column: judged word by word, and answered by the column if it is a question.
use crate::column::answered;
use crate::keeping;
use dictionary_scan::judging::judge_dictionary;
use scan_day::seconds::{FULL, needed, start_of};
use scan_page::layouts::{PageLayout, Question};
use scan_question::options::{Asked, MOST, sorted_out};
use scan_question::{comparisons, files};
use scan_says::system::System;
use scan_says::{Sentence, help, tell};
use scan_words::names::{Layout, Opening, read_opening};
use std::env::Env;
use std::fs::Files;

// Room for a dictionary that is too long as well.
const VALUES: usize = 65540;

// A day of seconds.
const SECONDS: u32 = 86400;

pub fn asked<R: Env + Files>(system: &System<R>) {
    if let Err(sentence) = judged(system) {
        tell(system, sentence);
    }
}

// The question answered; or what is wrong with it.
fn judged<R: Env + Files>(system: &System<R>) -> Result<(), Sentence> {
    let mut words = [0usize; MOST];
    let asked = sorted_out(system, &mut words)?;
    let [first, others @ ..] = &words[..asked.words] else {
        return Err(Sentence::NoLayout);
    };
    match opening_at(system, *first) {
        None => Err(Sentence::WrongLayout(*first)),
        Some(Opening::Help) => {
            help(system);
            Ok(())
        }
        Some(Opening::Layout(layout)) => of_layout(system, layout, asked, others),
    }
}

fn opening_at<R: Env>(system: &System<R>, at: usize) -> Option<Opening> {
    let mut word = io::buffer();
    let n = system.arg(at, &mut word);
    read_opening(&word[..n])
}

// The words behind the layout.
fn of_layout<R: Env + Files>(
    system: &System<R>,
    layout: Layout,
    asked: Asked,
    words: &[usize],
) -> Result<(), Sentence> {
    let layout = page_layout(layout, asked.width)?;
    let comparison = comparisons::at_end(system, words)?;
    let q = Question {
        layout,
        op: comparison.op,
        a: comparison.a,
        b: comparison.b,
    };
    split(system, q, asked, &words[..words.len() - comparison.words])
}

// The layout with its entries' width, which some layouts need and the others do not have.
fn page_layout(layout: Layout, width: Option<u32>) -> Result<PageLayout, Sentence> {
    match (layout, width) {
        (Layout::Horizontal, Some(width)) => Ok(PageLayout::Horizontal(width)),
        (Layout::Planes, Some(width)) => Ok(PageLayout::Planes(width)),
        (Layout::Runs, Some(width)) => Ok(PageLayout::Runs(width)),
        (Layout::Delta, None) => Ok(PageLayout::Delta),
        (Layout::Dictionary, None) => Ok(PageLayout::Dictionary),
        (_, None) => Err(Sentence::NoWidth),
        (_, Some(_)) => Err(Sentence::OwnWidths),
    }
}

// The words before the comparison: the dictionary where there is one, and the pages.
fn split<R: Env + Files>(
    system: &System<R>,
    q: Question,
    asked: Asked,
    words: &[usize],
) -> Result<(), Sentence> {
    let dictionaries = (q.layout == PageLayout::Dictionary) as usize;
    if words.len() <= dictionaries {
        return Err(Sentence::NoPages(dictionaries));
    }
    let files = &words[dictionaries..];
    let entries = column_entries(asked, files.len() - 1);
    if needed(entries as usize) < files.len() {
        return Err(Sentence::ManyPages(entries as usize, files.len()));
    }
    if let Some(at) = keeping::named(system, asked, words) {
        return Err(Sentence::OverPage(at));
    }
    with_dictionary(system, q, asked, entries, words[0], files)
}

// The column's entries: given, or by the pages before the last and the last page's.
fn column_entries(asked: Asked, before: usize) -> u32 {
    match asked.last {
        Some(last) => (start_of(before) + (last as usize).min(FULL)) as u32,
        None => asked.entries.unwrap_or(SECONDS),
    }
}

// The first word names the dictionary, or a page as the others do.
fn with_dictionary<R: Env + Files>(
    system: &System<R>,
    q: Question,
    asked: Asked,
    entries: u32,
    at: usize,
    files: &[usize],
) -> Result<(), Sentence> {
    if q.layout != PageLayout::Dictionary {
        answered(system, q, asked, entries, at, &[], files);
        return Ok(());
    }
    let mut dictionary = [0u8; VALUES];
    let n = files::read(system, at, &mut dictionary).ok_or(Sentence::NoDictionary)?;
    if let Err(refusal) = judge_dictionary(&dictionary[..n]) {
        tell(system, Sentence::Refused(at, refusal));
        return Err(Sentence::NoDictionary);
    }
    answered(system, q, asked, entries, at, &dictionary[..n], files);
    Ok(())
}
