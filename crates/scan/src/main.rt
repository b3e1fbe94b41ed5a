// The program `scan`: which seconds of a column satisfy a comparison, and where in its days they lie.
#![tactic(auto)]

mod asking;
mod column;
mod keeping;
mod listing;
mod same_file;
mod stretches;
mod telling;

use lines::streams::Streams;
use scan_says::system::System;
use scan_says::{Sentence, first_word, help, tell, version};
use scan_words::names::{Instead, read_instead};
use std::env::Env;
use std::fs::Files;
use std::process::ExitCode;

// The status of a program whose output is read no further, as that of one which the system's signal ends.
const UNREAD: u8 = 141;

fn main(rt: HostRuntime) -> ExitCode {
    let system = System {
        rt,
        streams: Streams::new(rt.stdout(), rt.stderr()),
    };
    answer(&system);
    if system.streams.is_closed() {
        return ExitCode::from(UNREAD);
    }
    ExitCode::SUCCESS
}

fn answer<R: Env + Files>(system: &System<R>) {
    let first = first_word(system);
    if system.arg_count() <= first {
        tell(system, Sentence::Usage);
        return;
    }
    match asked_instead(system, first) {
        None => asking::asked(system),
        Some(Instead::Version) => {
            version(system);
        }
        Some(Instead::Help) => {
            help(system);
        }
    }
}

// The first word that asks for something else than a scan, of those before `--`.
fn asked_instead<R: Env>(system: &System<R>, first: usize) -> Option<Instead> {
    for at in first..system.arg_count() {
        let mut word = io::buffer();
        let n = system.arg(at, &mut word);
        let plea = read_instead(&word[..n]);
        if plea.is_some() {
            return plea;
        }
        if &word[..n] == b"--".as_slice() {
            return None;
        }
    }
    None
}
