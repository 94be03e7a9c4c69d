//! Runs scripts of documents, clients and cleaners through the transaction protocol, and reports
//! what happened.
#![tactic(auto)]

mod commands;
mod crew;
mod headline;
#[cfg(test)]
mod log_lines;
mod ran;
mod run;
mod still;
mod system_clock;
#[cfg(test)]
mod tests;
mod texts;
mod told;
mod workers;

use cbt_base::{List, NoMemory, Text};
use cbt_streams::{StdSink, StdSource};
use std::io::ErrorKind;
use std::process::ExitCode;
use std::rt::Env;
use std::{env, io};
use still::still;
use system_clock::SystemClock;

/// The status of a run that found no memory for its words.
const OUT_OF_MEMORY: u8 = 5;

fn main(rt: HostRuntime) -> ExitCode {
    let Ok(words) = words_of(&rt) else {
        return ExitCode::from(OUT_OF_MEMORY);
    };
    let mut src = StdSource::new(rt.reader());
    let mut out = StdSink::new(io::writer(&rt));
    let clock = SystemClock::new(&rt);
    let ran = still(rt.alloc(), words.as_slice(), &mut src, &mut out, clock);
    ExitCode::from(ran.status)
}

// The words after the program's name; none where one of them is no text.
fn words_of<R: Env + AllocGlobal>(rt: &R) -> Result<List<Text>, NoMemory> {
    let mut words = List::new(rt.alloc());
    match env::args(rt) {
        Ok(args) => {
            for word in args.skip(1) {
                words.push(Text::from_string(word))?;
            }
        }
        Err(error) if error.kind() == ErrorKind::OutOfMemory => return Err(NoMemory),
        Err(_) => {}
    }
    Ok(words)
}
