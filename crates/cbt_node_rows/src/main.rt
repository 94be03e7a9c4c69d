//! Reads rows from standard input and answers each: what the step table answers, what a node keeps of
//! its calls, and in which order actors are driven.
//!
//! Empty lines and lines that begin `#` are copied out. Of every other line the first word says what
//! is asked (`rows.rt`).
#![tactic(auto)]

mod drives;
mod nodes;
mod refusing;
mod replies;
mod rows;
mod stager;
mod steps;
mod tables;
mod words;
mod workers;

use anyhow::Result;

fn main(rt: HostRuntime) -> Result<()> {
    for line in rt.lines(rt.alloc()) {
        let line = line?;
        if line.is_empty() || line.starts_with('#') {
            println!(rt; "{line}")?;
        } else {
            let answer = rows::answer(rt.alloc(), line.as_str())?;
            println!(rt; "{line} => {answer}")?;
        }
    }
    Ok(())
}
