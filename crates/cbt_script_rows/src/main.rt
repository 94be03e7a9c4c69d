//! Reads rows from standard input and answers each: which texts are scripts, which are refused, at
//! which line and why, the canonical texts of what is taken, the cases of runs, reports of books
//! written out, and history texts.
//!
//! Empty lines and lines that begin `#` are copied out. Of every other line the first word says what
//! is asked (`rows.rt`), and the rest is a script in one line (`notation.rt`).
#![tactic(auto)]

mod books;
mod cases;
mod histories;
mod notation;
mod reports;
mod rows;

use anyhow::Result;

fn main(rt: HostRuntime) -> Result<()> {
    for line in rt.lines(rt.alloc()) {
        let line = line?;
        if line.is_empty() || line.starts_with('#') {
            println!(rt; "{line}")?;
        } else {
            let answer = rows::answer(rt.alloc(), line.as_str())?;
            println!(rt; "{line} => {answer}")?;
        }
    }
    Ok(())
}
