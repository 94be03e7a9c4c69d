//! Reads rows from standard input and answers each: which calls the machines of an attempt, or a whole
//! try, make, and how they end.
//!
//! Empty lines and lines that begin `#` are copied out. Every other line has the word of a machine and
//! its scene (`rows.rt`).
#![tactic(auto)]

mod agains;
mod bench;
mod finishes;
mod gets;
mod puts;
mod rows;
mod tries;
mod undos;
mod values;

use anyhow::Result;

fn main(rt: HostRuntime) -> Result<()> {
    for line in rt.lines(rt.alloc()) {
        let line = line?;
        if line.is_empty() || line.starts_with('#') {
            println!(rt; "{line}")?;
        } else {
            let mut told = String::new(rt.alloc());
            rows::answer(rt.alloc(), &mut told, line.as_str())?;
            println!(rt; "{line} => {told}")?;
        }
    }
    Ok(())
}
